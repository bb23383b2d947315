// Walk and replay of a luma still, block by block, in any number of calls (document 01, 'Plan, walk, replay').
// Rests on the contracts of a still's checks, of the plan check and of the work on one block alone.
#![tactic(auto)]

pub mod block;
mod block_rows;
pub mod calls;
pub mod checks;

ghost use Rattle.std.specs.Prelude.{◌≡◌, true, cond, ◌+◌, ◌*◌, ◌≤◌, leb, length};
ghost use Rattle.domain.specs.Refusal.{no_of};
ghost use Rattle.plan.specs.tiling.Plan.{listed};
ghost use Rattle.plan.specs.tiling.PlanCheck.{plan_verdict};
ghost use Rattle.walk.specs.checks.Checks.{settle};
ghost use Rattle.walk.specs.calls.Steps.{step_of};
ghost use Rattle.walk.specs.Answers.{step_in, stepped_of};
ghost use Rattle.walk.specs.block.Rebuilt.{rebuilt};
ghost use Rattle.walk.specs.block.Walked.{walked};
ghost use Rattle.walk.specs.block.Ready.{Ready, Lies};
ghost use Rattle.walk.specs.calls.Ready.{ReplayReady, WalkReady, ReplayBlocks, WalkBlocks};
ghost use Rattle.walk.specs.Door.{ReplayGives, ReplayLent, WalkGives, WalkLent};
ghost use Rattle.predict.specs.Lent.{Untouched};
ghost use Rattle.walk.specs.Lent.{tables, scratch_tables, lent_plan, world, world_before, world_after};

use crate::checks::Still;
use domain::refusal::Refusal;
use plan::blocks::{Blocks, Numbers};
use plan::tiling::{Block, Fault, Frame};
use predict::scratch::AngularScratch;

// How many blocks of the plan are done; 0 when fresh.
#[derive(Clone, Copy, Debug, PartialEq, Eq)]
pub struct Progress {
    pub done: u32,
}

// What a call did: how many blocks, and the next record.
#[derive(Clone, Copy, Debug, PartialEq, Eq)]
pub struct Advance {
    pub did: u32,
    pub next: Progress,
}

// Why a call is refused, the block that this is about, and the record as it was given.
#[derive(Clone, Copy, Debug, PartialEq, Eq)]
pub struct Rejected {
    pub fault: Fault,
    pub progress: Progress,
}

// Block k, whose residuals begin at `at`: rebuilt unless it was done before. Gives the next block's place.
fn replay_turn(
    s: Still,
    b: Block,
    at: usize,
    k: usize,
    from: u32,
    residuals: &[i32],
    plane: &mut [u16],
    refs: &mut [u16],
    indices: &mut [u32],
    fractions: &mut [u32],
) -> usize
    requires { Ready s b (length plane.old) (tables refs.old indices.old fractions.old) × Lies b (length
        residuals.now) at }
    ensures { (result ≡ at + b.side * b.side) × (plane.new ≡ cond (leb from k) (rebuilt s b at residuals.now plane.old) plane.old) }
{
    let n = b.side as usize;
    let next = at + n * n;
    if k < (from as usize) {
        return next;
    }
    block::rebuild_block(
        s,
        b,
        at,
        residuals,
        &mut *plane,
        &mut *refs,
        &mut *indices,
        &mut *fractions,
    );
    next
}

// The same of the walk.
fn walk_turn(
    s: Still,
    b: Block,
    at: usize,
    k: usize,
    from: u32,
    source: &[u16],
    work: &mut [u16],
    residuals: &mut [i32],
    refs: &mut [u16],
    indices: &mut [u32],
    fractions: &mut [u32],
) -> usize
    requires { Ready s b (length work.old) (tables refs.old indices.old fractions.old) × (Lies b (length
        residuals.old) at × (length source.now ≡ length work.old)) }
    ensures { (result ≡ at + b.side * b.side) × (world work.new residuals.new ≡ cond (leb from
        k) (walked s source.now b at (world work.old residuals.old)) (world work.old residuals.old)) }
{
    let n = b.side as usize;
    let next = at + n * n;
    if (from as usize) > k {
        return next;
    }
    block::walk_block(
        s,
        b,
        at,
        source,
        &mut *work,
        &mut *residuals,
        &mut *refs,
        &mut *indices,
        &mut *fractions,
    );
    next
}

// The blocks of a plan up to block `upto`: those from block `from` on are rebuilt.
fn replay_blocks<P: Blocks>(
    s: Still,
    plan: P,
    residuals: &[i32],
    plane: &mut [u16],
    refs: &mut [u16],
    indices: &mut [u32],
    fractions: &mut [u32],
    from: u32,
    upto: usize,
)
    requires { ReplayReady s (P.plan plan) (tables refs.old indices.old fractions.old) (length plane.old) (length residuals.now) upto }
    ensures { ReplayBlocks s (P.plan plan) residuals.now from upto plane.old plane.new (Untouched refs indices fractions) }
{
    let mut at: usize = 0;
    for k in 0..upto {
        let b = plan.block(k);
        at = replay_turn(
            s,
            b,
            at,
            k,
            from,
            residuals,
            &mut *plane,
            &mut *refs,
            &mut *indices,
            &mut *fractions,
        );
    }
}

// The same of the walk.
fn walk_blocks<P: Blocks>(
    s: Still,
    plan: P,
    source: &[u16],
    work: &mut [u16],
    residuals: &mut [i32],
    refs: &mut [u16],
    indices: &mut [u32],
    fractions: &mut [u32],
    from: u32,
    upto: usize,
)
    requires { WalkReady s (P.plan plan) (tables refs.old indices.old fractions.old) (length source.now) (length work.old) (length
        residuals.old) upto }
    ensures { WalkBlocks s (P.plan plan) source.now from upto
        (world_before work residuals) (world_after work residuals) (Untouched refs indices fractions) }
{
    let mut at: usize = 0;
    for k in 0..upto {
        let b = plan.block(k);
        at = walk_turn(
            s,
            b,
            at,
            k,
            from,
            source,
            &mut *work,
            &mut *residuals,
            &mut *refs,
            &mut *indices,
            &mut *fractions,
        );
    }
}

// How far a call goes, before its first write: the checks before the plan's, in hand, then the plan's, then number 11.
#[tactic(auto, using(crate::proofs::Found::told), unfolding(crate::specs::checks::Checks::settle, crate::specs::calls::Steps::step_of))]
pub fn granted<P: Blocks>(
    p: Progress,
    frame: Frame,
    plan: P,
    early: Result<(), Refusal>,
    grant: u32,
) -> Result<Advance, Fault>
    ensures { step_in result ≡ step_of (settle (plan_verdict frame (P.plan plan)) (P.plan plan).count p.done (no_of early))
        (P.plan plan).count p.done grant }
{
    early?;
    plan::check(frame, plan)?;
    Ok(calls::advance(p, plan.count(), grant)?)
}

impl Progress {
    // No block is done.
    pub fn fresh() -> Self
        ensures { result ≡ record { done = 0 } }
    {
        Progress { done: 0 }
    }

    // What a refused call hands back: the record as it was given.
    fn rejected(self, fault: Fault) -> Rejected
        ensures { result ≡ record { fault = fault; progress = self } }
    {
        Rejected {
            fault,
            progress: self,
        }
    }

    // Decodes the next blocks of a plan from their residuals, as many as are granted.
    fn replay_plan<P: Blocks>(
        self,
        still: Still,
        plan: P,
        residuals: &[i32],
        plane: &mut [u16],
        refs: &mut [u16],
        indices: &mut [u32],
        fractions: &mut [u32],
        grant: u32,
    ) -> Result<Advance, Rejected>
        ensures { ReplayLent still (P.plan plan) self grant residuals plane refs indices fractions (stepped_of result) }
    {
        let early = checks::check_replay(
            still,
            plan.whole(),
            residuals,
            plane.len(),
            refs.len(),
            indices.len(),
            fractions.len(),
        );
        match granted(self, still.frame, plan, early, grant) {
            Err(fault) => Err(self.rejected(fault)),
            Ok(advance) => {
                replay_blocks(
                    still,
                    plan,
                    residuals,
                    &mut *plane,
                    &mut *refs,
                    &mut *indices,
                    &mut *fractions,
                    self.done,
                    advance.next.done as usize,
                );
                Ok(advance)
            }
        }
    }

    // Stores the residuals of the next blocks of a plan, as many as are granted, and reconstructs them in the work plane.
    fn walk_plan<P: Blocks>(
        self,
        still: Still,
        plan: P,
        source: &[u16],
        work: &mut [u16],
        residuals: &mut [i32],
        refs: &mut [u16],
        indices: &mut [u32],
        fractions: &mut [u32],
        grant: u32,
    ) -> Result<Advance, Rejected>
        ensures { WalkLent still (P.plan plan) self grant source work residuals refs indices fractions (stepped_of result) }
    {
        let early = checks::check_walk(
            still,
            plan.whole(),
            source,
            work.len(),
            residuals.len(),
            refs.len(),
            indices.len(),
            fractions.len(),
        );
        match granted(self, still.frame, plan, early, grant) {
            Err(fault) => Err(self.rejected(fault)),
            Ok(advance) => {
                walk_blocks(
                    still,
                    plan,
                    source,
                    &mut *work,
                    &mut *residuals,
                    &mut *refs,
                    &mut *indices,
                    &mut *fractions,
                    self.done,
                    advance.next.done as usize,
                );
                Ok(advance)
            }
        }
    }

    // Decodes the next blocks of a plan of numbers from their residuals, as many as are granted.
    pub fn replay_numbers(
        self,
        still: Still,
        rows: &[u32],
        cols: &[u32],
        sides: &[u32],
        modes: &[u32],
        residuals: &[i32],
        plane: &mut [u16],
        refs: &mut [u16],
        indices: &mut [u32],
        fractions: &mut [u32],
        grant: u32,
    ) -> Result<Advance, Rejected>
        ensures { ReplayLent still (lent_plan rows cols sides modes) self grant residuals plane
            refs indices fractions (stepped_of result) }
    {
        let plan = Numbers {
            rows,
            cols,
            sides,
            modes,
        };
        self.replay_plan(
            still, plan, residuals, plane, refs, indices, fractions, grant,
        )
    }

    // Stores the residuals of the next blocks of a plan of numbers, as many as are granted, and reconstructs them in the work plane.
    pub fn walk_numbers(
        self,
        still: Still,
        rows: &[u32],
        cols: &[u32],
        sides: &[u32],
        modes: &[u32],
        source: &[u16],
        work: &mut [u16],
        residuals: &mut [i32],
        refs: &mut [u16],
        indices: &mut [u32],
        fractions: &mut [u32],
        grant: u32,
    ) -> Result<Advance, Rejected>
        ensures { WalkLent still (lent_plan rows cols sides modes) self grant source work residuals
            refs indices fractions (stepped_of result) }
    {
        let plan = Numbers {
            rows,
            cols,
            sides,
            modes,
        };
        self.walk_plan(
            still, plan, source, work, residuals, refs, indices, fractions, grant,
        )
    }

    // The same of a plan of records, with the scratch as one struct.
    pub fn replay(
        self,
        still: Still,
        plan: &[Block],
        residuals: &[i32],
        plane: &mut [u16],
        scratch: &mut AngularScratch,
        grant: u32,
    ) -> Result<Advance, Rejected>
        ensures { ReplayGives still (listed plan.now) scratch_tables self grant residuals.now plane.old plane.new
            (stepped_of result) (scratch.new ≡ scratch.old) }
    {
        self.replay_plan(
            still,
            plan,
            residuals,
            plane,
            &mut scratch.refs,
            &mut scratch.indices,
            &mut scratch.fractions,
            grant,
        )
    }

    pub fn walk(
        self,
        still: Still,
        plan: &[Block],
        source: &[u16],
        work: &mut [u16],
        residuals: &mut [i32],
        scratch: &mut AngularScratch,
        grant: u32,
    ) -> Result<Advance, Rejected>
        ensures { WalkGives still (listed plan.now) scratch_tables self grant source.now
            (world_before work residuals) (world_after work residuals) (stepped_of result) (scratch.new ≡ scratch.old) }
    {
        self.walk_plan(
            still,
            plan,
            source,
            work,
            residuals,
            &mut scratch.refs,
            &mut scratch.indices,
            &mut scratch.fractions,
            grant,
        )
    }
}
