// Entries at native types for the runs of plan check, walk and replay against the Rust: each calls a door and hands its answer over
// as plain numbers. Rests on the doors' contracts.
ghost use Rattle.std.specs.Prelude.{◌≡◌};
ghost use Rattle.plan.specs.tiling.Plan.{listed};
ghost use Rattle.walk.specs.Answers.{stepped_of};
ghost use Rattle.walk.specs.Lent.{scratch_tables, lent_plan, world_before, world_after};
ghost use Rattle.probes.specs.walk_probes.Probes.{plan_answer, still_of, progress_of, step_answer};
ghost use Rattle.probes.specs.walk_probes.Probes.{ProbeReplay, ProbeReplayLent, ProbeWalk, ProbeWalkLent};

use plan::tiling::{Block, Frame};
use predict::scratch::AngularScratch;
use walk::checks::Still;
use walk::{Advance, Progress, Rejected};

// A plan's number, and the list number of the block that it is about.
#[repr(C)]
#[derive(Clone, Copy)]
pub struct PlanAnswer {
    pub no: u32,
    pub block: u32,
}

#[unsafe(no_mangle)]
pub extern "C" fn salvrunde_probe_check_plan(
    width: u32,
    height: u32,
    ctu: u32,
    rows: &[u32],
    cols: &[u32],
    sides: &[u32],
    modes: &[u32],
) -> PlanAnswer
    ensures { result ≡ plan_answer width height ctu (lent_plan rows cols sides modes) }
{
    match plan::check_plan_numbers(Frame { width, height, ctu }, rows, cols, sides, modes) {
        Ok(()) => PlanAnswer { no: 0, block: 0 },
        Err(fault) => PlanAnswer {
            no: fault.why.number(),
            block: fault.block,
        },
    }
}

// What a call of walk or replay gives: its number and the block that it is about, how many blocks it did, and how many are done.
#[repr(C)]
#[derive(Clone, Copy)]
pub struct StepAnswer {
    pub no: u32,
    pub block: u32,
    pub did: u32,
    pub done: u32,
}

#[unsafe(no_mangle)]
pub extern "C" fn salvrunde_probe_walk(
    done: u32,
    bits: u32,
    width: u32,
    height: u32,
    ctu: u32,
    rows: &[u32],
    cols: &[u32],
    sides: &[u32],
    modes: &[u32],
    source: &[u16],
    work: &mut [u16],
    residuals: &mut [i32],
    refs: &mut [u16],
    indices: &mut [u32],
    fractions: &mut [u32],
    grant: u32,
) -> StepAnswer
    ensures { ProbeWalkLent (still_of bits width height ctu) (lent_plan rows cols sides modes) (progress_of done)
        grant source work residuals refs indices fractions result }
{
    let frame = Frame { width, height, ctu };
    let p = Progress { done };
    let a = p.walk_numbers(
        Still { bits, frame },
        rows,
        cols,
        sides,
        modes,
        source,
        &mut *work,
        &mut *residuals,
        &mut *refs,
        &mut *indices,
        &mut *fractions,
        grant,
    );
    step_answer(a)
}

#[unsafe(no_mangle)]
pub extern "C" fn salvrunde_probe_replay(
    done: u32,
    bits: u32,
    width: u32,
    height: u32,
    ctu: u32,
    rows: &[u32],
    cols: &[u32],
    sides: &[u32],
    modes: &[u32],
    residuals: &[i32],
    plane: &mut [u16],
    refs: &mut [u16],
    indices: &mut [u32],
    fractions: &mut [u32],
    grant: u32,
) -> StepAnswer
    ensures { ProbeReplayLent (still_of bits width height ctu) (lent_plan rows cols sides modes) (progress_of done)
        grant residuals plane refs indices fractions result }
{
    let frame = Frame { width, height, ctu };
    let p = Progress { done };
    let a = p.replay_numbers(
        Still { bits, frame },
        rows,
        cols,
        sides,
        modes,
        residuals,
        &mut *plane,
        &mut *refs,
        &mut *indices,
        &mut *fractions,
        grant,
    );
    step_answer(a)
}

fn progress_of(done: u32) -> Progress
    ensures { result ≡ record { done = done } }
{
    Progress { done }
}

fn still_of(bits: u32, width: u32, height: u32, ctu: u32) -> Still
    ensures { result ≡ still_of bits width height ctu }
{
    let frame = Frame { width, height, ctu };
    Still { bits, frame }
}

fn step_answer(a: Result<Advance, Rejected>) -> StepAnswer
    ensures { result ≡ step_answer (stepped_of a) }
{
    match a {
        Ok(advance) => StepAnswer {
            no: 0,
            block: 0,
            did: advance.did,
            done: advance.next.done,
        },
        Err(rejected) => StepAnswer {
            no: rejected.fault.why.number(),
            block: rejected.fault.block,
            did: 0,
            done: rejected.progress.done,
        },
    }
}

// The same two over block records, with the scratch as a struct.
#[unsafe(no_mangle)]
pub extern "C" fn salvrunde_probe_replay_records(
    done: u32,
    bits: u32,
    width: u32,
    height: u32,
    ctu: u32,
    plan: &[Block],
    residuals: &[i32],
    plane: &mut [u16],
    scratch: &mut AngularScratch,
    grant: u32,
) -> StepAnswer
    ensures { ProbeReplay (still_of bits width height ctu) (listed plan.now) scratch_tables
        (progress_of done) grant residuals.now plane.old plane.new result
        (scratch.new ≡ scratch.old) }
{
    let p = progress_of(done);
    let s = still_of(bits, width, height, ctu);
    let a = p.replay(s, plan, residuals, plane, scratch, grant);
    step_answer(a)
}

#[unsafe(no_mangle)]
pub extern "C" fn salvrunde_probe_walk_records(
    done: u32,
    bits: u32,
    width: u32,
    height: u32,
    ctu: u32,
    plan: &[Block],
    source: &[u16],
    work: &mut [u16],
    residuals: &mut [i32],
    scratch: &mut AngularScratch,
    grant: u32,
) -> StepAnswer
    ensures { ProbeWalk (still_of bits width height ctu) (listed plan.now) scratch_tables
        (progress_of done) grant source.now (world_before work residuals) (world_after work residuals) result
        (scratch.new ≡ scratch.old) }
{
    let p = progress_of(done);
    let s = still_of(bits, width, height, ctu);
    let a = p.walk(s, plan, source, work, residuals, scratch, grant);
    step_answer(a)
}
