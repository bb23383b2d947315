// The replay of a luma still on lent bytes: plane, residuals and plan as the C firmware has them (document 01, 'use from C'). Every
// check precedes the first write; then it works in place and copies no plane. Rests on the contracts of the byte gather, of the
// prediction, of a call's checks and of the plan check.
ghost use Rattle.std.specs.Prelude.{◌≡◌, cond, ◌&&◌, ℕ, ◌+◌, ◌-◌, ◌*◌, ◌/◌, ◌%◌, ◌≤◌, ◌<◌, leb, length, get_or, set, pos, ◌+ℤ◌};
ghost use Rattle.laws.specs.Choose.{first_fail};
ghost use Rattle.laws.specs.Fill.{run, block};
ghost use Rattle.laws.specs.Paint.{paint};
ghost use Rattle.laws.specs.Chain.{units};
ghost use Rattle.laws.specs.Every.{every};
ghost use Rattle.h265.specs.Notation.{clip_to};
ghost use Rattle.octets.specs.Bytes.{samples_of, residuals_of};
ghost use Rattle.plan.specs.RecordPlan.{records_of};
ghost use Rattle.walk.specs.Lent.{tables, scratch_tables};
ghost use Rattle.samples.specs.deltas.Deltas.{residual_within};
ghost use Rattle.walk.specs.checks.Checks.{residual_checks};
ghost use Rattle.walk.specs.block.Predicted.{predicted_at};
ghost use Rattle.walk.specs.block.Ready.{Ready, Lies};
ghost use Rattle.walk.specs.block_rows.Ready.{RowIn, RowsIn};
ghost use Rattle.walk.specs.block.Rebuilt.{rebuilt, replay_unit};
ghost use Rattle.domain.specs.Refusal.{no_of};
ghost use Rattle.walk.specs.Answers.{step_in};
ghost use Rattle.walk.specs.calls.Steps.{step_of};
ghost use Rattle.walk.specs.calls.Ready.{Sound};
ghost use Rattle.camera.specs.replay.Verdict.{whole_by, lent_bytes, byte_no, byte_verdict, answered};
ghost use Rattle.camera.specs.replay.VerdictLaws.{put_word};
ghost use Rattle.camera.specs.replay.Door.{replayed};

use crate::{bytes, gather};
use domain::refusal::Refusal;
use fmt::depth;
use plan::records;
use plan::tiling::{Block, Fault};
use samples::deltas;
use walk::checks::Still;
use walk::{Advance, Progress, block, checks};

// Residual i.
fn residual_at(b: &[u8], i: usize) -> i32
    requires { i < length (residuals_of b.now) }
    ensures { result ≡ get_or (residuals_of b.now) i (pos 0) }
{
    let at = 4 * i;
    octets::residual(b[at], b[at + 1], b[at + 2], b[at + 3])
}

// Stores sample i.
fn put_sample(b: &mut [u8], i: usize, v: u16)
    requires { (i < length (samples_of b.old)) × (length b.old % 2 ≡ 0) }
    ensures { samples_of b.new ≡ set (samples_of b.old) i v }
{
    gather::put(b, i, v);
}

// A row of n samples from base on, its predictions from `from` on, its residuals from `at` on.
#[tactic(auto, using(crate::specs::replay::Laws::storing_bytes))]
fn rebuild_row(
    plane: &mut [u8],
    pred: &[u16],
    residuals: &[u8],
    n: usize,
    base: usize,
    from: usize,
    at: usize,
    largest: u16,
)
    requires { RowIn (length (samples_of plane.old)) (length pred.now) (length (residuals_of residuals.now)) n
        base from at × (length plane.old % 2 ≡ 0) }
    ensures { samples_of plane.new ≡ run (λ (c : ℕ). clip_to largest (pos (get_or pred.now
        (from + c) 0) +ℤ get_or (residuals_of residuals.now) (at + c) (pos 0))) base n (samples_of plane.old) }
{
    for c in 0..n {
        let r = residual_at(residuals, at + c);
        put_sample(
            plane,
            base + c,
            deltas::restored(pred[from + c], r, largest),
        );
    }
}

// All rows of a block.
#[tactic(auto, using(crate::specs::replay::Laws::storing_bytes, walk::specs::block_rows::Laws::row_in))]
fn rebuild_rows(
    plane: &mut [u8],
    pred: &[u16],
    residuals: &[u8],
    n: usize,
    base: usize,
    width: usize,
    at: usize,
    largest: u16,
)
    requires { RowsIn (length (samples_of plane.old)) (length pred.now) (length (residuals_of residuals.now)) n
        base width at × (length plane.old % 2 ≡ 0) }
    ensures { samples_of plane.new ≡ paint base width n (λ (r c : ℕ). clip_to largest (pos (get_or pred.now (r * n + c) 0) +ℤ get_or (residuals_of residuals.now) (at + r * n + c) (pos 0))) n
        (samples_of plane.old) }
{
    for r in 0..n {
        rebuild_row(
            plane,
            pred,
            residuals,
            n,
            base + r * width,
            r * n,
            at + r * n,
            largest,
        );
    }
}

// Whether no residual is larger than a limit.
#[tactic(auto, using(walk::specs::checks::Laws::passing, octets::specs::Laws::length_residuals))]
fn residuals_within(residuals: &[u8], limit: u16) -> bool
    ensures { result ≡ every (residual_within limit) (residuals_of residuals.now) }
{
    let count = residuals.len() / 4;
    let mut ok = true;
    for i in 0..count {
        ok = ok & deltas::residual_within(residual_at(residuals, i), limit);
    }
    ok
}

// Numbers 8 and 14 over all residuals. The tighter limit is asked first: where all keep it, each is looked at once.
fn check_residuals(residuals: &[u8], largest: u16) -> Result<(), Refusal>
    ensures { no_of result ≡ first_fail (residual_checks largest (residuals_of residuals.now)) }
{
    if residuals_within(residuals, largest) {
        return Ok(());
    }
    if residuals_within(residuals, 65535) {
        Err(Refusal::Excess)
    } else {
        Err(Refusal::Residual)
    }
}

// A block's prediction from a plane, in rows. Such a block's gather is never refused. The last three slices are scratch.
fn predict_block(
    s: Still,
    b: Block,
    plane: &[u8],
    pred: &mut [u16],
    refs: &mut [u16],
    indices: &mut [u32],
    fractions: &mut [u32],
)
    requires { Ready s b (length (samples_of plane.now)) (tables refs.old indices.old fractions.old) × ((b.side * b.side ≤ length pred.old) × (length plane.now % 2 ≡ 0)) }
    ensures { pred.new ≡ block (predicted_at s b (samples_of plane.now)) b.side pred.old }
{
    if let Ok(rows) = gather::get_reference_samples(plane, block::geometry(s, b)) {
        let _ = predict::predict_luma_tb_slices(
            b.mode as u8,
            rows,
            b.side as usize,
            s.bits,
            &mut *pred,
            &mut *refs,
            &mut *indices,
            &mut *fractions,
        );
    }
}

// A block: its samples from its prediction and its residuals, which are in rows from `at` on. The last three slices are scratch.
fn rebuild_block(
    s: Still,
    b: Block,
    at: usize,
    residuals: &[u8],
    plane: &mut [u8],
    refs: &mut [u16],
    indices: &mut [u32],
    fractions: &mut [u32],
)
    requires { Ready s b (length (samples_of plane.old)) (tables refs.old indices.old fractions.old) × (Lies
        b (length (residuals_of residuals.now)) at × (length plane.old % 2 ≡ 0)) }
    ensures { samples_of plane.new ≡ rebuilt s b at (residuals_of residuals.now) (samples_of
        plane.old) }
{
    let mut pred = [0u16; 1024];
    predict_block(
        s,
        b,
        plane,
        &mut pred,
        &mut *refs,
        &mut *indices,
        &mut *fractions,
    );
    rebuild_rows(
        &mut *plane,
        &pred,
        residuals,
        b.side as usize,
        block::base_of(s, b),
        s.frame.width as usize,
        at,
        depth::largest_of(s.bits),
    );
}

// Number 5: whether there are two bytes for each sample and four for each residual.
fn are_whole(s: Still, plane: usize, residuals: usize) -> bool
    ensures { result ≡ (whole_by s 2 plane && whole_by s 4 residuals) }
{
    let area = (s.frame.height as usize) * (s.frame.width as usize);
    let samples = (plane % 2 == 0) & (plane / 2 == area);
    samples & ((residuals % 4 == 0) & (residuals / 4 == area))
}

// The checks before the plan's: 1, 4, 5, 8, 14.
fn check_bytes(
    s: Still,
    plan: &[u8],
    residuals: &[u8],
    plane: usize,
    res: usize,
) -> Result<(), Refusal>
    ensures { no_of result ≡ byte_no s (lent_bytes plan.now residuals.now plane res) }
{
    let planes = are_whole(s, plane, residuals.len());
    checks::check_opening(s, planes & (plan.len() % 6 == 0) & (res >= 8))?;
    check_residuals(residuals, depth::largest_of(s.bits))
}

// How far a call goes: those checks, then the plan's, then 11.
fn granted(
    done: u32,
    s: Still,
    plan: &[u8],
    residuals: &[u8],
    plane: usize,
    res: usize,
    grant: u32,
) -> Result<Advance, Fault>
    ensures { step_in result ≡ step_of (byte_verdict s done (lent_bytes plan.now residuals.now plane res))
        (records_of plan.now).count done grant }
{
    let early = check_bytes(s, plan, residuals, plane, res);
    walk::granted(Progress { done }, s.frame, plan, early, grant)
}

// Stores a number of four bytes.
pub(crate) fn put_word(b: &mut [u8], at: usize, v: u32)
    requires { at + 3 < length b.old }
    ensures { b.new ≡ put_word b.old at v }
{
    bytes::put(b, at, v.to_le_bytes());
}

// Writes the block number and the progress record into a result buffer that has room for them.
fn answer(res: &mut [u8], block: u32, next: u32)
    ensures { res.new ≡ answered block next res.old }
{
    if res.len() >= 8 {
        put_word(res, 0, block);
        put_word(res, 4, next);
    }
}

// Block k, whose residuals begin at `at`: rebuilt unless it was done before. Gives the next block's place.
fn replay_turn(
    s: Still,
    b: Block,
    at: usize,
    k: usize,
    from: u32,
    residuals: &[u8],
    plane: &mut [u8],
    refs: &mut [u16],
    indices: &mut [u32],
    fractions: &mut [u32],
) -> usize
    requires { Ready s b (length (samples_of plane.old)) (tables refs.old indices.old fractions.old) × (Lies
        b (length (residuals_of residuals.now)) at × (length plane.old % 2 ≡ 0)) }
    ensures { (result ≡ at + b.side * b.side) × (samples_of plane.new ≡ cond (leb from k) (rebuilt s b at
        (residuals_of residuals.now) (samples_of plane.old)) (samples_of plane.old)) }
{
    let n = b.side as usize;
    let next = at + n * n;
    if k < (from as usize) {
        return next;
    }
    rebuild_block(
        s,
        b,
        at,
        residuals,
        &mut *plane,
        &mut *refs,
        &mut *indices,
        &mut *fractions,
    );
    next
}

// The records of a plan up to block `upto`: those from block `from` on are rebuilt.
#[tactic(auto, using(walk::specs::calls::Turns::turns))]
fn replay_blocks(
    s: Still,
    plan: &[u8],
    residuals: &[u8],
    plane: &mut [u8],
    refs: &mut [u16],
    indices: &mut [u32],
    fractions: &mut [u32],
    from: u32,
    upto: usize,
)
    requires { Sound s (records_of plan.now) (length (samples_of plane.old)) (length (residuals_of residuals.now)) (tables refs.old indices.old fractions.old) × ((upto ≤ length plan.now / 6) × (length
        plane.old % 2 ≡ 0)) }
    ensures { samples_of plane.new ≡ units (replay_unit s (records_of plan.now).block
        (residuals_of residuals.now)) from (upto - from) (samples_of plane.old) }
{
    let mut at: usize = 0;
    for k in 0..upto {
        let b = records::record_at(plan, k);
        at = replay_turn(
            s,
            b,
            at,
            k,
            from,
            residuals,
            &mut *plane,
            &mut *refs,
            &mut *indices,
            &mut *fractions,
        );
    }
}

// A call that is served: the blocks up to `next`, with scratch of its own.
fn serve(done: u32, s: Still, plan: &[u8], residuals: &[u8], plane: &mut [u8], next: u32)
    requires { Sound s (records_of plan.now) (length (samples_of plane.old)) (length (residuals_of residuals.now)) scratch_tables × ((next ≤ length plan.now / 6) × (length plane.old % 2 ≡ 0)) }
    ensures { samples_of plane.new ≡ units (replay_unit s (records_of plan.now).block (residuals_of residuals.now))
        done (next - done) (samples_of plane.old) }
{
    let mut refs = [0u16; 193];
    let mut indices = [0u32; 32];
    let mut fractions = [0u32; 32];
    replay_blocks(
        s,
        plan,
        residuals,
        &mut *plane,
        &mut refs,
        &mut indices,
        &mut fractions,
        done,
        next as usize,
    );
}

// Decodes the next blocks of a plan in the plane's own bytes, as many as are granted; so many are done before it. It writes
// the block that it is about and the next progress record into the result buffer.
pub(crate) fn replay(
    done: u32,
    still: Still,
    plan: &[u8],
    residuals: &[u8],
    plane: &mut [u8],
    res: &mut [u8],
    grant: u32,
) -> Result<(), Refusal>
    ensures { record { number = no_of result; plane = plane.new; result = res.new } ≡ replayed still
        done plan.now residuals.now grant plane.old res.old }
{
    match granted(done, still, plan, residuals, plane.len(), res.len(), grant) {
        Err(fault) => {
            answer(res, fault.block, done);
            Err(fault.why)
        }
        Ok(advance) => {
            let next = advance.next.done;
            serve(done, still, plan, residuals, &mut *plane, next);
            answer(res, 0, next);
            Ok(())
        }
    }
}
