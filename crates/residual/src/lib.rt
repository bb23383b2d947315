// Residual and reconstruction. Rests on the standard's clip, the domain's tests, the depths, the arithmetic of one residual
// (deltas) and the helpers.
#![tactic(auto)]

ghost use Rattle.std.specs.Prelude.{◌≡◌, ℕ, ◌*◌, ◌<◌, ◌≤◌, true, length, pos, ◌+ℤ◌, slice_index_or, unsigned_abs};
ghost use Rattle.laws.specs.Fill.{fill};
ghost use Rattle.h265.specs.Notation.{clip_to};
ghost use Rattle.domain.specs.Facts.{Size};
ghost use Rattle.domain.specs.Refusal.{no_of};
ghost use Rattle.residual.specs.Residual.{difference_at, rebuilt_to, all_in_range, residual_no, reconstruct_no, residuals_after};
ghost use Rattle.residual.specs.Residual.{reconstructed};
ghost use Rattle.residual.specs.Narrow.{high_part};

use domain::helpers;
use domain::refusal::Refusal;
use fmt::depth;
use samples::deltas;

// How many runs of 16 samples a block of side n has.
fn runs_of(n: usize) -> usize
    requires { Size n }
    ensures { (result * 16 ≡ n * n) × (result ≤ 64) }
{
    match n {
        4 => 1,
        8 => 4,
        16 => 16,
        _ => 64,
    }
}

// Prediction plus residual, clamped; of a residual in range, so that a sample asks no test (`deltas::restored` makes one).
fn rebuilt(p: u16, r: i32, largest: u16) -> u16
    requires { unsigned_abs r ≤ 65535 }
    ensures { result ≡ clip_to largest (pos p +ℤ r) }
{
    helpers::clamp((p as i32) + r, largest)
}

// Whether three buffers with so many entries each hold a block of side n.
#[tactic(auto, unfolding(crate::specs::Residual::residual_no))]
fn check_block(n: usize, orig: usize, pred: usize, residual: usize) -> Result<(), Refusal>
    ensures { no_of result ≡ residual_no n orig pred residual }
{
    if !domain::size_ok(n) {
        return Err(Refusal::Size);
    }
    let k = runs_of(n) * 16;
    if !((orig >= k) & (pred >= k) & (residual >= k)) {
        return Err(Refusal::Buffer);
    }
    Ok(())
}

// Writes entry(i) at each i of so many runs of 16. A run goes by way of an array of its own, so that all that it is worked out from is
// read before the first of it is written.
fn fill_runs<T: Copy, F: Fn(usize) -> T>(runs: usize, zero: T, entry: F, out: &mut [T])
    requires fits { (runs ≤ 64) × (runs * 16 ≤ length out.old) }
    requires callable { (i : ℕ) → i < runs * 16 → F.pre entry i }
    ensures { (f : ℕ → T) → ((i : ℕ) (v : T) → i < runs * 16 → F.post entry i v → v ≡ f i) → out.new ≡ fill f (runs * 16) out.old }
{
    for r in 0..runs {
        let mut run = [zero; 16];
        for j in 0..16 {
            run[j] = entry(r * 16 + j);
        }
        for j in 0..16 {
            out[r * 16 + j] = run[j];
        }
    }
}

// Original less prediction, into the first n×n entries.
pub fn compute_residual_i32_into(
    orig: &[u16],
    pred: &[u16],
    n: usize,
    residual: &mut [i32],
) -> Result<(), Refusal>
    ensures { (no_of result ≡ residual_no n (length orig.now) (length pred.now) (length residual.old))
        × (residual.new ≡ residuals_after n orig.now pred.now residual.old) }
{
    check_block(n, orig.len(), pred.len(), residual.len())?;
    let entry = |i: usize|
        requires { (i < length orig.now) × (i < length pred.now) }
        ensures { result ≡ difference_at orig.entry.now pred.entry.now i }
    { deltas::less(orig[i], pred[i]) };
    fill_runs(runs_of(n), 0, entry, &mut *residual);
    Ok(())
}

// Whether all residuals are in range; no early way out, so that many are tested at once.
fn all_in_range(residual: &[i32]) -> bool
    ensures { result ≡ all_in_range residual.now (length residual.now) }
{
    let mut ok = true;
    for r in residual {
        ok = ok & deltas::residual_ok(*r);
    }
    ok
}

// What r + 32768 has above its 16 low bits: 0 where r fits an i16, and then it is in range.
#[tactic(auto, unfolding(crate::specs::Narrow::high_part))]
fn high_part(r: i32) -> u16
    ensures { result ≡ high_part r }
{
    (deltas::raised(r).wrapping_add(2147516416) / 65536) as u16
}

// The high parts of residuals, one laid over the other.
fn high_parts(residual: &[i32]) -> u16
    ensures { result ≡ 0 → all_in_range residual.now (length residual.now) ≡ true }
{
    let mut parts = 0u16;
    for r in residual {
        parts = parts | high_part(*r);
    }
    parts
}

// Whether the first so many residuals are in range. Most often all fit an i16, which is sooner told.
#[tactic(auto, using(crate::specs::Laws::first_in_range))]
fn first_in_range(residual: &[i32], count: usize) -> bool
    requires { count ≤ length residual.now }
    ensures { result ≡ all_in_range residual.now count }
{
    let first = &residual[..count];
    if high_parts(first) == 0 {
        return true;
    }
    all_in_range(first)
}

// The depth before the buffers, and the residuals' range after them.
#[tactic(auto, unfolding(crate::specs::Residual::reconstruct_no, crate::specs::Residual::residual_no))]
fn check_rebuilding(
    bits: u32,
    n: usize,
    pred: usize,
    residual: &[i32],
    out: usize,
) -> Result<(), Refusal>
    ensures { no_of result ≡ reconstruct_no bits n pred residual.now out }
{
    if !domain::depth_ok(bits) {
        return Err(Refusal::Depth);
    }
    check_block(n, pred, residual.len(), out)?;
    if !first_in_range(residual, runs_of(n) * 16) {
        return Err(Refusal::Residual);
    }
    Ok(())
}

// Prediction plus residual, brought to the depth's samples, into the first n×n entries.
pub fn reconstruct_into(
    pred: &[u16],
    residual: &[i32],
    n: usize,
    bits: u32,
    out: &mut [u16],
) -> Result<(), Refusal>
    ensures { (no_of result ≡ reconstruct_no bits n (length pred.now) residual.now (length out.entry.now))
        × (out.new ≡ reconstructed bits n pred.now residual.now out.entry.now) }
{
    check_rebuilding(bits, n, pred.len(), residual, out.len())?;
    let largest = depth::largest_of(bits);
    let entry = |i: usize|
        requires { (i < length pred.now) × (i < length residual.now) × (unsigned_abs (slice_index_or residual.now i (pos 0)) ≤ 65535) }
        ensures { result ≡ rebuilt_to largest pred.entry.now residual.entry.now i }
    { rebuilt(pred[i], residual[i], largest) };
    fill_runs(runs_of(n), 0, entry, &mut *out);
    Ok(())
}
