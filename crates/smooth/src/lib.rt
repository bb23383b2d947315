// Smoothing of a block's references, H.265 8.4.4.2.3. Rests on the standard's definitions, the domain's tests, the rows and the
// arithmetic of one reference (filters).
#![tactic(auto)]

ghost use Rattle.std.specs.Prelude.{◌≡◌, true, ℕ, ◌≤◌, length, get_or};
ghost use Rattle.h265.specs.Notation.{from_rows};
ghost use Rattle.h265.specs.Filtering.{bi_int_flag, strong_at};
ghost use Rattle.domain.specs.Facts.{Depth};
ghost use Rattle.domain.specs.Refusal.{no_of};
ghost use Rattle.smooth.specs.Answers.{rule_given, rows_given, smoothed_given};
ghost use Rattle.smooth.specs.Smoothing.{rule_no, filter_no, filter_luma_no, should_filter_refs, filter_references, filter_luma_refs};
ghost use Rattle.smooth.specs.Smoothing.{row_of, smoothed};
ghost use Rattle.smooth.specs.Forms.{weak_row};
ghost use Rattle.smooth.specs.Steps.{SmoothReady};

use domain::refusal::Refusal;
use domain::rows;
use samples::filters;

// The two rows in the [1 2 1] form.
#[derive(Clone, Copy, Debug, PartialEq, Eq)]
pub struct RowPair {
    pub above: [u16; 65],
    pub left: [u16; 65],
}

// The side, then the mode.
#[tactic(auto, unfolding(crate::specs::Smoothing::rule_no))]
fn check_rule(mode: u8, n: usize) -> Result<(), Refusal>
    ensures { no_of result ≡ rule_no mode n }
{
    if !domain::size_ok(n) {
        return Err(Refusal::Size);
    }
    if !domain::mode_ok(mode as u32) {
        return Err(Refusal::Mode);
    }
    Ok(())
}

// Whether the references of a block of side n are smoothed for a mode.
#[tactic(auto, unfolding(crate::specs::Smoothing::should_filter_refs))]
pub fn should_filter_refs(mode: u8, n: usize) -> Result<bool, Refusal>
    ensures { rule_given result ≡ should_filter_refs mode n }
{
    check_rule(mode, n)?;
    Ok(filters::smooths(mode, n))
}

// The side, then rows with so many entries.
#[tactic(auto, unfolding(crate::specs::Smoothing::filter_no))]
fn check_rows(n: usize, above: usize, left: usize) -> Result<(), Refusal>
    ensures { no_of result ≡ filter_no n above left }
{
    if !domain::size_ok(n) {
        return Err(Refusal::Size);
    }
    if !((above >= 65) & (left >= 65)) {
        return Err(Refusal::Buffer);
    }
    Ok(())
}

// The depth before them.
#[tactic(auto, unfolding(crate::specs::Smoothing::filter_luma_no))]
fn check_luma(bits: u32, n: usize, above: usize, left: usize) -> Result<(), Refusal>
    ensures { no_of result ≡ filter_luma_no bits n above left }
{
    if !domain::depth_ok(bits) {
        return Err(Refusal::Depth);
    }
    check_rows(n, above, left)
}

// A row in the [1 2 1] form: entries 2n - 1 and 2n are copied.
fn weak_row(corner: u16, row: &[u16], n: usize) -> [u16; 65]
    requires { (4 ≤ n) × ((n ≤ 32) × (65 ≤ length row.now)) }
    ensures { result ≡ row_of n (weak_row n corner (λ (x : ℕ). get_or row.now x 0)) row.now }
{
    let mut to = [0u16; 65];
    let ext = 2 * n;
    let last = ext - 1;
    to[0] = filters::tap(corner, row[0], row[1]);
    for x in 1..last {
        to[x] = filters::tap(row[x - 1], row[x], row[x + 1]);
    }
    to[last] = row[last];
    to[ext] = row[ext];
    to
}

// A row in the strong form, of n = 32: entries 63 and 64 are copied.
fn strong_row(corner: u16, row: &[u16]) -> [u16; 65]
    requires { 65 ≤ length row.now }
    ensures { result ≡ row_of 32 (strong_at corner (get_or row.now 63 0)) row.now }
{
    let mut to = [0u16; 65];
    let far = row[63];
    for x in 0..63 {
        to[x] = filters::ramp(x as u32, corner, far);
    }
    to[63] = far;
    to[64] = row[64];
    to
}

// Whether the strong form is taken, where it is allowed.
fn is_strong(allowed: bool, corner: u16, above: &[u16], left: &[u16], n: usize, bits: u32) -> bool
    requires { Depth bits × SmoothReady n (length above.now) (length left.now) }
    ensures { result ≡ bi_int_flag allowed bits n (from_rows corner above.now left.now) }
{
    let up = filters::is_straight(bits, corner, above[31], above[63]);
    let down = filters::is_straight(bits, corner, left[31], left[63]);
    allowed & (n == 32) & up & down
}

// The corner and both rows, smoothed.
fn smooth_rows(
    allowed: bool,
    corner: u16,
    above: &[u16],
    left: &[u16],
    n: usize,
    bits: u32,
) -> rows::Rows
    requires { Depth bits × SmoothReady n (length above.now) (length left.now) }
    ensures { result ≡ smoothed allowed bits n corner above.now left.now }
{
    if is_strong(allowed, corner, above, left, n, bits) {
        let a = strong_row(corner, above);
        let l = strong_row(corner, left);
        return rows::Rows {
            corner: corner,
            above: a,
            left: l,
        };
    }
    let c = filters::tap(above[0], corner, left[0]);
    let a = weak_row(corner, above, n);
    let l = weak_row(corner, left, n);
    rows::Rows {
        corner: c,
        above: a,
        left: l,
    }
}

// The two rows in the [1 2 1] form, whatever the depth.
#[tactic(auto, unfolding(crate::specs::Smoothing::filter_references))]
pub fn filter_references(
    corner: u16,
    above: &[u16],
    left: &[u16],
    n: usize,
) -> Result<RowPair, Refusal>
    ensures { rows_given result ≡ filter_references corner above.now left.now n }
{
    check_rows(n, above.len(), left.len())?;
    let a = weak_row(corner, above, n);
    let l = weak_row(corner, left, n);
    Ok(RowPair { above: a, left: l })
}

// The corner and the two rows; at n = 32 in the strong form where both rows are nearly straight.
#[tactic(auto, unfolding(crate::specs::Smoothing::filter_luma_refs))]
pub fn filter_luma_refs(
    corner: u16,
    above: &[u16],
    left: &[u16],
    n: usize,
    bits: u32,
) -> Result<rows::Rows, Refusal>
    ensures { smoothed_given result ≡ filter_luma_refs true corner above.now left.now n bits }
{
    check_luma(bits, n, above.len(), left.len())?;
    Ok(smooth_rows(true, corner, above, left, n, bits))
}
