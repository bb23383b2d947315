// The checksum of a decoded picture, H.265 Annex D, plane by plane and row by row (document 02, Wish 7), over samples that are lent as
// samples or as bytes. Rests on the domain's tests, the figures of a depth and lent samples.
#![tactic(auto)]

pub mod on_bytes;

ghost use Rattle.std.specs.Prelude.{◌≡◌, ℕ, ◌+◌, ◌-◌, ◌*◌, ◌<◌, ◌≤◌, ◌&&◌, length, get_or, nat_le};
ghost use Rattle.laws.specs.Sum.{total};
ghost use Rattle.h265.specs.Checksum.{xor_mask, sum_of_rows};
ghost use Rattle.domain.specs.Domain.{plane_side_ok};
ghost use Rattle.domain.specs.Refusal.{no_of};
ghost use Rattle.checksum.specs.Answers.{answered};
ghost use Rattle.checksum.specs.Checksum.{sample_in_plane, checksum_no_by, checksum_no, summed_by, checksum_of};
ghost use Rattle.checksum.specs.Laws.{sample_adds, column_adds};

use domain::refusal::Refusal;
use fmt::depth;
use octets::lent;
use octets::lent::Samples;

// A plane of a depth, its sides, and the rows from first up to end.
#[derive(Clone, Copy, Debug, PartialEq, Eq)]
pub struct RowRange {
    pub bits: u32,
    pub width: u32,
    pub height: u32,
    pub first: u32,
    pub end: u32,
}

// The mask of column x and row y.
#[tactic(auto, using(crate::specs::Laws::mask_small), unfolding(h265::specs::Checksum::xor_mask))]
fn xor_mask(x: u16, y: u16) -> u16
    ensures { (result ≡ xor_mask x y) × (result < 256) }
{
    (((x % 256) ^ (y % 256)) ^ (x / 256)) ^ (y / 256)
}

// What a sample adds to the sum: its low byte under the mask, and its high byte where it has one.
fn added_by(v: u16, mask: u16, wide: bool) -> u16
    requires { mask < 256 }
    ensures { (result ≡ sample_adds wide mask v) × (result ≤ 510) }
{
    let low = (v % 256) ^ mask;
    let high = (v / 256) ^ mask;
    if wide { low + high } else { low }
}

// What a stretch of a row adds, from column x on: 128 samples at most, so that 16 bits hold it.
#[tactic(auto, using(laws::specs::Sum::total_none, laws::specs::Sum::total_more))]
fn stretch_sum<S: Samples>(plane: S, at: usize, x: u16, count: u16, y: u16, wide: bool) -> u16
    requires { (at ≤ 4096 * 4096) × (at + (x + count) ≤ length (S.list plane)) × (x + count ≤ 4096) × (count ≤ 128) }
    ensures { (result ≡ total (λ (i : ℕ). column_adds wide (λ (k : ℕ). get_or (S.list plane) (at + k) 0) y (x + i)) count)
        × (result ≤ count * 510) }
{
    let from = at + (x as usize);
    // never so: it tells the compiler that no place in the loop is past the end
    if from + (count as usize) > plane.count() {
        return 0;
    }
    let mut sum = 0;
    for i in 0..count {
        let mask = xor_mask(x + i, y);
        let more = added_by(plane.sample(from + (i as usize)), mask, wide);
        sum += more;
    }
    sum
}

// What a row adds, stretch by stretch.
fn row_sum<S: Samples>(plane: S, at: usize, width: u32, y: u16, wide: bool) -> u32
    requires { (at ≤ 4096 * 4096) × (at + width ≤ length (S.list plane)) × (width ≤ 4096) }
    ensures { result ≡ total (column_adds wide (λ (x : ℕ). get_or (S.list plane) (at + x) 0) y) width }
{
    let mut sum = 0;
    for x in (0..width).step_by(128) {
        let count = (width - x).min(128);
        let more = stretch_sum(plane, at, x as u16, count as u16, y, wide);
        sum += more as u32;
    }
    sum
}

// The sum after the rows from first up to end. It wraps, as the standard says, once for each row.
fn rows_sum<S: Samples>(plane: S, r: RowRange, roomy: bool, sum: u32) -> u32
    requires { checksum_no r (roomy && S.exactly plane (r.height * r.width)) (S.list plane) ≡ 0 }
    ensures { result ≡ sum_of_rows r.bits (sample_in_plane (S.list plane) r.width) r.width r.first
        (r.end - r.first) sum }
{
    let wide = r.bits > 8;
    let across = r.width as usize;
    let mut sum = sum;
    for y in r.first..r.end {
        let more = row_sum(plane, (y as usize) * across, r.width, y as u16, wide);
        sum = sum.wrapping_add(more);
    }
    sum
}

// How many samples the plane has.
fn area(r: RowRange) -> usize
    ensures { result ≡ r.height * r.width }
{
    (r.height as usize) * (r.width as usize)
}

// Whether the rows run forward and stay in the plane.
fn is_inside(r: RowRange) -> bool
    ensures { result ≡ (nat_le r.first r.end && nat_le r.end r.height) }
{
    (r.first <= r.end) & (r.end <= r.height)
}

// Whether both sides are a plane's.
fn sides_ok(r: RowRange) -> bool
    ensures { result ≡ (plane_side_ok r.width && plane_side_ok r.height) }
{
    domain::plane_side_ok(r.width) & domain::plane_side_ok(r.height)
}

// Whether the rows can be summed: `fit` tells whether all that is lent is as long as it must be, `ok` whether each sample is in range.
#[tactic(auto, unfolding(crate::specs::Checksum::checksum_no_by))]
fn check_range(r: RowRange, fit: bool, ok: bool) -> Result<(), Refusal>
    ensures { no_of result ≡ checksum_no_by r fit ok }
{
    if !domain::depth_ok(r.bits) {
        return Err(Refusal::Depth);
    }
    if !sides_ok(r) {
        return Err(Refusal::Picture);
    }
    if !fit {
        return Err(Refusal::Buffer);
    }
    if !ok {
        return Err(Refusal::Sample);
    }
    if !is_inside(r) {
        return Err(Refusal::Start);
    }
    Ok(())
}

// The checksum of a range of rows of samples in either form. `roomy` tells whether the caller has room for the sum: where it has none
// the call is refused as its buffer is.
pub(crate) fn checksum_over<S: Samples>(
    plane: S,
    r: RowRange,
    roomy: bool,
    sum: u32,
) -> Result<u32, Refusal>
    ensures { answered result ≡ summed_by r (roomy && S.exactly plane (r.height * r.width)) (S.list plane) sum }
{
    let ok = lent::samples_ok(plane, depth::largest_of(r.bits));
    check_range(r, roomy & plane.exactly(area(r)), ok)?;
    Ok(rows_sum(plane, r, roomy, sum))
}

// The checksum of a range of a plane's rows, from the sum so far (document 02, Wish 7). Two calls split at a row give what one gives.
pub fn picture_checksum(plane: &[u16], r: RowRange, sum: u32) -> Result<u32, Refusal>
    ensures { answered result ≡ checksum_of r plane.now sum }
{
    checksum_over(plane, r, true, sum)
}
