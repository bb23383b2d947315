// The arithmetic of one smoothed reference, H.265 8.4.4.2.3, and the two tests that choose how references are smoothed. Rests on
// the standard's clause, the depths and the domain's tests. Each is a door of its own, so that a wrong number in one is found in
// seconds.
ghost use Rattle.std.specs.Prelude.{◌≡◌, ◌+◌, ◌*◌, ◌/◌, ◌%◌, ◌≤◌, ◌&&◌};
ghost use Rattle.h265.specs.Filtering.{min_dist_ver_hor, dist_threshold, filter_flag, straight, strong_at};
ghost use Rattle.domain.specs.Domain.{depth_ok};

use fmt::depth;

// The distance of a mode from pure vertical and pure horizontal.
fn distance(mode: u8) -> u32
    ensures { result ≡ min_dist_ver_hor mode }
{
    let mode = mode as u32;
    mode.abs_diff(26).min(mode.abs_diff(10))
}

fn threshold(n: usize) -> u32
    ensures { result ≡ dist_threshold n }
{
    match n {
        8 => 7,
        16 => 1,
        _ => 0,
    }
}

// Whether the references of a block of side n are smoothed for a mode.
#[tactic(auto, unfolding(h265::specs::Filtering::filter_flag))]
pub fn smooths(mode: u8, n: usize) -> bool
    ensures { result ≡ filter_flag n mode }
{
    let near = (mode == 1) | (n == 4);
    !near & (threshold(n) < distance(mode))
}

// One sample in the [1 2 1] form.
pub fn tap(before: u16, own: u16, after: u16) -> u16
    ensures { result ≡ (after + 2 * own + before + 2) / 4 }
{
    (((after as u32) + 2 * (own as u32) + (before as u32) + 2) / 4) as u16
}

// Two weighted samples; with 64 shares in all the sum is bounded.
fn mix(a: u32, x: u16, b: u32, y: u16) -> u32
    requires { a + b ≤ 64 }
    ensures { (result ≡ a * x + b * y) × (result ≤ (a + b) * 65535) }
{
    a * (x as u32) + b * (y as u32)
}

// One sample in the strong form, on the straight line from the corner to the far end. A row has entries below 64, so that taking x
// by 64 changes nothing.
#[tactic(auto, using(crate::specs::filters::Filters::ramp_is))]
pub fn ramp(x: u32, corner: u16, far: u16) -> u16
    ensures { result ≡ strong_at corner far (x % 64) }
{
    let y = x % 64;
    ((mix(63 - y, corner, y + 1, far) + 32) / 64) as u16
}

// Whether a row is nearly straight, by its corner, entry 31 and entry 63; at no depth but the three.
#[tactic(auto, using(crate::specs::filters::Filters::straight_is))]
pub fn is_straight(bits: u32, corner: u16, mid: u16, far: u16) -> bool
    ensures { result ≡ (depth_ok bits && straight bits corner mid far) }
{
    // 2^(bits-5), and 0 where there is no such depth
    let limit = ((depth::largest_of(bits) as u32) + 1) / 32;
    let ends = (corner as u32) + (far as u32);
    ends.abs_diff(2 * (mid as u32)) < limit
}
