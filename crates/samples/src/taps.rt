// The arithmetic of one predicted sample: between two references, the mean of 2n samples, the edge filters of the pure modes and of
// DC. Rests on the laws, the standard's clip and the domain's tests. Each is a door of its own, so that a wrong number in one is
// found in seconds.
ghost use Rattle.std.specs.Prelude.{◌≡◌, ◌+◌, ◌-◌, ◌/◌, ◌%◌};
ghost use Rattle.samples.specs.taps.Taps.{interp_of, mean_of, edge_of, blended, cornered};

// Between two references: 32 - f parts of x and f of y. A fraction is below 32, so that taking it by 32 changes nothing.
#[tactic(auto, unfolding(crate::specs::taps::Taps::interp_of))]
pub fn interp(f: u32, x: u16, y: u16) -> u16
    ensures { result ≡ interp_of (f % 32) x y }
{
    let g = f % 32;
    (((32 - g) * (x as u32) + g * (y as u32) + 16) >> 5) as u16
}

// The mean of 2n samples by their sum, which planar and DC end with, and 0 where n is no side. Such a sum is below 2^22, so that
// neither the wrap nor the remainder changes anything.
#[tactic(auto, unfolding(crate::specs::taps::Taps::mean_of))]
pub fn mean(all: u32, n: usize) -> u16
    ensures { result ≡ mean_of n all }
{
    if !domain::size_ok(n) {
        return 0;
    }
    let side = n as u32;
    (all.wrapping_add(side) / (2 * side) % 65536) as u16
}

// Half of l less c, rounded down. It stands 32768 higher, so that no number is below 0.
fn raised_half(l: u16, c: u16) -> u32
    ensures { result ≡ (l + 65536 - c) / 2 }
{
    ((l as u32) + 65536 - (c as u32)) >> 1
}

// The edge filter of the pure modes: a and half of l less c, clipped.
pub fn edge(a: u16, l: u16, c: u16, max: u16) -> u16
    ensures { result ≡ edge_of max a l c }
{
    let raised = (a as u32) + raised_half(l, c);
    raised.saturating_sub(32768).min(max as u32) as u16
}

// The edge of DC: a neighbour and the value three to one, and at the corner both neighbours and the value twice.
pub fn blend(neighbour: u16, dc: u16) -> u16
    ensures { result ≡ blended neighbour dc }
{
    (((neighbour as u32) + 3 * (dc as u32) + 2) >> 2) as u16
}

pub fn corner(left: u16, above: u16, dc: u16) -> u16
    ensures { result ≡ cornered left above dc }
{
    (((left as u32) + 2 * (dc as u32) + (above as u32) + 2) >> 2) as u16
}
