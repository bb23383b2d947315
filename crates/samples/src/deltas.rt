// The arithmetic of one residual: the difference of two samples, its sum with a prediction, and its range. Rests on the standard's
// clip and the helpers. Each is a door of its own, so that a wrong number in one is found in seconds.
ghost use Rattle.std.specs.Prelude.{◌≡◌, pos, ◌+ℤ◌, ◌-ℤ◌};
ghost use Rattle.h265.specs.Notation.{clip_to};
ghost use Rattle.samples.specs.deltas.Deltas.{residual_ok, residual_within};
ghost use Rattle.samples.specs.deltas.Raised.{raise};

use domain::helpers;

// A residual: the original less the prediction.
pub fn less(o: u16, p: u16) -> i32
    ensures { result ≡ pos o -ℤ pos p }
{
    (o as i32) - (p as i32)
}

// Prediction plus residual, clamped. Of a residual above 65535 the sum with 65535 is clamped the same, and fits.
pub fn restored(p: u16, r: i32, largest: u16) -> u16
    ensures { result ≡ clip_to largest (pos p +ℤ r) }
{
    helpers::clamp((p as i32) + r.min(65535), largest)
}

// A number raised by 2^31, after which it is not below 0.
pub fn raised(r: i32) -> u32
    ensures { result ≡ raise r }
{
    r.cast_unsigned().wrapping_add(2147483648)
}

// Whether a residual's size is at most a limit, of any i32: a sum that wraps and one test, so that many are tested at once.
#[tactic(auto, using(crate::specs::deltas::Raised::within_is))]
pub fn residual_within(r: i32, limit: u16) -> bool
    ensures { result ≡ residual_within limit r }
{
    let most = limit as u32;
    raised(r).wrapping_add(2147483648 + most) <= 2 * most
}

// Number 8: whether a residual is in its range.
pub fn residual_ok(r: i32) -> bool
    ensures { result ≡ residual_ok r }
{
    residual_within(r, 65535)
}
