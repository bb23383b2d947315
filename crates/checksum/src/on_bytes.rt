// The checksum over a plane's bytes, two a sample, the lower first, for the entries that C calls. Rests on the sum over samples in
// either form.
ghost use Rattle.std.specs.Prelude.{◌≡◌};
ghost use Rattle.checksum.specs.Answers.{answered};
ghost use Rattle.checksum.specs.Checksum.{checksum_on_bytes};

use crate::RowRange;
use domain::refusal::Refusal;

// The checksum of a range of rows of a plane's bytes, from the sum so far. `roomy` tells whether the caller has room for the sum: where it
// has none the call is refused as its buffer is.
pub fn picture_checksum_bytes(
    plane: &[u8],
    r: RowRange,
    sum: u32,
    roomy: bool,
) -> Result<u32, Refusal>
    ensures { answered result ≡ checksum_on_bytes r roomy plane.now sum }
{
    crate::checksum_over(plane, r, roomy, sum)
}
