// The picture checksum for C: the sum of rows of a plane's bytes, stored as four bytes (document 02, Wish 7). Rests on the contract of the
// checksum on bytes.
ghost use Rattle.std.specs.Prelude.{◌≡◌};
ghost use Rattle.domain.specs.Refusal.{no_of};
ghost use Rattle.camera.specs.Written.{wrote};
ghost use Rattle.camera.specs.sums.Entry.{checksum_entry};

use crate::replay;
use checksum::{RowRange, on_bytes};
use domain::refusal::Refusal;

// Sums up the rows of the range, and stores the sum.
#[tactic(auto, unfolding(crate::specs::sums::Entry::checksum_entry, crate::specs::Written::entry), using(domain::specs::Refused::never_0))]
pub(crate) fn store_checksum(
    plane: &[u8],
    r: RowRange,
    sum: u32,
    out: &mut [u8],
) -> Result<(), Refusal>
    ensures { wrote (no_of result) out.new ≡ checksum_entry r sum plane.now out.old }
{
    let told = on_bytes::picture_checksum_bytes(plane, r, sum, out.len() >= 4)?;
    replay::put_word(out, 0, told);
    Ok(())
}
