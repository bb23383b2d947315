// A pair of planes of bytes, two a sample, the lower first, under a plan of bytes, for the entries that C calls. Rests on the count of a
// pair of lent samples.
ghost use Rattle.std.specs.Prelude.{◌≡◌};
ghost use Rattle.errors.specs.Errors.{count_bytes};
ghost use Rattle.errors.specs.Answers.{counted_of};

use crate::{Rejected, Report};

// Counts a pair of planes of bytes under a plan of bytes: how far b is from a.
pub fn count_bytes(r: Report, a: &[u8], b: &[u8], plan: &[u8]) -> Result<Report, Rejected>
    ensures { counted_of result ≡ count_bytes r a.now b.now plan.now }
{
    r.count_pair(a, b, plan)
}
