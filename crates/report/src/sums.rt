// What the program tells of the residuals and of the replayed plane: sums of absolute residuals, and whether two planes agree.
// Rests on the helpers' absolute value.
ghost use Rattle.std.specs.Prelude.{◌≡◌, ◌≤◌, length, nat_abs, sum_by};
ghost use Rattle.report.specs.sums.Sums.{agree};

use domain::helpers;

// The sum of a block's absolute residuals.
pub(crate) fn sum_of(residuals: &[i32]) -> u64
    requires { length residuals.now ≤ 1024 }
    ensures { result ≡ sum_by nat_abs residuals.now }
{
    residuals.iter().map(|r| u64::from(helpers::abs(*r))).sum()
}

// Whether two planes of one length are the same.
pub(crate) fn agrees(a: &[u16], b: &[u16]) -> bool
    requires { length a.now ≡ length b.now }
    ensures { result ≡ agree a.now b.now (length b.now) }
{
    a == b
}
