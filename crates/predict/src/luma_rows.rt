// The rows that a luma block is predicted from, H.265 8.4.4.2.1: smoothed where the rule says so, and as they are where it does not.
// Rests on the doors of rule and smoothing, which serve it: the door above has found the number.
ghost use Rattle.std.specs.Prelude.{◌≡◌};
ghost use Rattle.predict.specs.by_mode.Door.{Predictable};
ghost use Rattle.predict.specs.luma_rows.LumaRows.{prepared_rows};

use domain::rows;

pub(crate) fn prepared_rows(mode: u8, rows: rows::Rows, n: usize, bits: u32) -> rows::Rows
    requires { Predictable bits n mode }
    ensures { result ≡ prepared_rows bits n mode rows }
{
    if smooth::should_filter_refs(mode, n).unwrap_or(false) {
        let above = rows.above;
        let left = rows.left;
        if let Ok(smoothed) = smooth::filter_luma_refs(rows.corner, &above, &left, n, bits) {
            return smoothed;
        }
    }
    rows
}
