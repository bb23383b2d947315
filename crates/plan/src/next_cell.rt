// Number 9 of document 01: whether a block starts at the next uncovered cell, by a count of the samples that lie before it in decode order.
// Rests on the count's definition and laws, in tiling.
ghost use Rattle.std.specs.Prelude.{◌≡◌, min, ◌-◌, ◌*◌, ◌%◌, ◌^◌, ◌≤◌, ◌<◌, eqb};
ghost use Rattle.h265.specs.Notation.{log2};
ghost use Rattle.domain.specs.Facts.{Ctu};
ghost use Rattle.order.specs.Good.{Good};
ghost use Rattle.plan.specs.tiling.Tiling.{picture_of, In};
ghost use Rattle.plan.specs.tiling.Check.{ahead_by, ahead};

use crate::tiling::Frame;
use domain::helpers;

// The cells of a strip s wide and a long, as far as there are b along it.
fn strip(s: usize, a: usize, b: usize) -> usize
    requires { (s ≤ 16) × (a ≤ 32) }
    ensures { (result ≡ s * min a b) × (result ≤ 512) }
{
    s * helpers::min_len(a, b)
}

fn bit(v: usize, k: usize) -> usize
    requires { k ≤ 512 }
    ensures { (result ≡ v % 2 * k) × (result ≤ 512) }
{
    (v % 2) * k
}

// The cells of a picture of h by w cells that come before the cell (row, col), m halvings below the CTU.
fn cells_ahead(h: usize, w: usize, m: u32, row: usize, col: usize) -> usize
    requires { (h ≤ 1024) × (w ≤ 1024) × (m ≤ 4) × (row < h) × (col < w) × (ahead_by h w m 1 row col < 2 ^ 32) }
    ensures { result ≡ ahead_by h w m 1 row col }
{
    let mut y = row;
    let mut x = col;
    let mut s: usize = 1;
    let mut z: usize = 0;
    for _ in 0..m {
        z += bit(x, strip(s, s, h - y * s)) + bit(y, strip(s, 2 * s, w - (x / 2) * (2 * s)));
        y /= 2;
        x /= 2;
        s = 2 * s;
    }
    z + (y * s * w + x * strip(s, s, h - y * s))
}

// Halvings from a CTU to a cell.
fn levels_of(ctu: u32) -> u32
    requires { Ctu ctu }
    ensures { result ≡ log2 ctu - 2 }
{
    match ctu {
        16 => 2,
        32 => 3,
        _ => 4,
    }
}

// Number 9: whether a place of a good picture has as many samples ahead of it as are covered.
pub(crate) fn is_next(f: Frame, row: usize, col: usize, covered: usize) -> bool
    requires { Good (picture_of f) × In f row col }
    ensures { result ≡ eqb (ahead f row col) covered }
{
    let m = levels_of(f.ctu);
    let h = (f.height as usize) / 4;
    let w = (f.width as usize) / 4;
    16 * cells_ahead(h, w, m, row / 4, col / 4) == covered
}
