// What the number of a cell is made of (H.265 6.5.2): interleaved bits and the CTUs in a row; and whether a place is in its picture.
// Rests on the standard's definitions alone.
ghost use Rattle.std.specs.Prelude.{◌≡◌, ◌&&◌, ◌<◌, ltb};
ghost use Rattle.h265.specs.Order.{interleaved};
ghost use Rattle.order.specs.cells.Spread.{spread};
ghost use Rattle.order.specs.cells.Row.{ctus_of};

// The last four bits of a number, each at twice its place.
fn spread_of(v: usize) -> usize
    ensures { (result ≡ spread 4 v) × (result < 256) }
{
    v % 2 + 4 * (v / 2 % 2) + 16 * (v / 4 % 2) + 64 * (v / 8 % 2)
}

// The last four bits of a row and of a column, interleaved.
pub(crate) fn interleave(y: usize, x: usize) -> usize
    ensures { result ≡ interleaved 4 x y }
{
    2 * spread_of(y) + spread_of(x)
}

// The CTUs in a row: the width over the CTU's side, rounded up. What is no CTU's side counts as 64.
pub(crate) fn ctus_of(width: u32, ctu: u32) -> usize
    ensures { result ≡ ctus_of width ctu }
{
    let w = width as usize;
    match ctu {
        16 => (w + 15) / 16,
        32 => (w + 31) / 32,
        _ => (w + 63) / 64,
    }
}

// Whether a place is in a picture.
pub(crate) fn inside(height: u32, width: u32, row: usize, col: usize) -> bool
    ensures { result ≡ (ltb row height && ltb col width) }
{
    (row < (height as usize)) & (col < (width as usize))
}
