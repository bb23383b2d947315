// What refuses the next block of a plan (document 01, 'Plan, walk, replay'): its size, its mode, its place, and whether it is next.
// Rests on tiling's definitions, on the domain's tests and on the count of next_cell.
ghost use Rattle.std.specs.Prelude.{◌≡◌, ◌&&◌, ◌%◌, eqb};
ghost use Rattle.domain.specs.Facts.{Size};
ghost use Rattle.domain.specs.Refusal.{no_of};
ghost use Rattle.order.specs.Good.{Good};
ghost use Rattle.plan.specs.tiling.Tiling.{picture_of};
ghost use Rattle.plan.specs.tiling.Check.{placed_ok, block_number};

use crate::next_cell;
use crate::tiling::{Block, Frame};
use domain::refusal::Refusal;

// Whether a place is at a multiple of a block's side, down and across.
fn aligned(row: usize, col: usize, n: usize) -> bool
    requires { Size n }
    ensures { result ≡ (eqb (row % n) 0 && eqb (col % n) 0) }
{
    match n {
        4 => (row % 4 == 0) & (col % 4 == 0),
        8 => (row % 8 == 0) & (col % 8 == 0),
        16 => (row % 16 == 0) & (col % 16 == 0),
        _ => (row % 32 == 0) & (col % 32 == 0),
    }
}

// Number 6: whether a block's place is not refused.
fn placed_ok(f: Frame, b: Block) -> bool
    requires { Size b.side }
    ensures { result ≡ placed_ok f b }
{
    let n = b.side as usize;
    let row = b.row as usize;
    let col = b.col as usize;
    let at = aligned(row, col, n);
    at & (row + n <= (f.height as usize)) & (col + n <= (f.width as usize)) & (b.side <= f.ctu)
}

// Numbers 2, 3, 6, 9: whether the next block of a good picture's plan is not refused. So many samples are covered before it.
pub(crate) fn check_block(f: Frame, b: Block, covered: usize) -> Result<(), Refusal>
    requires { Good (picture_of f) }
    ensures { no_of result ≡ block_number f b covered }
{
    if !domain::size_ok(b.side as usize) {
        return Err(Refusal::Size);
    }
    if !domain::mode_ok(b.mode) {
        return Err(Refusal::Mode);
    }
    if !placed_ok(f, b) {
        return Err(Refusal::Place);
    }
    if !next_cell::is_next(f, b.row as usize, b.col as usize, covered) {
        return Err(Refusal::Order);
    }
    Ok(())
}
