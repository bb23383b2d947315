// One block of a luma still: where it lies, its prediction from a plane, its replay and its walk. What works on a block trusts its
// caller: the plan is good, and what is lent is long enough. Rests on the contracts of the gather, of the prediction and of a block's
// rows.
ghost use Rattle.std.specs.Prelude.{◌≡◌, ◌+◌, ◌*◌, ◌≤◌, length};
ghost use Rattle.laws.specs.Fill.{block};
ghost use Rattle.walk.specs.Lent.{tables, world};
ghost use Rattle.walk.specs.block.Predicted.{predicted_at};
ghost use Rattle.walk.specs.block.Ready.{Ready, Lies};
ghost use Rattle.walk.specs.block.Rebuilt.{rebuilt};
ghost use Rattle.walk.specs.block.Walked.{walked};
ghost use Rattle.walk.specs.block.Bridge.{geometry_of};

use crate::block_rows;
use crate::checks::Still;
use fmt::{LumaCol, LumaRow, depth};
use order::Picture;
use plan::tiling::Block;
use refs::LumaRefGeometry;

// A block as the gather takes it.
pub fn geometry(s: Still, b: Block) -> LumaRefGeometry
    ensures { result ≡ geometry_of s b }
{
    let picture = Picture {
        width: s.frame.width,
        height: s.frame.height,
        ctu: s.frame.ctu,
        unit: 4,
    };
    LumaRefGeometry {
        bits: s.bits,
        picture,
        block_row: LumaRow(b.row),
        block_col: LumaCol(b.col),
        n: b.side as usize,
    }
}

// A block's first sample in its plane.
pub fn base_of(s: Still, b: Block) -> usize
    ensures { result ≡ b.row * s.frame.width + b.col }
{
    (b.row as usize) * (s.frame.width as usize) + (b.col as usize)
}

// A block's prediction from a plane, in rows. Such a block's gather is never refused. The last three slices are scratch.
pub(crate) fn predict_block(
    s: Still,
    b: Block,
    plane: &[u16],
    pred: &mut [u16],
    refs: &mut [u16],
    indices: &mut [u32],
    fractions: &mut [u32],
)
    requires { Ready s b (length plane.now) (tables refs.old indices.old fractions.old) × (b.side * b.side
        ≤ length pred.old) }
    ensures { pred.new ≡ block (predicted_at s b plane.now) b.side pred.old }
{
    if let Ok(rows) = refs::get_reference_samples(plane, geometry(s, b)) {
        let _ = predict::predict_luma_tb_slices(
            b.mode as u8,
            rows,
            b.side as usize,
            s.bits,
            &mut *pred,
            &mut *refs,
            &mut *indices,
            &mut *fractions,
        );
    }
}

// Replay: a block's samples from its prediction and its residuals, which are in rows from `at` on. The last three slices are scratch.
pub(crate) fn rebuild_block(
    s: Still,
    b: Block,
    at: usize,
    residuals: &[i32],
    plane: &mut [u16],
    refs: &mut [u16],
    indices: &mut [u32],
    fractions: &mut [u32],
)
    requires { Ready s b (length plane.old) (tables refs.old indices.old fractions.old) × Lies b (length
        residuals.now) at }
    ensures { plane.new ≡ rebuilt s b at residuals.now plane.old }
{
    let mut pred = [0u16; 1024];
    predict_block(
        s,
        b,
        plane,
        &mut pred,
        &mut *refs,
        &mut *indices,
        &mut *fractions,
    );
    block_rows::rebuild_rows(
        &mut *plane,
        &pred,
        residuals,
        b.side as usize,
        base_of(s, b),
        s.frame.width as usize,
        at,
        depth::largest_of(s.bits),
    );
}

// Walk: stores a block's residuals, in rows from `at` on, and its samples from them. The last three slices are scratch.
pub(crate) fn walk_block(
    s: Still,
    b: Block,
    at: usize,
    source: &[u16],
    work: &mut [u16],
    residuals: &mut [i32],
    refs: &mut [u16],
    indices: &mut [u32],
    fractions: &mut [u32],
)
    requires { Ready s b (length work.old) (tables refs.old indices.old fractions.old) × (Lies b (length
        residuals.old) at × (length source.now ≡ length work.old)) }
    ensures { world work.new residuals.new ≡ walked s source.now b at (world
        work.old residuals.old) }
{
    let mut pred = [0u16; 1024];
    predict_block(
        s,
        b,
        work,
        &mut pred,
        &mut *refs,
        &mut *indices,
        &mut *fractions,
    );
    block_rows::walk_rows(
        &mut *work,
        &mut *residuals,
        source,
        &pred,
        b.side as usize,
        base_of(s, b),
        s.frame.width as usize,
        at,
        depth::largest_of(s.bits),
    );
}
