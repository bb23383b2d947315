// The rows of one block. Replay: its samples, the prediction plus the residuals. Walk: its residuals, the source less the prediction,
// and the samples that they give back. Of no picture. Rests on the arithmetic of one residual.
ghost use Rattle.std.specs.Prelude.{◌≡◌, ℕ, ◌+◌, ◌*◌, length, get_or, pos, ◌+ℤ◌};
ghost use Rattle.laws.specs.Fill.{run};
ghost use Rattle.laws.specs.Paint.{paint};
ghost use Rattle.h265.specs.Notation.{clip_to};
ghost use Rattle.walk.specs.block_rows.Rows.{less_at, back_at_block, less_rows, back_rows};
ghost use Rattle.walk.specs.block_rows.Ready.{RowIn, RowsIn};

use samples::deltas;

// A row of the replay: n samples from base on, its predictions from `from` on, its residuals from `at` on.
#[tactic(auto, using(crate::specs::block_rows::Laws::storing))]
fn rebuild_row(
    plane: &mut [u16],
    pred: &[u16],
    residuals: &[i32],
    n: usize,
    base: usize,
    from: usize,
    at: usize,
    largest: u16,
)
    requires { RowIn (length plane.old) (length pred.now) (length residuals.now) n base from at }
    ensures { plane.new ≡ run (λ (c : ℕ). clip_to largest (pos (get_or pred.now (from + c) 0)
        +ℤ get_or residuals.now (at + c) (pos 0))) base n plane.old }
{
    for c in 0..n {
        plane[base + c] = deltas::restored(pred[from + c], residuals[at + c], largest);
    }
}

// Replay: all rows of a block.
pub(crate) fn rebuild_rows(
    plane: &mut [u16],
    pred: &[u16],
    residuals: &[i32],
    n: usize,
    base: usize,
    width: usize,
    at: usize,
    largest: u16,
)
    requires { RowsIn (length plane.old) (length pred.now) (length residuals.now) n base width at }
    ensures { plane.new ≡ paint base width n (λ (r c : ℕ). clip_to largest (pos (get_or pred.entry.now (r * n + c) 0) +ℤ get_or residuals.now (at + r * n + c) (pos 0))) n plane.old }
{
    for r in 0..n {
        rebuild_row(
            plane,
            pred,
            residuals,
            n,
            base + r * width,
            r * n,
            at + r * n,
            largest,
        );
    }
}

// A row of the walk: residuals stored from `at` on, samples restored from base on.
#[tactic(auto, using(crate::specs::block_rows::Laws::storing))]
fn walk_row(
    work: &mut [u16],
    residuals: &mut [i32],
    source: &[u16],
    pred: &[u16],
    n: usize,
    base: usize,
    from: usize,
    at: usize,
    largest: u16,
)
    requires { RowIn (length work.old) (length pred.now) (length residuals.old) n base from at × (length source.now ≡ length work.old) }
    ensures { (residuals.new ≡ run (λ (c : ℕ). less_at source.now pred.now (base +
        c) (from + c)) at n residuals.old) × (work.new ≡ run (λ (c : ℕ). back_at_block largest source.now pred.now (base + c) (from + c)) base n work.old) }
{
    for c in 0..n {
        let p = pred[from + c];
        let d = deltas::less(source[base + c], p);
        residuals[at + c] = d;
        work[base + c] = deltas::restored(p, d, largest);
    }
}

// Walk: a block's residuals, in rows from `at` on, and its samples from them, in rows `width` apart from base on.
pub(crate) fn walk_rows(
    work: &mut [u16],
    residuals: &mut [i32],
    source: &[u16],
    pred: &[u16],
    n: usize,
    base: usize,
    width: usize,
    at: usize,
    largest: u16,
)
    requires { RowsIn (length work.old) (length pred.now) (length residuals.old) n base width at × (length
        source.now ≡ length work.old) }
    ensures { (residuals.new ≡ less_rows source.now pred.now n base width at residuals.old) × (work.new ≡ back_rows largest source.now pred.now n base
        width work.old) }
{
    for r in 0..n {
        walk_row(
            work,
            residuals,
            source,
            pred,
            n,
            base + r * width,
            r * n,
            at + r * n,
            largest,
        );
    }
}
