// A block of either kind in any mode with the scratch struct, lent by `&mut`: each entry takes its three tables apart and calls
// the form over slices. Rests on those forms. A call that makes its own scratch stands beside each entry.
ghost use Rattle.std.specs.Prelude.{◌≡◌};
ghost use Rattle.h265.specs.Setting.{luma_at, first_edition_strong};
ghost use Rattle.h265.specs.Prediction.{pred_samples};
ghost use Rattle.domain.specs.rows.Neighbours.{neighbours_of};
ghost use Rattle.domain.specs.Refusal.{no_of};
ghost use Rattle.predict.specs.refusals.Refusals.{predict_no};
ghost use Rattle.predict.specs.Contents.{chroma_at};
ghost use Rattle.predict.specs.Lent.{len, mut_len, with_scratch, lent_neighbours, Predicts};

use crate::scratch::AngularScratch;
use domain::refusal::Refusal;
use domain::rows;

// A chroma block in any mode.
pub fn predict_chroma_tb_into(
    mode: u8,
    corner: u16,
    above: &[u16],
    left: &[u16],
    n: usize,
    bits: u32,
    pred: &mut [u16],
    scratch: &mut AngularScratch,
) -> Result<(), Refusal>
    ensures { (no_of result ≡ predict_no bits n mode (with_scratch (len above) (len left) (mut_len pred)))
        × (Predicts (no_of result) n (pred_samples (chroma_at bits) first_edition_strong n mode (lent_neighbours corner above left)) pred
        × ((no_of result ≡ 0 → ⊥) → scratch.new ≡ scratch.old)) }
{
    crate::predict_chroma_tb_slices(
        mode,
        corner,
        above,
        left,
        n,
        bits,
        pred,
        &mut scratch.refs,
        &mut scratch.indices,
        &mut scratch.fractions,
    )
}

// A luma block in any mode, from its rows.
pub fn predict_luma_tb_into(
    mode: u8,
    rows: rows::Rows,
    n: usize,
    bits: u32,
    pred: &mut [u16],
    scratch: &mut AngularScratch,
) -> Result<(), Refusal>
    ensures { (no_of result ≡ predict_no bits n mode (with_scratch 65 65 (mut_len pred)))
        × (Predicts (no_of result) n (pred_samples (luma_at bits) first_edition_strong n mode (neighbours_of rows)) pred
        × ((no_of result ≡ 0 → ⊥) → scratch.new ≡ scratch.old)) }
{
    crate::predict_luma_tb_slices(
        mode,
        rows,
        n,
        bits,
        pred,
        &mut scratch.refs,
        &mut scratch.indices,
        &mut scratch.fractions,
    )
}

// A chroma block with a scratch of its own.
pub fn predict_chroma_tb_fresh(
    mode: u8,
    corner: u16,
    above: &[u16],
    left: &[u16],
    n: usize,
    bits: u32,
    pred: &mut [u16],
) -> Result<(), Refusal>
    ensures { (no_of result ≡ predict_no bits n mode (with_scratch (len above) (len left) (mut_len pred)))
        × Predicts (no_of result) n (pred_samples (chroma_at bits) first_edition_strong n mode (lent_neighbours corner above left)) pred }
{
    let mut scratch = AngularScratch::new();
    predict_chroma_tb_into(mode, corner, above, left, n, bits, pred, &mut scratch)
}

// A luma block with a scratch of its own.
pub fn predict_luma_tb_fresh(
    mode: u8,
    rows: rows::Rows,
    n: usize,
    bits: u32,
    pred: &mut [u16],
) -> Result<(), Refusal>
    ensures { (no_of result ≡ predict_no bits n mode (with_scratch 65 65 (mut_len pred)))
        × Predicts (no_of result) n (pred_samples (luma_at bits) first_edition_strong n mode (neighbours_of rows)) pred }
{
    let mut scratch = AngularScratch::new();
    predict_luma_tb_into(mode, rows, n, bits, pred, &mut scratch)
}
