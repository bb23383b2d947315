// A block's prediction in any mode, H.265 8.4.4.2.1: chroma from its references as they are, luma from references that are
// smoothed by the rule. Rests on the choice by mode and on the rows that it is given.
#![tactic(auto)]

mod angles;
pub mod angular;
mod boundary;
mod by_mode;
mod luma_rows;
pub mod planar_dc;
mod refusals;
pub mod scratch;
pub mod scratch_angular;
pub mod scratch_predict;

ghost use Rattle.std.specs.Prelude.{◌≡◌};
ghost use Rattle.h265.specs.Setting.{luma_at, first_edition_strong};
ghost use Rattle.h265.specs.Prediction.{pred_samples};
ghost use Rattle.domain.specs.Refusal.{no_of};
ghost use Rattle.domain.specs.rows.Neighbours.{neighbours_of};
ghost use Rattle.predict.specs.refusals.Refusals.{predict_no};
ghost use Rattle.predict.specs.Contents.{chroma_at};
ghost use Rattle.predict.specs.Lent.{len, mut_len, with_tables, lent_neighbours, Predicts, Untouched};

use crate::refusals::Lent;
use domain::refusal::Refusal;
use domain::rows;

// A chroma block: nothing is smoothed, and no edge is filtered. The last three slices are scratch.
#[tactic(auto, using(crate::specs::by_mode::Door::given_lent))]
pub fn predict_chroma_tb_slices(
    mode: u8,
    corner: u16,
    above: &[u16],
    left: &[u16],
    n: usize,
    bits: u32,
    pred: &mut [u16],
    refs: &mut [u16],
    indices: &mut [u32],
    fractions: &mut [u32],
) -> Result<(), Refusal>
    ensures { (no_of result ≡ predict_no bits n mode (with_tables (len above) (len left) (mut_len pred) refs indices fractions))
        × (Predicts (no_of result) n (pred_samples (chroma_at bits) first_edition_strong n mode (lent_neighbours corner above left)) pred
        × ((no_of result ≡ 0 → ⊥) → Untouched refs indices fractions)) }
{
    let lent = Lent::of(above, left, &*pred, &*refs, &*indices, &*fractions);
    refusals::check_predict(bits, n, mode, lent)?;
    by_mode::by_mode(
        mode, corner, above, left, n, bits, false, &mut *pred, &mut *refs,
    );
    Ok(())
}

// A luma block: references smoothed by the rule, edges filtered. The last three slices are scratch.
pub fn predict_luma_tb_slices(
    mode: u8,
    rows: rows::Rows,
    n: usize,
    bits: u32,
    pred: &mut [u16],
    refs: &mut [u16],
    indices: &mut [u32],
    fractions: &mut [u32],
) -> Result<(), Refusal>
    ensures { (no_of result ≡ predict_no bits n mode (with_tables 65 65 (mut_len pred) refs indices fractions))
        × (Predicts (no_of result) n (pred_samples (luma_at bits) first_edition_strong n mode (neighbours_of rows)) pred
        × ((no_of result ≡ 0 → ⊥) → Untouched refs indices fractions)) }
{
    let lent = Lent {
        above: 65,
        left: 65,
        pred: pred.len(),
        refs: refs.len(),
        indices: indices.len(),
        fractions: fractions.len(),
    };
    refusals::check_predict(bits, n, mode, lent)?;
    let used = luma_rows::prepared_rows(mode, rows, n, bits);
    let above = used.above;
    let left = used.left;
    by_mode::by_mode(
        mode,
        used.corner,
        &above,
        &left,
        n,
        bits,
        true,
        &mut *pred,
        &mut *refs,
    );
    Ok(())
}
