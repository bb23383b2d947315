// Entries at native types for the runs of prediction, choice, residual and reconstruction against the Rust: each calls a door.
// Rests on the doors' contracts.
ghost use Rattle.std.specs.Prelude.{◌≡◌, length};
ghost use Rattle.h265.specs.Planar.{planar};
ghost use Rattle.h265.specs.Dc.{dc};
ghost use Rattle.h265.specs.Angular.{angular};
ghost use Rattle.predict.specs.refusals.Refusals.{flat_no, angular_no, predict_no};
ghost use Rattle.residual.specs.Residual.{residual_no, residuals_after, reconstruct_no, reconstructed};
ghost use Rattle.h265.specs.Setting.{luma_at, first_edition_strong};
ghost use Rattle.h265.specs.Prediction.{pred_samples};
ghost use Rattle.predict.specs.Contents.{chroma_at};
ghost use Rattle.predict.specs.Lent.{len, mut_len, with_tables, with_scratch, lent_neighbours, Predicts, Untouched};
ghost use Rattle.choose.specs.Choose.{mode_sum, choose_no, Chooses, lends, ScratchKept};
ghost use Rattle.probes.specs.Probes.{chosen_of, choice_of};

use choose::Best;
use domain::refusal::{Refusal, no_of};
use domain::rows::Rows;
use predict::{angular, planar_dc, scratch_angular, scratch_predict};

#[unsafe(no_mangle)]
pub extern "C" fn salvrunde_probe_predict_planar_into(
    above: &[u16],
    left: &[u16],
    n: usize,
    pred: &mut [u16],
) -> u32
    ensures { (result ≡ flat_no n (len above) (len left) (mut_len pred))
        × Predicts result n (planar n (lent_neighbours 0 above left)) pred }
{
    no_of(planar_dc::predict_planar_into(above, left, n, &mut *pred))
}

#[unsafe(no_mangle)]
pub extern "C" fn salvrunde_probe_predict_dc_into(
    above: &[u16],
    left: &[u16],
    n: usize,
    filter_boundary: bool,
    pred: &mut [u16],
) -> u32
    ensures { (result ≡ flat_no n (len above) (len left) (mut_len pred))
        × Predicts result n (dc filter_boundary n (lent_neighbours 0 above left)) pred }
{
    no_of(planar_dc::predict_dc_into(above, left, n, filter_boundary, &mut *pred))
}

#[unsafe(no_mangle)]
pub extern "C" fn salvrunde_probe_predict_angular_slices(
    corner: u16,
    above: &[u16],
    left: &[u16],
    n: usize,
    mode: u8,
    filter_boundary: bool,
    bits: u32,
    pred: &mut [u16],
    refs: &mut [u16],
    indices: &mut [u32],
    fractions: &mut [u32],
) -> u32
    ensures { (result ≡ angular_no bits n mode (with_tables (len above) (len left) (mut_len pred) refs indices fractions))
        × (Predicts result n (angular bits filter_boundary n mode (lent_neighbours corner above left)) pred
        × ((result ≡ 0 → ⊥) → Untouched refs indices fractions)) }
{
    no_of(angular::predict_angular_slices(
        corner,
        above,
        left,
        n,
        mode,
        filter_boundary,
        bits,
        &mut *pred,
        &mut *refs,
        &mut *indices,
        &mut *fractions,
    ))
}

#[unsafe(no_mangle)]
pub extern "C" fn salvrunde_probe_compute_residual_i32_into(
    orig: &[u16],
    pred: &[u16],
    n: usize,
    residual: &mut [i32],
) -> u32
    ensures { (result ≡ residual_no n (len orig) (len pred) (length residual.old))
        × (residual.new ≡ residuals_after n orig.now pred.now residual.old) }
{
    no_of(residual::compute_residual_i32_into(orig, pred, n, &mut *residual))
}

#[unsafe(no_mangle)]
pub extern "C" fn salvrunde_probe_reconstruct_into(
    pred: &[u16],
    residual: &[i32],
    n: usize,
    bits: u32,
    out: &mut [u16],
) -> u32
    ensures { (result ≡ reconstruct_no bits n (len pred) residual.now (mut_len out))
        × (out.new ≡ reconstructed bits n pred.now residual.now out.old) }
{
    no_of(residual::reconstruct_into(pred, residual, n, bits, &mut *out))
}

#[unsafe(no_mangle)]
pub extern "C" fn salvrunde_probe_predict_chroma_tb_slices(
    mode: u8,
    corner: u16,
    above: &[u16],
    left: &[u16],
    n: usize,
    bits: u32,
    pred: &mut [u16],
    refs: &mut [u16],
    indices: &mut [u32],
    fractions: &mut [u32],
) -> u32
    ensures { (result ≡ predict_no bits n mode (with_tables (len above) (len left) (mut_len pred) refs indices fractions))
        × (Predicts result n (pred_samples (chroma_at bits) first_edition_strong n mode (lent_neighbours corner above left)) pred
        × ((result ≡ 0 → ⊥) → Untouched refs indices fractions)) }
{
    no_of(predict::predict_chroma_tb_slices(
        mode,
        corner,
        above,
        left,
        n,
        bits,
        &mut *pred,
        &mut *refs,
        &mut *indices,
        &mut *fractions,
    ))
}

#[unsafe(no_mangle)]
pub extern "C" fn salvrunde_probe_predict_luma_tb_slices(
    mode: u8,
    corner: u16,
    above: &[u16; 65],
    left: &[u16; 65],
    n: usize,
    bits: u32,
    pred: &mut [u16],
    refs: &mut [u16],
    indices: &mut [u32],
    fractions: &mut [u32],
) -> u32
    ensures { (result ≡ predict_no bits n mode (with_tables 65 65 (mut_len pred) refs indices fractions))
        × (Predicts result n (pred_samples (luma_at bits) first_edition_strong n mode (lent_neighbours corner above left)) pred
        × ((result ≡ 0 → ⊥) → Untouched refs indices fractions)) }
{
    let rows = Rows {
        corner,
        above: *above,
        left: *left,
    };
    no_of(predict::predict_luma_tb_slices(
        mode,
        rows,
        n,
        bits,
        &mut *pred,
        &mut *refs,
        &mut *indices,
        &mut *fractions,
    ))
}

// The same three through the struct of the scratch's tables, which each makes for itself.
#[unsafe(no_mangle)]
pub extern "C" fn salvrunde_probe_predict_angular_scratch(
    corner: u16,
    above: &[u16],
    left: &[u16],
    n: usize,
    mode: u8,
    filter_boundary: bool,
    bits: u32,
    pred: &mut [u16],
) -> u32
    ensures { (result ≡ angular_no bits n mode (with_scratch (len above) (len left) (mut_len pred)))
        × Predicts result n (angular bits filter_boundary n mode (lent_neighbours corner above left)) pred }
{
    no_of(scratch_angular::predict_angular_fresh(
        corner,
        above,
        left,
        n,
        mode,
        filter_boundary,
        bits,
        &mut *pred,
    ))
}

#[unsafe(no_mangle)]
pub extern "C" fn salvrunde_probe_predict_chroma_tb_scratch(
    mode: u8,
    corner: u16,
    above: &[u16],
    left: &[u16],
    n: usize,
    bits: u32,
    pred: &mut [u16],
) -> u32
    ensures { (result ≡ predict_no bits n mode (with_scratch (len above) (len left) (mut_len pred)))
        × Predicts result n (pred_samples (chroma_at bits) first_edition_strong n mode (lent_neighbours corner above left)) pred }
{
    no_of(scratch_predict::predict_chroma_tb_fresh(mode, corner, above, left, n, bits, &mut *pred))
}

#[unsafe(no_mangle)]
pub extern "C" fn salvrunde_probe_predict_luma_tb_scratch(
    mode: u8,
    corner: u16,
    above: &[u16; 65],
    left: &[u16; 65],
    n: usize,
    bits: u32,
    pred: &mut [u16],
) -> u32
    ensures { (result ≡ predict_no bits n mode (with_scratch 65 65 (mut_len pred)))
        × Predicts result n (pred_samples (luma_at bits) first_edition_strong n mode (lent_neighbours corner above left)) pred }
{
    let rows = Rows {
        corner,
        above: *above,
        left: *left,
    };
    no_of(scratch_predict::predict_luma_tb_fresh(mode, rows, n, bits, &mut *pred))
}

// A chosen mode and its sum, both 0 where the call is refused.
#[repr(C)]
#[derive(Clone, Copy)]
pub struct Choice {
    pub no: u32,
    pub mode: u32,
    pub sum: u32,
}

// A choice, as it is handed over.
fn handed_over(answer: Result<Best, Refusal>) -> Choice
    ensures { result ≡ choice_of answer }
{
    match answer {
        Ok(best) => Choice {
            no: 0,
            mode: best.mode as u32,
            sum: best.sum,
        },
        Err(why) => Choice {
            no: why.number(),
            mode: 0,
            sum: 0,
        },
    }
}

#[unsafe(no_mangle)]
pub extern "C" fn salvrunde_probe_choose_mode(
    corner: u16,
    above: &[u16],
    left: &[u16],
    source: &[u16],
    n: usize,
    bits: u32,
    pred: &mut [u16],
    refs: &mut [u16],
    indices: &mut [u32],
    fractions: &mut [u32],
) -> Choice
    ensures { Chooses (choose_no bits n source.now (lends above left pred refs indices fractions))
        (mode_sum bits n (lent_neighbours corner above left) source.now) (chosen_of result)
        × ((result.no ≡ 0 → ⊥) → ScratchKept pred refs indices fractions) }
{
    handed_over(choose::choose_mode(
        corner,
        above,
        left,
        source,
        n,
        bits,
        &mut *pred,
        &mut *refs,
        &mut *indices,
        &mut *fractions,
    ))
}

#[unsafe(no_mangle)]
pub extern "C" fn salvrunde_probe_choose_early(
    corner: u16,
    above: &[u16],
    left: &[u16],
    source: &[u16],
    n: usize,
    bits: u32,
    pred: &mut [u16],
    refs: &mut [u16],
    indices: &mut [u32],
    fractions: &mut [u32],
) -> Choice
    ensures { Chooses (choose_no bits n source.now (lends above left pred refs indices fractions))
        (mode_sum bits n (lent_neighbours corner above left) source.now) (chosen_of result)
        × ((result.no ≡ 0 → ⊥) → ScratchKept pred refs indices fractions) }
{
    handed_over(choose::choose_early(
        corner,
        above,
        left,
        source,
        n,
        bits,
        &mut *pred,
        &mut *refs,
        &mut *indices,
        &mut *fractions,
    ))
}
