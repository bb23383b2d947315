// Angular prediction with the scratch struct, lent by `&mut`: the entry takes its three tables apart and calls the form over slices.
// Rests on that form. A call that makes its own scratch stands beside it.
ghost use Rattle.std.specs.Prelude.{◌≡◌};
ghost use Rattle.h265.specs.Angular.{angular};
ghost use Rattle.domain.specs.Refusal.{no_of};
ghost use Rattle.predict.specs.refusals.Refusals.{angular_no};
ghost use Rattle.predict.specs.Lent.{len, mut_len, with_scratch, lent_neighbours, Predicts};

use crate::angular;
use crate::scratch::AngularScratch;
use domain::refusal::Refusal;

// Angular prediction. What the scratch holds after a call that is not refused is left open.
pub fn predict_angular_into(
    corner: u16,
    above: &[u16],
    left: &[u16],
    n: usize,
    mode: u8,
    filter_boundary: bool,
    bits: u32,
    pred: &mut [u16],
    scratch: &mut AngularScratch,
) -> Result<(), Refusal>
    ensures { (no_of result ≡ angular_no bits n mode (with_scratch (len above) (len left) (mut_len pred)))
        × (Predicts (no_of result) n (angular bits filter_boundary n mode (lent_neighbours corner above left)) pred
        × ((no_of result ≡ 0 → ⊥) → scratch.new ≡ scratch.old)) }
{
    angular::predict_angular_slices(
        corner,
        above,
        left,
        n,
        mode,
        filter_boundary,
        bits,
        pred,
        &mut scratch.refs,
        &mut scratch.indices,
        &mut scratch.fractions,
    )
}

// Angular prediction with a scratch of its own.
pub fn predict_angular_fresh(
    corner: u16,
    above: &[u16],
    left: &[u16],
    n: usize,
    mode: u8,
    filter_boundary: bool,
    bits: u32,
    pred: &mut [u16],
) -> Result<(), Refusal>
    ensures { (no_of result ≡ angular_no bits n mode (with_scratch (len above) (len left) (mut_len pred)))
        × Predicts (no_of result) n (angular bits filter_boundary n mode (lent_neighbours corner above left)) pred }
{
    let mut scratch = AngularScratch::new();
    predict_angular_into(
        corner,
        above,
        left,
        n,
        mode,
        filter_boundary,
        bits,
        pred,
        &mut scratch,
    )
}
