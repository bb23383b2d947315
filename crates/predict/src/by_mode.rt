// A block by its mode, H.265 8.4.4.2.1 without smoothing: planar, DC or angular, from references as they are.
// Rests on the work of each kind: a door above has found the number, and nothing is asked again.
ghost use Rattle.std.specs.Prelude.{◌≡◌, ℕ, length};
ghost use Rattle.laws.specs.Fill.{block};
ghost use Rattle.predict.specs.Lent.{lent_neighbours};
ghost use Rattle.predict.specs.modes.Modes.{predicted_by_mode};
ghost use Rattle.predict.specs.by_mode.Door.{ModeReady};

use crate::{angular, planar_dc};

// edge says whether edges are filtered; refs is scratch.
pub(crate) fn by_mode(
    mode: u8,
    corner: u16,
    above: &[u16],
    left: &[u16],
    n: usize,
    bits: u32,
    edge: bool,
    pred: &mut [u16],
    refs: &mut [u16],
)
    requires { ModeReady bits n mode (length above.now) (length left.now) (length pred.old)
        (length refs.old) }
    ensures { pred.new
        ≡ block (λ (y x : ℕ). predicted_by_mode bits edge edge n mode (lent_neighbours corner above left) x y) n
        pred.old }
{
    match mode {
        0 => planar_dc::planar_block(above, left, n, &mut *pred),
        1 => planar_dc::dc_block(above, left, n, edge, &mut *pred),
        _ => angular::angular_block(
            corner,
            above,
            left,
            n,
            mode as usize,
            edge,
            bits,
            &mut *pred,
            &mut *refs,
        ),
    }
}
