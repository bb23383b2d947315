// Prediction for C: from rows of bytes to a block of bytes, samples of two bytes, the lower first. Both rows are read into local
// arrays, the doors of room predict make the block in another one, and it is stored. Rests on the domain's tests, on those doors
// and on pairs of samples (bytes).
ghost use Rattle.std.specs.Prelude.{◌≡◌, true, ℕ, ◌*◌, ◌≤◌, length};
ghost use Rattle.laws.specs.Fill.{block};
ghost use Rattle.octets.specs.pairs.Into.{read_into};
ghost use Rattle.domain.specs.Refusal.{no_of};
ghost use Rattle.domain.specs.Domain.{mode_ok, predictor_row};
ghost use Rattle.domain.specs.Facts.{Size};
ghost use Rattle.h265.specs.Angular.{angular};
ghost use Rattle.predict.specs.Lent.{lent_neighbours};
ghost use Rattle.predict.specs.modes.Modes.{predicted_by_mode};
ghost use Rattle.predict.specs.by_mode.Door.{Predictable};
ghost use Rattle.camera.specs.Written.{wrote, entry};
ghost use Rattle.camera.specs.prediction.Entries.{has_block_room, flat_entry_no, mode_entry_no, neighbours_in, block_in_bytes};
ghost use Rattle.camera.specs.prediction.Entries.{planar_entry, dc_entry, angular_entry, chroma_block_entry};
ghost use Rattle.camera.specs.prediction.Checks.{HasRoom};
ghost use Rattle.camera.specs.prediction.Blocks.{SampleRoom};

use domain::refusal::Refusal;
use octets::pairs;
use predict::{angular, planar_dc};

// Whether two rows and a block's buffer are long enough, in bytes; `row` is the least of a row.
fn has_room(row: usize, n: usize, above: usize, left: usize, out: usize) -> bool
    requires { Size n }
    ensures { result ≡ has_block_room row n above left out }
{
    (above >= row) & (left >= row) & (out >= 2 * (n * n))
}

// What planar and DC refuse, 2 and 5.
#[tactic(auto, unfolding(crate::specs::prediction::Entries::flat_entry_no))]
fn check_flat_entry(n: usize, above: usize, left: usize, out: usize) -> Result<(), Refusal>
    ensures { no_of result ≡ flat_entry_no n above left out }
{
    if !domain::size_ok(n) {
        return Err(Refusal::Size);
    }
    if !has_room(2 * (2 * n), n, above, left, out) {
        return Err(Refusal::Buffer);
    }
    Ok(())
}

// What an entry refuses that takes a mode, 1, 2, 3 and 5; `taken` tells whether it takes this one, `row` the least bytes of a row.
#[tactic(auto, unfolding(crate::specs::prediction::Entries::mode_entry_no))]
pub(crate) fn check_mode_entry(
    row: usize,
    bits: u32,
    n: usize,
    taken: bool,
    above: usize,
    left: usize,
    out: usize,
) -> Result<(), Refusal>
    ensures { no_of result ≡ mode_entry_no row bits n taken above left out }
{
    if !domain::depth_ok(bits) {
        return Err(Refusal::Depth);
    }
    if !domain::size_ok(n) {
        return Err(Refusal::Size);
    }
    if !taken {
        return Err(Refusal::Mode);
    }
    if !has_room(row, n, above, left, out) {
        return Err(Refusal::Buffer);
    }
    Ok(())
}

// An angular block, with tables of its own.
fn angular_block(
    bits: u32,
    n: usize,
    mode: u8,
    edge: bool,
    corner: u16,
    above: &[u16],
    left: &[u16],
    pred: &mut [u16],
)
    requires { Predictable bits n mode × (SampleRoom n (length above.now) (length left.now) (length pred.old)
        × (2 ≤ mode)) }
    ensures { pred.new
        ≡ block (λ (y x : ℕ). angular bits edge n mode (lent_neighbours corner above left) x y) n pred.old }
{
    let mut refs = [0u16; 193];
    let mut indices = [0u32; 32];
    let mut fractions = [0u32; 32];
    let _ = angular::predict_angular_slices(
        corner,
        above,
        left,
        n,
        mode,
        edge,
        bits,
        &mut *pred,
        &mut refs,
        &mut indices,
        &mut fractions,
    );
}

// The block of a mode; edge says whether edges are filtered. Planar and DC ask for no tables, and clear none.
fn mode_block(
    bits: u32,
    n: usize,
    mode: u8,
    edge: bool,
    corner: u16,
    above: &[u16],
    left: &[u16],
    pred: &mut [u16],
)
    requires { Predictable bits n mode × SampleRoom n (length above.now) (length left.now) (length pred.old) }
    ensures { pred.new
        ≡ block (λ (y x : ℕ). predicted_by_mode bits edge edge n mode (lent_neighbours corner above left) x y) n
        pred.old }
{
    match mode {
        0 => {
            let _ = planar_dc::predict_planar_into(above, left, n, &mut *pred);
        }
        1 => {
            let _ = planar_dc::predict_dc_into(above, left, n, edge, &mut *pred);
        }
        _ => angular_block(bits, n, mode, edge, corner, above, left, &mut *pred),
    }
}

// The first 2n samples of a row. Each arm has a constant count, so that reading is one copy.
pub(crate) fn read_row(row: &[u8], n: usize, out: &mut [u16])
    requires { Size n }
    ensures { out.new ≡ read_into n row.now out.old }
{
    match n {
        4 => pairs::read(row, 4, &mut *out),
        8 => pairs::read(row, 8, &mut *out),
        16 => pairs::read(row, 16, &mut *out),
        _ => pairs::read(row, 32, &mut *out),
    }
}

// The block of a mode from rows of bytes. Of each row the 2n samples that a side reads are read: what follows reaches no sample.
fn rows_block(
    bits: u32,
    n: usize,
    mode: u8,
    edge: bool,
    corner: u16,
    above: &[u8],
    left: &[u8],
    pred: &mut [u16],
)
    requires { Predictable bits n mode × ((4 * n ≤ length above.now) × ((4 * n ≤ length left.now)
        × (n * n ≤ length pred.old))) }
    ensures { pred.new ≡ block
        (λ (y x : ℕ). predicted_by_mode bits edge edge n mode (neighbours_in corner above.now left.now) x y)
        n pred.old }
{
    let mut a = [0u16; 64];
    let mut l = [0u16; 64];
    read_row(above, n, &mut a);
    read_row(left, n, &mut l);
    mode_block(bits, n, mode, edge, corner, &a, &l, &mut *pred);
}

// The block in an array as long as its side asks, and stored: the side is a constant of each arm, so that storing is one copy.
fn predict_bytes(
    bits: u32,
    n: usize,
    mode: u8,
    edge: bool,
    corner: u16,
    above: &[u8],
    left: &[u8],
    out: &mut [u8],
)
    requires { Predictable bits n mode × HasRoom n (length above.now) (length left.now) (length out.old) }
    ensures { out.new ≡ block_in_bytes
        (λ (y x : ℕ). predicted_by_mode bits edge edge n mode (neighbours_in corner above.now left.now) x y)
        n out.old }
{
    match n {
        4 => {
            let mut pred = [0u16; 16];
            rows_block(bits, 4, mode, edge, corner, above, left, &mut pred);
            pairs::store(&pred, 8, &mut *out);
        }
        8 => {
            let mut pred = [0u16; 64];
            rows_block(bits, 8, mode, edge, corner, above, left, &mut pred);
            pairs::store(&pred, 32, &mut *out);
        }
        16 => {
            let mut pred = [0u16; 256];
            rows_block(bits, 16, mode, edge, corner, above, left, &mut pred);
            pairs::store(&pred, 128, &mut *out);
        }
        _ => {
            let mut pred = [0u16; 1024];
            rows_block(bits, 32, mode, edge, corner, above, left, &mut pred);
            pairs::store(&pred, 512, &mut *out);
        }
    }
}

// Planar or DC, by its mode. No depth and no corner plays a part.
#[tactic(auto, unfolding(crate::specs::Written::entry), using(domain::specs::Refused::never_0))]
fn flat(
    n: u32,
    mode: u8,
    edge: bool,
    above: &[u8],
    left: &[u8],
    out: &mut [u8],
) -> Result<(), Refusal>
    requires { mode ≤ 1 }
    ensures { wrote (no_of result) out.new ≡ entry (flat_entry_no n (length above.now) (length left.now) (length out.old))
        (block_in_bytes (λ (y x : ℕ). predicted_by_mode 8 edge edge n mode (neighbours_in 0 above.now left.now) x y) n out.old) out.old }
{
    check_flat_entry(n as usize, above.len(), left.len(), out.len())?;
    predict_bytes(8, n as usize, mode, edge, 0, above, left, &mut *out);
    Ok(())
}

// The planar block of side n, in rows, in the first 2 · n · n bytes of `out`; each row has at least 4 · n bytes. Numbers 2, 5.
pub(crate) fn planar(n: u32, above: &[u8], left: &[u8], out: &mut [u8]) -> Result<(), Refusal>
    ensures { wrote (no_of result) out.new ≡ planar_entry n above.now left.now out.old }
{
    flat(n, 0, false, above, left, out)
}

// The DC block; an edge flag that is not 0 asks for filtered edges. Numbers 2, 5.
pub(crate) fn dc(
    n: u32,
    edge: u32,
    above: &[u8],
    left: &[u8],
    out: &mut [u8],
) -> Result<(), Refusal>
    ensures { wrote (no_of result) out.new ≡ dc_entry n edge above.now left.now out.old }
{
    flat(n, 1, edge != 0, above, left, out)
}

// A block in a mode that the entry takes or not, as `taken` tells.
#[tactic(auto, unfolding(crate::specs::Written::entry), using(domain::specs::Refused::never_0))]
fn by_mode(
    bits: u32,
    n: u32,
    mode: u32,
    taken: bool,
    edge: bool,
    corner: u16,
    above: &[u8],
    left: &[u8],
    out: &mut [u8],
) -> Result<(), Refusal>
    requires { taken ≡ true → mode_ok mode ≡ true }
    ensures { wrote (no_of result) out.new
        ≡ entry (mode_entry_no (2 * predictor_row n) bits n taken (length above.now) (length left.now) (length out.old))
        (block_in_bytes (λ (y x : ℕ). predicted_by_mode bits edge edge n mode (neighbours_in corner above.now left.now) x y) n out.old)
        out.old }
{
    let side = n as usize;
    check_mode_entry(
        2 * (2 * side),
        bits,
        side,
        taken,
        above.len(),
        left.len(),
        out.len(),
    )?;
    predict_bytes(bits, side, mode as u8, edge, corner, above, left, &mut *out);
    Ok(())
}

// The block of an angular mode, 2 to 34. Numbers 1, 2, 3, 5.
pub(crate) fn angular(
    bits: u32,
    n: u32,
    mode: u32,
    edge: u32,
    corner: u16,
    above: &[u8],
    left: &[u8],
    out: &mut [u8],
) -> Result<(), Refusal>
    ensures { wrote (no_of result) out.new ≡ angular_entry bits n mode edge corner above.now left.now out.old }
{
    let taken = (mode >= 2) & (mode <= 34);
    by_mode(bits, n, mode, taken, edge != 0, corner, above, left, out)
}

// A chroma block in any mode, 0 to 34: nothing is smoothed, and no edge is filtered. Numbers 1, 2, 3, 5.
pub(crate) fn chroma(
    bits: u32,
    n: u32,
    mode: u32,
    corner: u16,
    above: &[u8],
    left: &[u8],
    out: &mut [u8],
) -> Result<(), Refusal>
    ensures { wrote (no_of result) out.new ≡ chroma_block_entry bits n mode corner above.now left.now out.old }
{
    by_mode(bits, n, mode, mode <= 34, false, corner, above, left, out)
}
