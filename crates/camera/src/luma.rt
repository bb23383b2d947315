// A luma block for C: from rows of bytes to a block of bytes, smoothed by the rule and with its edges filtered (document 02, Wish 1). Rests
// on the numbers and the reading of rows of `prediction`, on the luma door of room predict, and on pairs of samples (bytes).
ghost use Rattle.std.specs.Prelude.{◌≡◌, ◌*◌, ◌/◌, ◌≤◌, length};
ghost use Rattle.laws.specs.Fill.{block};
ghost use Rattle.octets.specs.pairs.Into.{store_into};
ghost use Rattle.domain.specs.Refusal.{no_of};
ghost use Rattle.domain.specs.Facts.{Size};
ghost use Rattle.predict.specs.by_mode.Door.{Predictable};
ghost use Rattle.camera.specs.Written.{wrote};
ghost use Rattle.camera.specs.prediction.Entries.{luma_in, luma_block_entry};
ghost use Rattle.camera.specs.prediction.Luma.{rows_read};

use crate::prediction;
use domain::refusal::Refusal;
use domain::rows::Rows;
use octets::pairs;

// Rows by value out of rows of bytes. Of each the 2n samples that a side reads are read: what follows reaches no sample.
pub(crate) fn read_rows(n: usize, corner: u16, above: &[u8], left: &[u8]) -> Rows
    requires { Size n }
    ensures { result ≡ rows_read n corner above.now left.now }
{
    let mut a = [0u16; 65];
    let mut l = [0u16; 65];
    prediction::read_row(above, n, &mut a);
    prediction::read_row(left, n, &mut l);
    Rows {
        corner,
        above: a,
        left: l,
    }
}

// The block of a mode from rows of bytes, with tables of its own.
fn rows_block(
    bits: u32,
    n: usize,
    mode: u8,
    corner: u16,
    above: &[u8],
    left: &[u8],
    pred: &mut [u16],
)
    requires { Predictable bits n mode × ((4 * n ≤ length above.now) × ((4 * n ≤ length left.now)
        × (n * n ≤ length pred.old))) }
    ensures { pred.new
        ≡ block (luma_in bits n mode corner above.now left.now) n pred.old }
{
    let rows = read_rows(n, corner, above, left);
    let mut refs = [0u16; 193];
    let mut indices = [0u32; 32];
    let mut fractions = [0u32; 32];
    let _ = predict::predict_luma_tb_slices(
        mode,
        rows,
        n,
        bits,
        &mut *pred,
        &mut refs,
        &mut indices,
        &mut fractions,
    );
}

// Stores a block. Each arm has a constant count, so that storing is one copy.
fn store_block(pred: &[u16], n: usize, out: &mut [u8])
    requires { Size n }
    ensures { out.new ≡ store_into (n * n / 2) pred.now out.old }
{
    match n {
        4 => pairs::store(pred, 8, &mut *out),
        8 => pairs::store(pred, 32, &mut *out),
        16 => pairs::store(pred, 128, &mut *out),
        _ => pairs::store(pred, 512, &mut *out),
    }
}

// A luma block in any mode, 0 to 34. Numbers 1, 2, 3, 5.
#[tactic(auto, unfolding(crate::specs::prediction::Entries::luma_block_entry, crate::specs::Written::entry), using(domain::specs::Refused::never_0))]
pub(crate) fn luma(
    bits: u32,
    n: u32,
    mode: u32,
    corner: u16,
    above: &[u8],
    left: &[u8],
    out: &mut [u8],
) -> Result<(), Refusal>
    ensures { wrote (no_of result) out.new
        ≡ luma_block_entry bits n mode corner above.now left.now out.old }
{
    let side = n as usize;
    prediction::check_mode_entry(
        130,
        bits,
        side,
        mode <= 34,
        above.len(),
        left.len(),
        out.len(),
    )?;
    let mut pred = [0u16; 1024];
    rows_block(bits, side, mode as u8, corner, above, left, &mut pred);
    store_block(&pred, side, &mut *out);
    Ok(())
}
