// Planar and DC prediction, H.265 8.4.4.2.4 and 8.4.4.2.5. Rests on the doors' numbers and on the arithmetic of one sample (taps).
// The stores run with a side that is a constant of each call, and a row that is read and written goes by way of a local array:
// all reads then come before the first store, and the compiler can use wide ones.
ghost use Rattle.std.specs.Prelude.{◌≡◌, ℕ, ◌+◌, ◌*◌, ◌≤◌, ◌<◌, length};
ghost use Rattle.laws.specs.Fill.{fill, run, block};
ghost use Rattle.h265.specs.Notation.{from_rows};
ghost use Rattle.h265.specs.Planar.{planar};
ghost use Rattle.h265.specs.Dc.{dc};
ghost use Rattle.domain.specs.Facts.{Size};
ghost use Rattle.domain.specs.Refusal.{no_of};
ghost use Rattle.samples.specs.taps.Taps.{blended};
ghost use Rattle.predict.specs.refusals.Refusals.{flat_no};
ghost use Rattle.predict.specs.Lent.{len, mut_len, entry_at, lent_neighbours, Predicts};
ghost use Rattle.predict.specs.planar_dc.Flat.{FlatReady, planar_sample};
ghost use Rattle.predict.specs.planar_dc.Text.{Total};
ghost use Rattle.predict.specs.planar_dc.Stores.{heads};
ghost use Rattle.predict.specs.planar_dc.Edge.{edges};

use crate::{boundary, refusals};
use domain::refusal::Refusal;
use samples::taps;

// Two samples by weights.
fn mix(a: u32, x: u16, b: u32, y: u16) -> u32
    requires { a + b ≤ 32 }
    ensures { (result ≡ a * x + b * y) × (result ≤ (a + b) * 65535) }
{
    a * (x as u32) + b * (y as u32)
}

fn planar_sample(
    n: u32,
    row: u32,
    col: u32,
    left: u16,
    top_right: u16,
    top: u16,
    bottom_left: u16,
) -> u16
    requires { Size n × ((row < n) × ((col < n) × (n ≤ 32))) }
    ensures { result ≡ planar_sample n row col left top_right top bottom_left }
{
    let h = mix(n - 1 - col, left, col + 1, top_right);
    let v = mix(n - 1 - row, top, row + 1, bottom_left);
    taps::mean(h + v, n as usize)
}

// A row of samples, from entry 0 of a list on.
fn planar_row(
    above: &[u16],
    left: u16,
    top_right: u16,
    bottom_left: u16,
    n: usize,
    row: usize,
    out: &mut [u16],
)
    requires { Size n × ((row < n) × ((n ≤ 32) × ((n ≤ length above.now) × (n ≤ length out.old)))) }
    ensures { out.new
        ≡ fill (λ (x : ℕ). planar_sample n row x left top_right (entry_at above x) bottom_left) n out.old }
{
    for col in 0..n {
        out[col] = planar_sample(
            n as u32,
            row as u32,
            col as u32,
            left,
            top_right,
            above[col],
            bottom_left,
        );
    }
}

// The first n samples of a list, from entry at on.
fn put_row(samples: &[u16], n: usize, at: usize, pred: &mut [u16])
    requires { (n ≤ length samples.now) × (at + n ≤ length pred.old) }
    ensures { pred.new ≡ run (λ (x : ℕ). entry_at samples x) at n pred.old }
{
    for col in 0..n {
        pred[at + col] = samples[col];
    }
}

fn planar_line(
    above: &[u16],
    left: u16,
    top_right: u16,
    bottom_left: u16,
    n: usize,
    row: usize,
    at: usize,
    pred: &mut [u16],
)
    requires { Size n × ((row < n) × ((n ≤ 32) × ((n ≤ length above.now) × (at + n ≤ length pred.old)))) }
    ensures { pred.new
        ≡ run (λ (x : ℕ). planar_sample n row x left top_right (entry_at above x) bottom_left) at n
        pred.old }
{
    let mut samples = [0u16; 32];
    planar_row(above, left, top_right, bottom_left, n, row, &mut samples);
    put_row(&samples, n, at, &mut *pred);
}

fn planar_n(above: &[u16], left: &[u16], n: usize, pred: &mut [u16])
    requires { FlatReady n (length above.now) (length left.now) × (n * n ≤ length pred.old) }
    ensures { pred.new
        ≡ block (λ (y x : ℕ). planar n (lent_neighbours 0 above left) x y) n pred.old }
{
    let top_right = above[n];
    let bottom_left = left[n];
    for row in 0..n {
        planar_line(
            above,
            left[row],
            top_right,
            bottom_left,
            n,
            row,
            row * n,
            &mut *pred,
        );
    }
}

pub(crate) fn planar_block(above: &[u16], left: &[u16], n: usize, pred: &mut [u16])
    requires { FlatReady n (length above.now) (length left.now) × (n * n ≤ length pred.old) }
    ensures { pred.new
        ≡ block (λ (y x : ℕ). planar n (lent_neighbours 0 above left) x y) n pred.old }
{
    match n {
        4 => planar_n(above, left, 4, &mut *pred),
        8 => planar_n(above, left, 8, &mut *pred),
        16 => planar_n(above, left, 16, &mut *pred),
        _ => planar_n(above, left, 32, &mut *pred),
    }
}

#[tactic(auto, using(crate::specs::planar_dc::Flat::ready))]
pub fn predict_planar_into(
    above: &[u16],
    left: &[u16],
    n: usize,
    pred: &mut [u16],
) -> Result<(), Refusal>
    ensures { (no_of result ≡ flat_no n (len above) (len left) (mut_len pred))
        × Predicts (no_of result) n (planar n (lent_neighbours 0 above left)) pred }
{
    refusals::check_flat(n, above.len(), left.len(), pred.len())?;
    planar_block(above, left, n, &mut *pred);
    Ok(())
}

// The sum of n samples of both rows.
fn total(above: &[u16], left: &[u16], n: usize) -> u32
    requires { (n ≤ 32) × ((n ≤ length above.now) × (n ≤ length left.now)) }
    ensures { Total (lent_neighbours 0 above left) n result }
{
    let mut all: u32 = 0;
    for i in 0..n {
        all += (above[i] as u32) + (left[i] as u32);
    }
    all
}

// The value in the first count entries.
fn flat_fill(dc: u16, count: usize, pred: &mut [u16])
    requires { count ≤ length pred.old }
    ensures { pred.new ≡ fill (λ (i : ℕ). dc) count pred.old }
{
    for i in 0..count {
        pred[i] = dc;
    }
}

// The edge: the first row and the first column, each by way of one function for a sample.
fn blend_row(above: &[u16], dc: u16, n: usize, out: &mut [u16])
    requires { (n ≤ length above.now) × (n ≤ length out.old) }
    ensures { out.new ≡ fill (λ (x : ℕ). blended (entry_at above x) dc) n out.old }
{
    for col in 0..n {
        out[col] = taps::blend(above[col], dc);
    }
}

fn edge_row(above: &[u16], dc: u16, n: usize, pred: &mut [u16])
    requires { (n ≤ 32) × ((n ≤ length above.now) × (n ≤ length pred.old)) }
    ensures { pred.new ≡ run (λ (x : ℕ). blended (entry_at above x) dc) 0 n pred.old }
{
    let mut samples = [0u16; 32];
    blend_row(above, dc, n, &mut samples);
    put_row(&samples, n, 0, &mut *pred);
}

fn edge_column(left: &[u16], dc: u16, n: usize, pred: &mut [u16])
    requires { (n ≤ length left.now) × (n * n ≤ length pred.old) }
    ensures { pred.new ≡ heads (λ (y : ℕ). blended (entry_at left y) dc) n n pred.old }
{
    for row in 0..n {
        pred[row * n] = taps::blend(left[row], dc);
    }
}

fn edge(above: &[u16], left: &[u16], dc: u16, n: usize, pred: &mut [u16])
    requires { FlatReady n (length above.now) (length left.now) × (n * n ≤ length pred.old) }
    ensures { pred.new
        ≡ edges (λ (x : ℕ). entry_at above x) (λ (y : ℕ). entry_at left y) dc n pred.old }
{
    edge_row(above, dc, n, &mut *pred);
    edge_column(left, dc, n, &mut *pred);
    pred[0] = taps::corner(left[0], above[0], dc);
}

fn dc_n(above: &[u16], left: &[u16], all: u32, n: usize, filter_boundary: bool, pred: &mut [u16])
    requires { (FlatReady n (length above.now) (length left.now) × (n * n ≤ length pred.old))
        × Total (from_rows 0 above.now left.now) n all }
    ensures { pred.new
        ≡ block (λ (y x : ℕ). dc filter_boundary n (lent_neighbours 0 above left) x y) n pred.old }
{
    let value = taps::mean(all, n);
    flat_fill(value, n * n, &mut *pred);
    if boundary::filtered(filter_boundary, n) {
        edge(above, left, value, n, &mut *pred);
    }
}

pub(crate) fn dc_block(
    above: &[u16],
    left: &[u16],
    n: usize,
    filter_boundary: bool,
    pred: &mut [u16],
)
    requires { FlatReady n (length above.now) (length left.now) × (n * n ≤ length pred.old) }
    ensures { pred.new
        ≡ block (λ (y x : ℕ). dc filter_boundary n (lent_neighbours 0 above left) x y) n pred.old }
{
    let all = total(above, left, n);
    match n {
        4 => dc_n(above, left, all, 4, filter_boundary, &mut *pred),
        8 => dc_n(above, left, all, 8, filter_boundary, &mut *pred),
        16 => dc_n(above, left, all, 16, filter_boundary, &mut *pred),
        _ => dc_n(above, left, all, 32, filter_boundary, &mut *pred),
    }
}

#[tactic(auto, using(crate::specs::planar_dc::Flat::ready))]
pub fn predict_dc_into(
    above: &[u16],
    left: &[u16],
    n: usize,
    filter_boundary: bool,
    pred: &mut [u16],
) -> Result<(), Refusal>
    ensures { (no_of result ≡ flat_no n (len above) (len left) (mut_len pred))
        × Predicts (no_of result) n (dc filter_boundary n (lent_neighbours 0 above left)) pred }
{
    refusals::check_flat(n, above.len(), left.len(), pred.len())?;
    dc_block(above, left, n, filter_boundary, &mut *pred);
    Ok(())
}
