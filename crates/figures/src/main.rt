// Prints document 01's figures P1 to P10 as the doors give them; the file stdout has 01's numbers. Each function that makes a call
// has for its contract what the table of specs/Figures has for it. Rests on the doors' contracts.
#![tactic(auto)]

ghost use Rattle.std.specs.Prelude.{◌≡◌};
ghost use Rattle.smooth.specs.Smoothing.{filter_references};
ghost use Rattle.figures.specs.figure_table.Figures.{counting, opening, planar_block, dc_block, angular_block, order_at, smooths_at};
ghost use Rattle.figures.specs.figure_table.Figures.{bent, entry31, ordinary31, strong_of, restored_to, smoothed_two};

use fmt::{LumaCol, LumaRow};
use order::Picture;
use predict::{angular, planar_dc};
use std::io;

// The blocks of 4 by 4 that the predictors leave.
fn planar_block(above: [u16; 65], left: [u16; 65]) -> [u16; 16]
    ensures { result ≡ planar_block above left }
{
    let mut pred = [9u16; 16];
    let _ = planar_dc::predict_planar_into(&above, &left, 4, &mut pred);
    pred
}

fn dc_block(edge: bool, above: [u16; 65], left: [u16; 65]) -> [u16; 16]
    ensures { result ≡ dc_block edge above left }
{
    let mut pred = [9u16; 16];
    let _ = planar_dc::predict_dc_into(&above, &left, 4, edge, &mut pred);
    pred
}

fn angular_block(mode: u8, edge: bool, corner: u16, above: [u16; 65], left: [u16; 65]) -> [u16; 16]
    ensures { result ≡ angular_block mode edge corner above left }
{
    let mut pred = [9u16; 16];
    let mut refs = [0u16; 193];
    let mut indices = [0u32; 32];
    let mut fractions = [0u32; 32];
    let _ = angular::predict_angular_slices(
        corner,
        &above,
        &left,
        4,
        mode,
        edge,
        8,
        &mut pred,
        &mut refs,
        &mut indices,
        &mut fractions,
    );
    pred
}

fn counting_row() -> [u16; 65]
    ensures { result ≡ counting }
{
    let mut row = [0u16; 65];
    for i in 0..65usize {
        row[i] = i as u16;
    }
    row
}

fn opening_row(first: u16) -> [u16; 65]
    ensures { result ≡ opening first }
{
    let mut row = [0u16; 65];
    row[0] = first;
    row
}

fn order_at(picture: Picture, row: u32, col: u32) -> u32
    ensures { result ≡ order_at picture row col }
{
    order::decode_order(LumaRow(row), LumaCol(col), picture).unwrap_or(0)
}

// Whether a mode is smoothed; 2 would be a refused call.
fn smooths(n: usize, mode: u8) -> u16
    ensures { result ≡ smooths_at n mode }
{
    match smooth::should_filter_refs(mode, n) {
        Ok(yes) => yes as u16,
        Err(_) => 2,
    }
}

// A row of 100 whose entry 63 is another; entry 31 of it smoothed, by either form and by the ordinary one.
fn bent_row(end: u16) -> [u16; 65]
    ensures { result ≡ bent end }
{
    let mut row = [100u16; 65];
    row[63] = end;
    row
}

// The row above, by the ordinary form where the row on the left is the same.
fn weak_row(corner: u16, row: &[u16], n: usize) -> [u16; 65]
    ensures { result ≡ (filter_references corner row.now row.now n).above }
{
    match smooth::filter_references(corner, row, row, n) {
        Ok(rows) => rows.above,
        Err(_) => [0u16; 65],
    }
}

fn entry_31(end: u16) -> u16
    ensures { result ≡ entry31 end }
{
    let row = bent_row(end);
    match smooth::filter_luma_refs(100, &row, &row, 32, 8) {
        Ok(rows) => rows.above[31],
        Err(_) => 0,
    }
}

fn ordinary_31(end: u16) -> u16
    ensures { result ≡ ordinary31 end }
{
    let row = bent_row(end);
    weak_row(100, &row, 32)[31]
}

fn strong(end: u16) -> u16
    ensures { result ≡ strong_of end }
{
    (entry_31(end) != ordinary_31(end)) as u16
}

// Entries 0 and 1 of a row 0 4 0 .., smoothed at a side n.
fn smoothed_two(n: usize) -> [u16; 2]
    ensures { result ≡ smoothed_two n }
{
    let mut row = [0u16; 65];
    row[1] = 4;
    let above = weak_row(0, &row, n);
    [above[0], above[1]]
}

fn restored(sample: u16, residual: i32) -> u16
    ensures { result ≡ restored_to sample residual }
{
    let pred = [sample; 16];
    let rest = [residual; 16];
    let mut out = [9u16; 16];
    // A refusal leaves the block as it was.
    let _ = residual::reconstruct_into(&pred, &rest, 4, 8, &mut out);
    out[0]
}

fn name(rt: &impl Print, text: &str) -> io::Result<()> {
    print!(rt; "{text}")
}

fn say_wide(rt: &impl Print, figure: u32) -> io::Result<()> {
    print!(rt; " {figure}")
}

fn say(rt: &impl Print, figure: u16) -> io::Result<()> {
    say_wide(rt, figure as u32)
}

fn end(rt: &impl Print) -> io::Result<()> {
    println!(rt; "")
}

fn p1(rt: &impl Print) -> io::Result<()> {
    let b = planar_block([10u16; 65], [20u16; 65]);
    name(rt, "P1")?;
    say(rt, b[0])?;
    say(rt, b[3])?;
    say(rt, b[12])?;
    end(rt)
}

fn p2(rt: &impl Print) -> io::Result<()> {
    let b = dc_block(false, [10u16; 65], [20u16; 65]);
    let e = dc_block(true, [10u16; 65], [20u16; 65]);
    name(rt, "P2")?;
    say(rt, b[0])?;
    say(rt, e[0])?;
    say(rt, e[1])?;
    say(rt, e[4])?;
    end(rt)
}

fn p3(rt: &impl Print) -> io::Result<()> {
    let high = angular_block(26, true, 100, [200u16; 65], [250u16; 65]);
    let low = angular_block(26, true, 100, [200u16; 65], [99u16; 65]);
    name(rt, "P3")?;
    say(rt, high[0])?;
    say(rt, low[0])?;
    end(rt)
}

fn p4(rt: &impl Print) -> io::Result<()> {
    let b = angular_block(34, false, 0, counting_row(), [0u16; 65]);
    name(rt, "P4")?;
    say(rt, b[0])?;
    say(rt, b[1])?;
    say(rt, b[2])?;
    say(rt, b[3])?;
    say(rt, b[12])?;
    say(rt, b[13])?;
    say(rt, b[14])?;
    say(rt, b[15])?;
    end(rt)
}

fn p5(rt: &impl Print) -> io::Result<()> {
    let b = angular_block(18, false, 77, opening_row(60), opening_row(50));
    name(rt, "P5")?;
    say(rt, b[0])?;
    say(rt, b[4])?;
    say(rt, b[1])?;
    end(rt)
}

fn p6(rt: &impl Print) -> io::Result<()> {
    let sixteen = Picture {
        width: 32,
        height: 24,
        ctu: 16,
        unit: 8,
    };
    let sixty_four = Picture {
        width: 64,
        height: 64,
        ctu: 64,
        unit: 4,
    };
    name(rt, "P6")?;
    say_wide(rt, order_at(sixteen, 0, 8))?;
    say_wide(rt, order_at(sixteen, 8, 0))?;
    say_wide(rt, order_at(sixteen, 0, 16))?;
    say_wide(rt, order_at(sixteen, 16, 0))?;
    say_wide(rt, order_at(sixty_four, 4, 8))?;
    end(rt)
}

fn p7(rt: &impl Print) -> io::Result<()> {
    name(rt, "P7")?;
    say(rt, smooths(8, 2))?;
    say(rt, smooths(8, 3))?;
    say(rt, smooths(16, 8))?;
    say(rt, smooths(16, 9))?;
    say(rt, smooths(32, 11))?;
    say(rt, smooths(32, 10))?;
    end(rt)
}

fn p8(rt: &impl Print) -> io::Result<()> {
    name(rt, "P8")?;
    say(rt, strong(107))?;
    say(rt, entry_31(107))?;
    say(rt, strong(108))?;
    end(rt)
}

fn p9(rt: &impl Print) -> io::Result<()> {
    name(rt, "P9")?;
    say(rt, restored(250, 10))?;
    say(rt, restored(5, -9))?;
    end(rt)
}

fn say_two(rt: &impl Print, figures: [u16; 2]) -> io::Result<()> {
    say(rt, figures[0])?;
    say(rt, figures[1])
}

fn p10(rt: &impl Print) -> io::Result<()> {
    name(rt, "P10")?;
    say_two(rt, smoothed_two(4))?;
    say_two(rt, smoothed_two(8))?;
    say_two(rt, smoothed_two(16))?;
    say_two(rt, smoothed_two(32))?;
    end(rt)
}

fn main(rt: HostRuntime) -> io::Result<()> {
    p1(&rt)?;
    p2(&rt)?;
    p3(&rt)?;
    p4(&rt)?;
    p5(&rt)?;
    p6(&rt)?;
    p7(&rt)?;
    p8(&rt)?;
    p9(&rt)?;
    p10(&rt)
}
