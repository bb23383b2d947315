// Decode order of a picture's cells (H.265 6.5.2) and which luma neighbours are available (document 01, module 2).
// Rests on the domain's tests, on what a cell's number is made of and on the kinds of places.
#![tactic(auto)]

pub mod cells;

ghost use Rattle.std.specs.Prelude.{◌≡◌, ◌+◌, ◌-◌, ◌*◌, ◌/◌, ◌%◌, ◌^◌, ◌≤◌, ◌<◌, min, eqb, pos};
ghost use Rattle.h265.specs.Notation.{log2};
ghost use Rattle.h265.specs.Order.{z_scan};
ghost use Rattle.order.specs.Order.{place_ok, order_no, decode_order, before, is_available};
ghost use Rattle.order.specs.Answers.{numbered, flagged, there, reached};
ghost use Rattle.domain.specs.Refusal.{no_of};
ghost use Rattle.order.specs.Good.{Good, Power, Small, shifts_of};
ghost use Rattle.order.specs.Reach.{leading, in_plane, reach_by, luma_has, luma_reach_no, luma_reach};
ghost use Rattle.order.specs.Reach.{has_chroma, chroma_block_ok, chroma_has, chroma_reach_no, chroma_reach};
ghost use Rattle.order.specs.Edges.{line_there, group_of, Line, Edge, above_there, left_there, corner_there, edges_of, Sited};
ghost use Rattle.order.specs.Blocks.{luma_site, chroma_site};
ghost use Rattle.fmt.specs.Fmt.{Subsampling};
ghost use Rattle.domain.specs.Facts.{Size};

use domain::refusal::Refusal;
use fmt::{ChromaCol, ChromaFormat, ChromaRow, LumaCol, LumaRow};

// A picture as the order sees it: its luma sides, its CTU and its least unit.
#[derive(Clone, Copy)]
pub struct Picture {
    pub width: u32,
    pub height: u32,
    pub ctu: u32,
    pub unit: u32,
}

// A luma neighbour's place, which may lie outside the picture.
#[derive(Clone, Copy)]
pub struct LumaNeighbour {
    pub row: i64,
    pub col: i64,
}

// The picture's grid as the code goes by it: shifts from samples to cells and from cells to CTUs, the cells along a CTU,
// and the CTUs in a row.
#[derive(Clone, Copy)]
struct Shifts {
    unit: u32,
    levels: u32,
    cells: usize,
    ctus: usize,
}

// Log2 of a CTU or a unit.
fn log2_of(side: u32) -> u32
    requires { Power side }
    ensures { result ≡ log2 side }
{
    match side {
        4 => 2,
        8 => 3,
        16 => 4,
        32 => 5,
        _ => 6,
    }
}

fn shifts_of(p: Picture) -> Shifts
    requires { Good p }
    ensures { result ≡ shifts_of p }
{
    let unit = log2_of(p.unit);
    let ctb = log2_of(p.ctu);
    Shifts {
        unit,
        levels: ctb - unit,
        cells: (p.ctu as usize) >> unit,
        ctus: cells::ctus_of(p.width, p.ctu),
    }
}

// The last k bits of a number: what is left of it past its CTU.
fn inner(v: usize, k: u32, cells: usize) -> usize
    requires { (k ≤ 4) × (cells ≡ 2 ^ k) × (v < 65536) }
    ensures { result ≡ v % 2 ^ k }
{
    v - (v >> k) * cells
}

// The number of the cell in row y and column x of cells: its CTU in raster order, and its place in the CTU.
fn cell_number(y: usize, x: usize, k: u32, cells: usize, ctus: usize) -> usize
    requires { (k ≤ 4) × (cells ≡ 2 ^ k) × (y < 4096) × (x < 4096) × (ctus ≤ 256) }
    ensures { result ≡ z_scan k ctus x y }
{
    let ctu = (y >> k) * ctus + (x >> k);
    ctu * (cells * cells) + cells::interleave(inner(y, k, cells), inner(x, k, cells))
}

// The number of the cell that holds the sample at (row, col).
fn number(s: Shifts, row: usize, col: usize) -> usize
    requires { Small s × (row < 4096) × (col < 4096) }
    ensures { result ≡ z_scan s.levels s.ctus (col / 2 ^ s.unit) (row / 2 ^ s.unit) }
{
    let unit = s.unit;
    cell_number(row >> unit, col >> unit, s.levels, s.cells, s.ctus)
}

// Whether a place is in a picture that has an order, or why it is refused.
#[tactic(auto, unfolding(crate::specs::Order::order_no))]
fn check_place(p: Picture, row: LumaRow, col: LumaCol) -> Result<(), Refusal>
    ensures { no_of result ≡ order_no p row col }
{
    if !domain::picture_ok(p.width, p.height, p.ctu) {
        return Err(Refusal::Picture);
    }
    if !(domain::unit_ok(p.unit) & (row.0 < p.height) & (col.0 < p.width)) {
        return Err(Refusal::Place);
    }
    Ok(())
}

// The number, in decode order, of the cell that holds a luma sample.
#[tactic(auto, unfolding(crate::specs::Order::decode_order), using(domain::specs::Refused::never_0))]
pub fn decode_order(r: LumaRow, c: LumaCol, picture: Picture) -> Result<u32, Refusal>
    ensures { numbered result ≡ decode_order picture r c }
{
    check_place(picture, r, c)?;
    let s = shifts_of(picture);
    Ok(number(s, r.0 as usize, c.0 as usize) as u32)
}

// Whether a place is in the picture and has a number below limit.
fn inside_before(p: Picture, limit: usize, row: usize, col: usize) -> bool
    requires { Good p }
    ensures { result ≡ before p limit (pos row) (pos col) }
{
    if !cells::inside(p.height, p.width, row, col) {
        return false;
    }
    number(shifts_of(p), row, col) < limit
}

// The same of a place that may have a number below 0.
fn comes_before(p: Picture, limit: usize, row: i64, col: i64) -> bool
    requires { Good p }
    ensures { result ≡ before p limit row col }
{
    if row < 0 {
        return false;
    }
    if col < 0 {
        return false;
    }
    inside_before(p, limit, row as usize, col as usize)
}

// Whether a luma neighbour is available to a block.
#[tactic(auto, unfolding(crate::specs::Order::is_available), using(domain::specs::Refused::never_0))]
pub fn is_available(
    neighbour: LumaNeighbour,
    block_row: LumaRow,
    block_col: LumaCol,
    picture: Picture,
) -> Result<bool, Refusal>
    ensures { flagged result ≡ is_available picture neighbour block_row block_col }
{
    check_place(picture, block_row, block_col)?;
    let cur = number(
        shifts_of(picture),
        block_row.0 as usize,
        block_col.0 as usize,
    );
    Ok(comes_before(picture, cur, neighbour.row, neighbour.col))
}

// A luma block of side n in its picture.
#[derive(Clone, Copy)]
pub struct LumaBlock {
    pub picture: Picture,
    pub row: LumaRow,
    pub col: LumaCol,
    pub n: usize,
}

// A chroma block of side n, counted in chroma samples, in its picture, and the luma place that is being decoded.
#[derive(Clone, Copy)]
pub struct ChromaBlock {
    pub picture: Picture,
    pub format: ChromaFormat,
    pub row: ChromaRow,
    pub col: ChromaCol,
    pub n: usize,
    pub cur_luma_row: LumaRow,
    pub cur_luma_col: LumaCol,
}

// How far the neighbours of a block reach that are there: whether the corner is, and how many entries of the row above and of the
// left column, from entry 0 on, up to entry 2n.
#[derive(Clone, Copy, Debug, PartialEq, Eq)]
pub struct Reach {
    pub corner: bool,
    pub above: usize,
    pub left: usize,
}

// Where a block stands over the luma grid: the luma places on which its first row and column lie, and the row above and the column
// left of it; the steps to the next sample, down a column and across a row, in luma samples; and the plane's rows and columns from
// the block's first on.
#[derive(Clone, Copy)]
struct Site {
    row: LumaRow,
    col: LumaCol,
    above: LumaRow,
    left: LumaCol,
    down: usize,
    across: usize,
    rows: usize,
    cols: usize,
}

// How many of `most` samples have a number below `limit`, from the luma place (row, col) on, each `down` luma rows and `across`
// luma columns further. Samples of one group share a cell, so one of each group is asked.
fn leads(
    s: Shifts,
    limit: usize,
    row: usize,
    col: usize,
    down: usize,
    across: usize,
    group: usize,
    most: usize,
) -> usize
    requires { Line s row col down across group most }
    ensures { result ≡ leading (line_there s limit row col down across) most }
{
    for i in (0..most).step_by(group) {
        if number(s, row + i * down, col + i * across) >= limit {
            return i;
        }
    }
    most
}

// How many samples of a block's edge share a cell: those of the unit, but no more than the block's side.
fn group_of(unit: usize, step: usize, n: usize) -> usize
    requires { Subsampling step }
    ensures { result ≡ group_of unit step n }
{
    if step == 2 {
        return n.min(unit / 2);
    }
    n.min(unit)
}

// How many of an edge's 2n + 1 entries have a number below `limit`, from the luma place (row, col) on, where the plane has `room` for
// so many. The edge goes down or across, so one of the two steps is 0.
fn edge_reach(
    s: Shifts,
    limit: usize,
    row: usize,
    col: usize,
    down: usize,
    across: usize,
    unit: usize,
    n: usize,
    room: usize,
) -> usize
    requires { Edge s row col down across unit n room }
    ensures { result ≡ leading (line_there s limit row col down across) (min (2 * n + 1) room) }
{
    let group = group_of(unit, down + across, n);
    let most = room.min(2 * n + 1);
    leads(s, limit, row, col, down, across, group, most)
}

// How many entries of the row above a block are there.
fn above_reach(s: Shifts, e: Site, unit: usize, n: usize, limit: usize) -> usize
    requires { Sited s e unit n }
    ensures { result ≡ leading (above_there s e limit) (2 * n + 1) }
{
    if e.row.0 == 0 {
        return 0;
    }
    let row = e.above.0 as usize;
    let col = e.col.0 as usize;
    edge_reach(s, limit, row, col, 0, e.across, unit, n, e.cols)
}

// How many entries of the column left of a block are there.
fn left_reach(s: Shifts, e: Site, unit: usize, n: usize, limit: usize) -> usize
    requires { Sited s e unit n }
    ensures { result ≡ leading (left_there s e limit) (2 * n + 1) }
{
    if e.col.0 == 0 {
        return 0;
    }
    let row = e.row.0 as usize;
    let col = e.left.0 as usize;
    edge_reach(s, limit, row, col, e.down, 0, unit, n, e.rows)
}

// Whether the corner of a block is there.
fn corner_there(s: Shifts, e: Site, unit: usize, n: usize, limit: usize) -> bool
    requires { Sited s e unit n }
    ensures { result ≡ corner_there s e limit }
{
    if e.row.0 == 0 {
        return false;
    }
    if e.col.0 == 0 {
        return false;
    }
    number(s, e.above.0 as usize, e.left.0 as usize) < limit
}

// Whether a number is a multiple of a block's side.
fn multiple(v: usize, n: usize) -> bool
    requires { Size n }
    ensures { result ≡ eqb (v % n) 0 }
{
    match n {
        4 => v % 4 == 0,
        8 => v % 8 == 0,
        16 => v % 16 == 0,
        _ => v % 32 == 0,
    }
}

// Whether a block is at a multiple of its side and wholly in its plane.
fn in_plane(height: usize, width: usize, row: u32, col: u32, n: usize) -> bool
    requires { Size n }
    ensures { result ≡ in_plane height width row col n }
{
    let r = row as usize;
    let c = col as usize;
    multiple(r, n) & multiple(c, n) & (r + n <= height) & (c + n <= width)
}

// Whether a luma block has a reach, or why it is refused.
#[tactic(auto, unfolding(crate::specs::Reach::luma_reach_no))]
fn check_luma_block(b: LumaBlock) -> Result<(), Refusal>
    ensures { no_of result ≡ luma_reach_no b }
{
    let p = b.picture;
    let n = b.n;
    if !domain::size_ok(n) {
        return Err(Refusal::Size);
    }
    if !domain::picture_ok(p.width, p.height, p.ctu) {
        return Err(Refusal::Picture);
    }
    let placed = in_plane(p.height as usize, p.width as usize, b.row.0, b.col.0, n);
    if !(placed & (n <= (p.ctu as usize)) & domain::unit_ok(p.unit) & ((p.unit as usize) <= n)) {
        return Err(Refusal::Place);
    }
    Ok(())
}

// The reach of a block over a good grid, below one limit in the row above and the corner, below another in the left column.
fn edges(s: Shifts, e: Site, unit: usize, n: usize, above_limit: usize, left_limit: usize) -> Reach
    requires { Sited s e unit n }
    ensures { there result ≡ edges_of s e n above_limit left_limit }
{
    Reach {
        corner: corner_there(s, e, unit, n, above_limit),
        above: above_reach(s, e, unit, n, above_limit),
        left: left_reach(s, e, unit, n, left_limit),
    }
}

fn luma_site(b: LumaBlock) -> Site
    requires { luma_reach_no b ≡ 0 }
    ensures { result ≡ luma_site b }
{
    let row = b.row;
    let col = b.col;
    let above = LumaRow(row.0.saturating_sub(1));
    let left = LumaCol(col.0.saturating_sub(1));
    Site {
        row,
        col,
        above,
        left,
        down: 1,
        across: 1,
        rows: (b.picture.height - row.0) as usize,
        cols: (b.picture.width - col.0) as usize,
    }
}

fn luma_work(b: LumaBlock) -> Reach
    requires { luma_reach_no b ≡ 0 }
    ensures { there result ≡ reach_by 0 (luma_has b) b.row.0 b.col.0 b.n }
{
    let p = b.picture;
    let s = shifts_of(p);
    let cur = number(s, b.row.0 as usize, b.col.0 as usize);
    edges(s, luma_site(b), p.unit as usize, b.n, cur, cur)
}

// How far the neighbours of a luma block reach that are available to it.
#[tactic(auto, unfolding(crate::specs::Reach::luma_reach), using(domain::specs::Refused::never_0))]
pub fn luma_reach(b: LumaBlock) -> Result<Reach, Refusal>
    ensures { reached result ≡ luma_reach b }
{
    check_luma_block(b)?;
    Ok(luma_work(b))
}

// Whether a format has chroma planes.
fn has_chroma(f: ChromaFormat) -> bool
    ensures { result ≡ has_chroma f }
{
    match f {
        ChromaFormat::Monochrome => false,
        ChromaFormat::Yuv420 => true,
        ChromaFormat::Yuv422 => true,
        ChromaFormat::Yuv444 => true,
    }
}

// Whether a luma place is in the picture, and the unit is one.
fn current_ok(p: Picture, row: LumaRow, col: LumaCol) -> bool
    ensures { result ≡ place_ok p row.0 col.0 }
{
    domain::unit_ok(p.unit) & (row.0 < p.height) & (col.0 < p.width)
}

// Whether a chroma block is in its plane and no wider than a CTU there.
fn chroma_block_ok(p: Picture, f: ChromaFormat, row: ChromaRow, col: ChromaCol, n: usize) -> bool
    requires { Size n }
    ensures { result ≡ chroma_block_ok p f row.0 col.0 n }
{
    let height = f.chroma_row(LumaRow(p.height));
    let width = f.chroma_col(LumaCol(p.width));
    let ctu = f.chroma_col(LumaCol(p.ctu));
    let placed = in_plane(height.0 as usize, width.0 as usize, row.0, col.0, n);
    placed & (n <= (ctu.0 as usize))
}

// Whether a chroma block has a reach, or why it is refused.
#[tactic(auto, unfolding(crate::specs::Reach::chroma_reach_no))]
fn check_chroma_block(b: ChromaBlock) -> Result<(), Refusal>
    ensures { no_of result ≡ chroma_reach_no b }
{
    let p = b.picture;
    let f = b.format;
    let n = b.n;
    if !domain::size_ok(n) {
        return Err(Refusal::Size);
    }
    if !(domain::picture_ok(p.width, p.height, p.ctu) & has_chroma(f)) {
        return Err(Refusal::Picture);
    }
    let row = b.row;
    let col = b.col;
    let cur_row = b.cur_luma_row;
    let cur_col = b.cur_luma_col;
    if !(chroma_block_ok(p, f, row, col, n) & current_ok(p, cur_row, cur_col)) {
        return Err(Refusal::Place);
    }
    Ok(())
}

fn chroma_site(b: ChromaBlock) -> Site
    requires { chroma_reach_no b ≡ 0 }
    ensures { result ≡ chroma_site b }
{
    let f = b.format;
    let height = f.chroma_row(LumaRow(b.picture.height));
    let width = f.chroma_col(LumaCol(b.picture.width));
    let row = f.luma_row(b.row);
    let col = f.luma_col(b.col);
    let above = f.luma_row(ChromaRow(b.row.0.saturating_sub(1)));
    let left = f.luma_col(ChromaCol(b.col.0.saturating_sub(1)));
    Site {
        row,
        col,
        above,
        left,
        down: f.sub_h(),
        across: f.sub_w(),
        rows: (height.0 - b.row.0) as usize,
        cols: (width.0 - b.col.0) as usize,
    }
}

fn chroma_work(b: ChromaBlock) -> Reach
    requires { chroma_reach_no b ≡ 0 }
    ensures { there result ≡ reach_by 0 (chroma_has b) b.row.0 b.col.0 b.n }
{
    let p = b.picture;
    let s = shifts_of(p);
    let cur = number(s, b.cur_luma_row.0 as usize, b.cur_luma_col.0 as usize);
    let above_limit = cur + 1;
    edges(s, chroma_site(b), p.unit as usize, b.n, above_limit, cur)
}

// How far the neighbours of a chroma block reach that the chroma rule has for it.
#[tactic(auto, unfolding(crate::specs::Reach::chroma_reach), using(domain::specs::Refused::never_0))]
pub fn chroma_reach(b: ChromaBlock) -> Result<Reach, Refusal>
    ensures { reached result ≡ chroma_reach b }
{
    check_chroma_block(b)?;
    Ok(chroma_work(b))
}
