// Reference samples: the luma gather and the chroma pair gather (document 01, modules 3 and 4).
// Rests on the contracts of order (which neighbours are there) and on substitution; a sample's value never says whether it is there.
#![tactic(auto)]

pub mod substitution;

ghost use Rattle.std.specs.Prelude.{◌≡◌, ℕ, ◌+◌, ◌-◌, ◌*◌, ◌≤◌, ◌<◌, length, Ok, IfOk};
ghost use Rattle.domain.specs.Refusal.{no_of};
ghost use Rattle.laws.specs.Fill.{fill};
ghost use Rattle.order.specs.Answers.{there};
ghost use Rattle.order.specs.Reach.{luma_reach, chroma_reach};
ghost use Rattle.refs.specs.Answers.{gathered, gathered_pair, laid};
ghost use Rattle.refs.specs.Door.{luma_block, luma_no, luma_rows, get_reference_samples, format_of, chroma_block, chroma_no, chroma_pair};
ghost use Rattle.refs.specs.Door.{get_reference_samples_chroma_pair};
ghost use Rattle.refs.specs.Served.{gather_no};
ghost use Rattle.refs.specs.substitution.Line.{rest_by};
ghost use Rattle.refs.specs.Spots.{spot_of, luma_spot, chroma_spot, luma_layout, chroma_layout, on_edge, corner_on, plane_rows, Few, Reads};
ghost use Rattle.refs.specs.Seen.{corner_seen, entry_in, padded, with_corner, pad_rows};

use domain::refusal::Refusal;
use domain::rows;
use domain::rows::Rows;
use fmt::{ChromaCol, ChromaFormat, ChromaRow, LumaCol, LumaRow, depth};
use order::{ChromaBlock, LumaBlock, Picture, Reach};

// A luma block in its picture; stride, CTUs in a row and the neutral sample are worked out.
#[derive(Clone, Copy)]
pub struct LumaRefGeometry {
    pub bits: u32,
    pub picture: Picture,
    pub block_row: LumaRow,
    pub block_col: LumaCol,
    pub n: usize,
}

// A chroma block in its picture, and the luma place that is being decoded; the format is a chroma_format_idc.
#[derive(Clone, Copy)]
pub struct ChromaRefGeometry {
    pub bits: u32,
    pub format: u32,
    pub luma_w: u32,
    pub luma_h: u32,
    pub ctu: u32,
    pub min_luma_pu: u32,
    pub block_row: ChromaRow,
    pub block_col: ChromaCol,
    pub n: usize,
    pub cur_luma_row: LumaRow,
    pub cur_luma_col: LumaCol,
}

// Where a block's neighbours stand in a plane: the corner, entry 0 of the row above and entry 0 of the left column, and the plane's
// width.
#[derive(Clone, Copy)]
pub struct Spot {
    pub corner: usize,
    pub above: usize,
    pub left: usize,
    pub width: usize,
}

// Numbers of 32 bits: no product can pass the type's end.
fn spot_of(width: u32, row: u32, col: u32) -> Spot
    ensures { result ≡ spot_of width row col }
{
    let across = width as usize;
    let down = row as usize;
    let along = col as usize;
    let up = down.saturating_sub(1) * across;
    let aside = along.saturating_sub(1);
    Spot {
        corner: up + aside,
        above: up + along,
        left: down * across + aside,
        width: across,
    }
}

// Reads the first `have` entries of an edge out of the plane, each `step` samples further.
#[tactic(auto, using(laws::specs::FillLaws::fill_none, laws::specs::FillLaws::fill_more))]
fn edge(plane: &[u16], at: usize, step: usize, have: usize, out: &mut [u16])
    requires { (have ≤ length out.old) × ((i : ℕ) → i < have → at + i * step < length plane.now) }
    ensures { out.new ≡ fill (on_edge plane.now at step) have out.old }
{
    for i in 0..have {
        out[i] = plane[at + i * step];
    }
}

// The corner where it is there, else 0.
fn corner_seen(plane: &[u16], s: Spot, r: Reach, n: usize) -> u16
    requires { Reads r s (length plane.now) n }
    ensures { result ≡ corner_seen r (corner_on plane.now s) }
{
    let at = s.corner;
    if r.corner { plane[at] } else { 0 }
}

// The last entry that is there, or another sample where none is.
fn last_of(row: &[u16], have: usize, other: u16) -> u16
    requires { have ≤ length row.now }
    ensures { result ≡ rest_by have (entry_in row.now) other }
{
    if have > 0 { row[have - 1] } else { other }
}

// Puts `rest` into a row's entries from `have` on, up to `count`.
#[tactic(auto, using(crate::specs::Seen::padded_by))]
fn pad(row: &mut [u16], have: usize, count: usize, rest: u16)
    requires { (have ≤ count) × (count ≤ length row.old) }
    ensures { row.new ≡ padded count have rest row.old }
{
    row[have..count].fill(rest);
}

// Completes a plane's two rows, above and left, of what was read, where a neighbour is there, and gives the corner: what stands before the
// first sample that is there is that sample, a missing corner takes left[0], and what stands after the last one of the row above is
// that one, or the corner. The rows are lent: by value they would go through memory once more.
fn pad_rows(two: &mut [[u16; 65]; 2], seen: u16, r: Reach, n: usize) -> u16
    requires { Few r n × (length two.old ≡ 2) }
    ensures { with_corner result two.new ≡ pad_rows r (with_corner seen two.old) n }
{
    let before = substitution::choose(r.corner, seen, two[0][0]);
    let start = last_of(&two[1], r.left, before);
    let beside = substitution::choose(r.left > 0, two[1][0], start);
    let corner = substitution::choose(r.corner, seen, beside);
    let rest = last_of(&two[0], r.above, corner);
    pad(&mut two[0], r.above, 2 * n + 1, rest);
    pad(&mut two[1], r.left, 2 * n + 1, start);
    corner
}

// A plane's two rows, above and left, with their corner.
fn with_corner(corner: u16, two: [[u16; 65]; 2]) -> Rows
    ensures { result ≡ with_corner corner two }
{
    Rows {
        corner,
        above: two[0],
        left: two[1],
    }
}

// The rows of a plane, from how far the neighbours reach. Built into the doors, as what calls it is: each call that is left copies the
// rows once more, and a luma gather takes 40 ns longer.
#[inline(always)]
fn plane_rows(plane: &[u16], s: Spot, r: Reach, n: usize, neutral: u16) -> Rows
    requires { Reads r s (length plane.now) n }
    ensures { result ≡ plane_rows plane.now s r n neutral }
{
    if !((r.left > 0) | r.corner | (r.above > 0)) {
        return rows::level_rows(neutral);
    }
    let mut two = [[0u16; 65]; 2];
    edge(plane, s.above, 1, r.above, &mut two[0]);
    edge(plane, s.left, s.width, r.left, &mut two[1]);
    let seen = corner_seen(plane, s, r, n);
    let corner = pad_rows(&mut two, seen, r, n);
    with_corner(corner, two)
}

// How far the neighbours of a gather's block reach, or why the gather is refused: its depth, then the block's size or picture, then its
// planes, then the block's place.
pub fn check_gather(bits: u32, reach: Result<Reach, Refusal>, whole: bool) -> Result<Reach, Refusal>
    ensures { (no_of result ≡ gather_no bits (no_of reach) whole) × IfOk result (λ r. reach ≡ Ok r) }
{
    if !domain::depth_ok(bits) {
        return Err(Refusal::Depth);
    }
    if whole {
        return reach;
    }
    match reach {
        Err(Refusal::Size) => reach,
        Err(Refusal::Picture) => reach,
        _ => Err(Refusal::Buffer),
    }
}

// What a gather goes by: how far its block's neighbours reach or why they are not asked, where they stand, how many samples a plane has.
#[derive(Clone, Copy)]
pub struct Layout {
    pub reach: Result<Reach, Refusal>,
    pub spot: Spot,
    pub length: usize,
}

// The number of samples in so many rows of so many columns.
fn area(height: u32, width: u32) -> usize
    ensures { result ≡ height * width }
{
    (height as usize) * (width as usize)
}

// Built into the gathers: as a call it copies the layout once more, and a gather takes more stack.
#[inline(always)]
pub fn luma_layout(geo: LumaRefGeometry) -> Layout
    ensures { laid result ≡ luma_layout geo }
{
    let picture = geo.picture;
    let row = geo.block_row;
    let col = geo.block_col;
    let block = LumaBlock {
        picture,
        row,
        col,
        n: geo.n,
    };
    let reach = order::luma_reach(block);
    let spot = spot_of(picture.width, row.0, col.0);
    let length = area(picture.height, picture.width);
    Layout {
        reach,
        spot,
        length,
    }
}

#[inline(always)]
fn luma_rows(plane: &[u16], geo: LumaRefGeometry, s: Spot, r: Reach) -> Rows
    requires { (s ≡ luma_spot geo) × (there r ≡ luma_reach (luma_block geo)) × (luma_no (length plane.now) geo ≡ 0) }
    ensures { result ≡ luma_rows plane.now geo }
{
    plane_rows(plane, s, r, geo.n, depth::neutral_of(geo.bits))
}

// The reference rows of a luma block (document 01, module 4).
#[inline(always)]
pub fn get_reference_samples(plane: &[u16], geo: LumaRefGeometry) -> Result<Rows, Refusal>
    ensures { gathered result ≡ get_reference_samples plane.now geo }
{
    let l = luma_layout(geo);
    let reach = check_gather(geo.bits, l.reach, plane.len() == l.length)?;
    Ok(luma_rows(plane, geo, l.spot, reach))
}

// The format that a chroma_format_idc names; monochrome where it names none, which is refused as monochrome is.
fn format_of(idc: u32) -> ChromaFormat
    ensures { result ≡ format_of idc }
{
    match ChromaFormat::from_idc(idc) {
        Some(f) => f,
        None => ChromaFormat::Monochrome,
    }
}

// The block of a chroma gather.
fn chroma_block(geo: ChromaRefGeometry) -> ChromaBlock
    ensures { result ≡ chroma_block geo }
{
    let picture = Picture {
        width: geo.luma_w,
        height: geo.luma_h,
        ctu: geo.ctu,
        unit: geo.min_luma_pu,
    };
    let format = format_of(geo.format);
    let row = geo.block_row;
    let col = geo.block_col;
    let cur_luma_row = geo.cur_luma_row;
    let cur_luma_col = geo.cur_luma_col;
    ChromaBlock {
        picture,
        format,
        row,
        col,
        n: geo.n,
        cur_luma_row,
        cur_luma_col,
    }
}

// The planes' sides are the first row and the first column past them.
pub fn chroma_layout(geo: ChromaRefGeometry) -> Layout
    ensures { laid result ≡ chroma_layout geo }
{
    let block = chroma_block(geo);
    let format = block.format;
    let height = format.chroma_row(LumaRow(geo.luma_h));
    let width = format.chroma_col(LumaCol(geo.luma_w));
    let reach = order::chroma_reach(block);
    let spot = spot_of(width.0, geo.block_row.0, geo.block_col.0);
    let length = area(height.0, width.0);
    Layout {
        reach,
        spot,
        length,
    }
}

// The rows of Cb and of Cr: one layout for both.
fn chroma_pair(
    plane_cb: &[u16],
    plane_cr: &[u16],
    geo: ChromaRefGeometry,
    s: Spot,
    reach: Reach,
) -> [Rows; 2]
    requires { (s ≡ chroma_spot geo) × (there reach ≡ chroma_reach (chroma_block geo))
        × (chroma_no (length plane_cb.now) (length plane_cr.now) geo ≡ 0) }
    ensures { result ≡ chroma_pair plane_cb.now plane_cr.now geo }
{
    let neutral = depth::neutral_of(geo.bits);
    let n = geo.n;
    let cb = plane_rows(plane_cb, s, reach, n, neutral);
    let cr = plane_rows(plane_cr, s, reach, n, neutral);
    [cb, cr]
}

// The reference rows of a chroma block in both planes, by one pass over its neighbours (document 01, module 4).
pub fn get_reference_samples_chroma_pair(
    plane_cb: &[u16],
    plane_cr: &[u16],
    geo: ChromaRefGeometry,
) -> Result<[Rows; 2], Refusal>
    ensures { gathered_pair result ≡ get_reference_samples_chroma_pair plane_cb.now plane_cr.now geo }
{
    let l = chroma_layout(geo);
    let whole = (plane_cb.len() == l.length) & (plane_cr.len() == l.length);
    let reach = check_gather(geo.bits, l.reach, whole)?;
    Ok(chroma_pair(plane_cb, plane_cr, geo, l.spot, reach))
}
