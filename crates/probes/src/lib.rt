// Entries at native types for the runs of the rules of fmt, order, smoothing and gathering against the Rust, and of the checksum against
// the standard: each calls a door and hands its answer over as plain numbers. Rests on the doors' contracts.
#![tactic(auto)]

pub mod error_probes;
pub mod predict_probes;
pub mod walk_probes;

ghost use Rattle.std.specs.Prelude.{◌≡◌, [], ◌∷◌};
ghost use Rattle.probes.specs.Probes.{depth_figures, format_figures, on_luma, on_chroma, order_answer, available_answer};
ghost use Rattle.probes.specs.Probes.{rule_answer, filter_answer, luma_answer};
ghost use Rattle.probes.specs.Probes.{gathered_of, pair_references_of};
ghost use Rattle.probes.specs.Probes.{rows_with, flags_with, substitute_answer, gather_answer, pair_answer};
ghost use Rattle.refs.specs.Answers.{gathered};
ghost use Rattle.checksum.specs.Checksum.{row_range};
ghost use Rattle.probes.specs.Probes.{checksum_answer};
ghost use Rattle.refs.specs.Door.{luma_geometry, chroma_geometry};

use checksum::RowRange;
use domain::refusal::Refusal;
use domain::rows;
use domain::rows::Rows;
use fmt::depth::BitDepth;
use fmt::{ChromaCol, ChromaFormat, ChromaRow, LumaCol, LumaRow};
use order::{LumaNeighbour, Picture};
use refs::substitution::Flags;
use refs::{ChromaRefGeometry, LumaRefGeometry, substitution};

// A depth's figures, all 0 where the call is refused.
#[repr(C)]
#[derive(Clone, Copy)]
pub struct DepthFigures {
    pub no: u32,
    pub bits: u32,
    pub largest: u32,
    pub neutral: u32,
}

#[unsafe(no_mangle)]
pub extern "C" fn salvrunde_probe_depth(bits: u32) -> DepthFigures
    ensures { result ≡ depth_figures bits }
{
    match BitDepth::from_bits(bits) {
        Ok(d) => DepthFigures {
            no: 0,
            bits: d.bits() as u32,
            largest: d.max_val() as u32,
            neutral: d.neutral() as u32,
        },
        Err(why) => DepthFigures {
            no: why.number(),
            bits: 0,
            largest: 0,
            neutral: 0,
        },
    }
}

// A format's subsampling, and whether the number names a format.
#[repr(C)]
#[derive(Clone, Copy)]
pub struct FormatFigures {
    pub known: u32,
    pub across: u32,
    pub down: u32,
}

#[unsafe(no_mangle)]
pub extern "C" fn salvrunde_probe_format(idc: u32) -> FormatFigures
    ensures { result ≡ format_figures idc }
{
    match ChromaFormat::from_idc(idc) {
        Some(f) => FormatFigures {
            known: 1,
            across: f.sub_w() as u32,
            down: f.sub_h() as u32,
        },
        None => FormatFigures {
            known: 0,
            across: 1,
            down: 1,
        },
    }
}

// A place, and whether the number names a format; 0 where it does not.
#[repr(C)]
#[derive(Clone, Copy)]
pub struct Place {
    pub known: u32,
    pub row: u32,
    pub col: u32,
}

// The luma place of a chroma place.
#[unsafe(no_mangle)]
pub extern "C" fn salvrunde_probe_on_luma(idc: u32, row: u32, col: u32) -> Place
    ensures { result ≡ on_luma idc row col }
{
    match ChromaFormat::from_idc(idc) {
        Some(f) => {
            let r = f.luma_row(ChromaRow(row));
            let c = f.luma_col(ChromaCol(col));
            Place {
                known: 1,
                row: r.0,
                col: c.0,
            }
        }
        None => Place {
            known: 0,
            row: 0,
            col: 0,
        },
    }
}

// The chroma place of a luma place.
#[unsafe(no_mangle)]
pub extern "C" fn salvrunde_probe_on_chroma(idc: u32, row: u32, col: u32) -> Place
    ensures { result ≡ on_chroma idc row col }
{
    match ChromaFormat::from_idc(idc) {
        Some(f) => {
            let r = f.chroma_row(LumaRow(row));
            let c = f.chroma_col(LumaCol(col));
            Place {
                known: 1,
                row: r.0,
                col: c.0,
            }
        }
        None => Place {
            known: 0,
            row: 0,
            col: 0,
        },
    }
}

// A call's number, and its value, 0 where it is refused.
#[repr(C)]
#[derive(Clone, Copy)]
pub struct Answer {
    pub no: u32,
    pub value: u32,
}

#[unsafe(no_mangle)]
pub extern "C" fn salvrunde_probe_decode_order(
    row: u32,
    col: u32,
    width: u32,
    height: u32,
    ctu: u32,
    unit: u32,
) -> Answer
    ensures { result ≡ order_answer row col width height ctu unit }
{
    let picture = Picture {
        width,
        height,
        ctu,
        unit,
    };
    match order::decode_order(LumaRow(row), LumaCol(col), picture) {
        Ok(value) => Answer { no: 0, value },
        Err(why) => Answer {
            no: why.number(),
            value: 0,
        },
    }
}

// The neighbour's place first, then the block's.
#[unsafe(no_mangle)]
pub extern "C" fn salvrunde_probe_is_available(
    nr: i64,
    nc: i64,
    row: u32,
    col: u32,
    width: u32,
    height: u32,
    ctu: u32,
    unit: u32,
) -> Answer
    ensures { result ≡ available_answer nr nc row col width height ctu unit }
{
    let at = LumaNeighbour { row: nr, col: nc };
    let picture = Picture {
        width,
        height,
        ctu,
        unit,
    };
    match order::is_available(at, LumaRow(row), LumaCol(col), picture) {
        Ok(yes) => Answer {
            no: 0,
            value: yes as u32,
        },
        Err(why) => Answer {
            no: why.number(),
            value: 0,
        },
    }
}

// Whether the references are smoothed: 1 or 0.
#[unsafe(no_mangle)]
pub extern "C" fn salvrunde_probe_should_filter_refs(mode: u8, n: usize) -> Answer
    ensures { result ≡ rule_answer mode n }
{
    match smooth::should_filter_refs(mode, n) {
        Ok(yes) => Answer {
            no: 0,
            value: yes as u32,
        },
        Err(why) => Answer {
            no: why.number(),
            value: 0,
        },
    }
}

// A call's number, and two rows, zeros where it is refused.
#[repr(C)]
#[derive(Drop)]
pub struct TwoRows {
    pub no: u32,
    pub above: [u16; 65],
    pub left: [u16; 65],
}

#[unsafe(no_mangle)]
pub extern "C" fn salvrunde_probe_filter_references(
    corner: u16,
    above: &[u16],
    left: &[u16],
    n: usize,
) -> TwoRows
    ensures { result ≡ filter_answer corner above.now left.now n }
{
    match smooth::filter_references(corner, above, left, n) {
        Ok(rows) => {
            let above = rows.above;
            let left = rows.left;
            TwoRows { no: 0, above, left }
        }
        Err(why) => TwoRows {
            no: why.number(),
            above: [0u16; 65],
            left: [0u16; 65],
        },
    }
}

// A call's number, and the corner and two rows, zeros where it is refused.
#[repr(C)]
#[derive(Drop)]
pub struct References {
    pub no: u32,
    pub corner: u16,
    pub above: [u16; 65],
    pub left: [u16; 65],
}

#[unsafe(no_mangle)]
pub extern "C" fn salvrunde_probe_filter_luma_refs(
    corner: u16,
    above: &[u16],
    left: &[u16],
    n: usize,
    bits: u32,
) -> References
    ensures { result ≡ luma_answer corner above.now left.now n bits }
{
    references_of(smooth::filter_luma_refs(corner, above, left, n, bits))
}

// What smoothing, a gather and substitution answer.
fn references_of(answer: Result<Rows, Refusal>) -> References
    ensures { result ≡ gathered_of (gathered answer) }
{
    match answer {
        Ok(rows) => {
            let above = rows.above;
            let left = rows.left;
            References {
                no: 0,
                corner: rows.corner,
                above,
                left,
            }
        }
        Err(why) => References {
            no: why.number(),
            corner: 0,
            above: [0; 65],
            left: [0; 65],
        },
    }
}

// The corner of the rows and its flag come first, then the rows and theirs.
#[unsafe(no_mangle)]
pub extern "C" fn salvrunde_probe_substitute_refs(
    corner: u16,
    above: &[u16; 65],
    left: &[u16; 65],
    has_corner: bool,
    has_above: &[bool; 65],
    has_left: &[bool; 65],
    n: usize,
    bits: u32,
) -> References
    ensures { result ≡ substitute_answer (rows_with corner above.now left.now)
        (flags_with has_corner has_above.now has_left.now) n bits }
{
    let rows = Rows {
        corner,
        above: *above,
        left: *left,
    };
    let flags = Flags {
        corner: has_corner,
        above: *has_above,
        left: *has_left,
    };
    references_of(substitution::substitute_refs(rows, flags, n, bits))
}

#[unsafe(no_mangle)]
pub extern "C" fn salvrunde_probe_get_reference_samples(
    plane: &[u16],
    bits: u32,
    width: u32,
    height: u32,
    ctu: u32,
    unit: u32,
    row: u32,
    col: u32,
    n: usize,
) -> References
    ensures { result ≡ gather_answer plane.now (luma_geometry bits width height ctu unit row col n) }
{
    let picture = Picture {
        width,
        height,
        ctu,
        unit,
    };
    let geo = LumaRefGeometry {
        bits,
        picture,
        block_row: LumaRow(row),
        block_col: LumaCol(col),
        n,
    };
    references_of(refs::get_reference_samples(plane, geo))
}

// A call's number, and the corner and two rows of Cb and of Cr, zeros where it is refused.
#[repr(C)]
#[derive(Drop)]
pub struct PairReferences {
    pub no: u32,
    pub cb_corner: u16,
    pub cb_above: [u16; 65],
    pub cb_left: [u16; 65],
    pub cr_corner: u16,
    pub cr_above: [u16; 65],
    pub cr_left: [u16; 65],
}

// A number and two planes' rows, side by side.
fn pair_of(no: u32, cb: Rows, cr: Rows) -> PairReferences
    ensures { result ≡ pair_references_of (record { no = no; planes = cb ∷ cr ∷ [] }) }
{
    let cb_above = cb.above;
    let cb_left = cb.left;
    let cr_above = cr.above;
    let cr_left = cr.left;
    PairReferences {
        no,
        cb_corner: cb.corner,
        cb_above,
        cb_left,
        cr_corner: cr.corner,
        cr_above,
        cr_left,
    }
}

// The block's chroma place, then the luma place that is being decoded.
#[unsafe(no_mangle)]
pub extern "C" fn salvrunde_probe_get_reference_samples_chroma_pair(
    plane_cb: &[u16],
    plane_cr: &[u16],
    bits: u32,
    format: u32,
    luma_w: u32,
    luma_h: u32,
    ctu: u32,
    min_luma_pu: u32,
    row: u32,
    col: u32,
    n: usize,
    cur_row: u32,
    cur_col: u32,
) -> PairReferences
    ensures { result ≡ pair_answer plane_cb.now plane_cr.now
        (chroma_geometry bits format luma_w luma_h ctu min_luma_pu row col n cur_row cur_col) }
{
    let geo = ChromaRefGeometry {
        bits,
        format,
        luma_w,
        luma_h,
        ctu,
        min_luma_pu,
        block_row: ChromaRow(row),
        block_col: ChromaCol(col),
        n,
        cur_luma_row: LumaRow(cur_row),
        cur_luma_col: LumaCol(cur_col),
    };
    match refs::get_reference_samples_chroma_pair(plane_cb, plane_cr, geo) {
        Ok(planes) => pair_of(0, planes[0], planes[1]),
        Err(why) => pair_of(why.number(), rows::level_rows(0), rows::level_rows(0)),
    }
}

#[unsafe(no_mangle)]
pub extern "C" fn salvrunde_probe_picture_checksum(
    bits: u32,
    width: u32,
    height: u32,
    first: u32,
    end: u32,
    sum: u32,
    plane: &[u16],
) -> Answer
    ensures { result ≡ checksum_answer (row_range bits width height first end) plane.now sum }
{
    let range = RowRange {
        bits,
        width,
        height,
        first,
        end,
    };
    match checksum::picture_checksum(plane, range, sum) {
        Ok(value) => Answer { no: 0, value },
        Err(why) => Answer {
            no: why.number(),
            value: 0,
        },
    }
}
