// The entries that the tests call from C and Rust, which libprobes.a has: each is the function of the same name in probes, with its clauses
// again. A crate of its own, since one is built as a library or as an archive.
#![tactic(auto)]

mod error_probes;
mod predict_probes;
mod walk_probes;

ghost use Rattle.std.specs.Prelude.{◌≡◌};
ghost use Rattle.probes.specs.Probes.{depth_figures, format_figures, on_luma, on_chroma, order_answer, available_answer};
ghost use Rattle.probes.specs.Probes.{rule_answer, filter_answer, luma_answer};
ghost use Rattle.probes.specs.Probes.{rows_with, flags_with, substitute_answer, gather_answer, pair_answer};
ghost use Rattle.checksum.specs.Checksum.{row_range};
ghost use Rattle.probes.specs.Probes.{checksum_answer};
ghost use Rattle.refs.specs.Door.{luma_geometry, chroma_geometry};

use probes::{Answer, DepthFigures, FormatFigures, PairReferences, Place, References, TwoRows};

#[unsafe(no_mangle)]
pub extern "C" fn salvrunde_probe_depth(bits: u32) -> DepthFigures
    ensures { result ≡ depth_figures bits }
{
    probes::salvrunde_probe_depth(bits)
}

#[unsafe(no_mangle)]
pub extern "C" fn salvrunde_probe_format(idc: u32) -> FormatFigures
    ensures { result ≡ format_figures idc }
{
    probes::salvrunde_probe_format(idc)
}

#[unsafe(no_mangle)]
pub extern "C" fn salvrunde_probe_on_luma(idc: u32, row: u32, col: u32) -> Place
    ensures { result ≡ on_luma idc row col }
{
    probes::salvrunde_probe_on_luma(idc, row, col)
}

#[unsafe(no_mangle)]
pub extern "C" fn salvrunde_probe_on_chroma(idc: u32, row: u32, col: u32) -> Place
    ensures { result ≡ on_chroma idc row col }
{
    probes::salvrunde_probe_on_chroma(idc, row, col)
}

#[unsafe(no_mangle)]
pub extern "C" fn salvrunde_probe_decode_order(
    row: u32,
    col: u32,
    width: u32,
    height: u32,
    ctu: u32,
    unit: u32,
) -> Answer
    ensures { result ≡ order_answer row col width height ctu unit }
{
    probes::salvrunde_probe_decode_order(row, col, width, height, ctu, unit)
}

#[unsafe(no_mangle)]
pub extern "C" fn salvrunde_probe_is_available(
    nr: i64,
    nc: i64,
    row: u32,
    col: u32,
    width: u32,
    height: u32,
    ctu: u32,
    unit: u32,
) -> Answer
    ensures { result ≡ available_answer nr nc row col width height ctu unit }
{
    probes::salvrunde_probe_is_available(nr, nc, row, col, width, height, ctu, unit)
}

#[unsafe(no_mangle)]
pub extern "C" fn salvrunde_probe_should_filter_refs(mode: u8, n: usize) -> Answer
    ensures { result ≡ rule_answer mode n }
{
    probes::salvrunde_probe_should_filter_refs(mode, n)
}

#[unsafe(no_mangle)]
pub extern "C" fn salvrunde_probe_filter_references(
    corner: u16,
    above: &[u16],
    left: &[u16],
    n: usize,
) -> TwoRows
    ensures { result ≡ filter_answer corner above.now left.now n }
{
    probes::salvrunde_probe_filter_references(corner, above, left, n)
}

#[unsafe(no_mangle)]
pub extern "C" fn salvrunde_probe_filter_luma_refs(
    corner: u16,
    above: &[u16],
    left: &[u16],
    n: usize,
    bits: u32,
) -> References
    ensures { result ≡ luma_answer corner above.now left.now n bits }
{
    probes::salvrunde_probe_filter_luma_refs(corner, above, left, n, bits)
}

#[unsafe(no_mangle)]
pub extern "C" fn salvrunde_probe_substitute_refs(
    corner: u16,
    above: &[u16; 65],
    left: &[u16; 65],
    has_corner: bool,
    has_above: &[bool; 65],
    has_left: &[bool; 65],
    n: usize,
    bits: u32,
) -> References
    ensures { result ≡ substitute_answer (rows_with corner above.now left.now)
        (flags_with has_corner has_above.now has_left.now) n bits }
{
    probes::salvrunde_probe_substitute_refs(
        corner, above, left, has_corner, has_above, has_left, n, bits,
    )
}

#[unsafe(no_mangle)]
pub extern "C" fn salvrunde_probe_get_reference_samples(
    plane: &[u16],
    bits: u32,
    width: u32,
    height: u32,
    ctu: u32,
    unit: u32,
    row: u32,
    col: u32,
    n: usize,
) -> References
    ensures { result ≡ gather_answer plane.now (luma_geometry bits width height ctu unit row col n) }
{
    probes::salvrunde_probe_get_reference_samples(
        plane, bits, width, height, ctu, unit, row, col, n,
    )
}

#[unsafe(no_mangle)]
pub extern "C" fn salvrunde_probe_get_reference_samples_chroma_pair(
    plane_cb: &[u16],
    plane_cr: &[u16],
    bits: u32,
    format: u32,
    luma_w: u32,
    luma_h: u32,
    ctu: u32,
    min_luma_pu: u32,
    row: u32,
    col: u32,
    n: usize,
    cur_row: u32,
    cur_col: u32,
) -> PairReferences
    ensures { result ≡ pair_answer plane_cb.now plane_cr.now
        (chroma_geometry bits format luma_w luma_h ctu min_luma_pu row col n cur_row cur_col) }
{
    probes::salvrunde_probe_get_reference_samples_chroma_pair(
        plane_cb,
        plane_cr,
        bits,
        format,
        luma_w,
        luma_h,
        ctu,
        min_luma_pu,
        row,
        col,
        n,
        cur_row,
        cur_col,
    )
}

#[unsafe(no_mangle)]
pub extern "C" fn salvrunde_probe_picture_checksum(
    bits: u32,
    width: u32,
    height: u32,
    first: u32,
    end: u32,
    sum: u32,
    plane: &[u16],
) -> Answer
    ensures { result ≡ checksum_answer (row_range bits width height first end) plane.now sum }
{
    probes::salvrunde_probe_picture_checksum(bits, width, height, first, end, sum, plane)
}
