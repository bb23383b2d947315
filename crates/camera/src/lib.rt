// What the camera's C firmware calls: gathering, prediction, choice, replay and checksum on numbers and byte slices, samples of two bytes,
// the lower first. Each entry gives back its number, and writes nothing where it refuses. Rests on the doors' contracts and on how rows
// are stored.
#![tactic(auto)]

mod bytes;
mod choice;
mod gather;
mod luma;
mod prediction;
mod replay;
mod sums;

ghost use Rattle.std.specs.Prelude.{◌≡◌};
ghost use Rattle.refs.specs.Door.{luma_geometry, chroma_geometry};
ghost use Rattle.camera.specs.replay.Door.{replayed};
ghost use Rattle.camera.specs.Written.{wrote};
ghost use Rattle.camera.specs.prediction.Entries.{planar_entry, dc_entry, angular_entry, chroma_block_entry};
ghost use Rattle.camera.specs.prediction.Entries.{luma_block_entry};
ghost use Rattle.camera.specs.gather.Entry.{luma_entry, chroma_entry};
ghost use Rattle.checksum.specs.Checksum.{row_range};
ghost use Rattle.camera.specs.sums.Entry.{checksum_entry};
ghost use Rattle.camera.specs.choice.Entry.{choice_no, choice_sums, ChoosesInto};
ghost use Rattle.errors.specs.RecordBytes.{entered, count_entry, join_entry};

use checksum::RowRange;
use domain::refusal::no_of;
use errors::record;
use fmt::{ChromaCol, ChromaRow, LumaCol, LumaRow};
use order::Picture;
use plan::tiling::Frame;
use refs::{ChromaRefGeometry, LumaRefGeometry};
use walk::checks::Still;

// The reference rows of a luma block, out of a plane of exactly 2 · width · height bytes: the corner, 65 samples above, 65 samples left,
// in the first 262 bytes of `out`. Numbers 1, 2, 4, 5, 6.
#[unsafe(no_mangle)]
pub extern "C" fn salvrunde_luma_refs(
    bits: u32,
    width: u32,
    height: u32,
    ctu: u32,
    unit: u32,
    row: u32,
    col: u32,
    n: u32,
    plane: &[u8],
    out: &mut [u8],
) -> u32
    ensures { wrote result out.new ≡ luma_entry plane.now (luma_geometry bits width height ctu
        unit row col n) out.old }
{
    let picture = Picture {
        width,
        height,
        ctu,
        unit,
    };
    let geo = LumaRefGeometry {
        bits,
        picture,
        block_row: LumaRow(row),
        block_col: LumaCol(col),
        n: n as usize,
    };
    no_of(gather::store_reference_samples(plane, geo, out))
}

// The reference rows of a chroma block, out of the planes of Cb and of Cr: Cb's corner, above and left in the first 262 bytes of `out`,
// Cr's in the next 262. The format is a chroma_format_idc; the current place is in luma samples. Numbers 1, 2, 4, 5, 6. Its name says that
// it takes the CTU: a caller of the entry that did not cannot be linked to it.
#[unsafe(no_mangle)]
pub extern "C" fn salvrunde_chroma_refs_ctu(
    bits: u32,
    format: u32,
    luma_width: u32,
    luma_height: u32,
    ctu: u32,
    unit: u32,
    row: u32,
    col: u32,
    n: u32,
    cur_luma_row: u32,
    cur_luma_col: u32,
    cb: &[u8],
    cr: &[u8],
    out: &mut [u8],
) -> u32
    ensures { wrote result out.new ≡ chroma_entry cb.now cr.now (chroma_geometry bits
        format luma_width luma_height ctu unit row col n cur_luma_row cur_luma_col) out.old }
{
    let geo = ChromaRefGeometry {
        bits,
        format,
        luma_w: luma_width,
        luma_h: luma_height,
        ctu,
        min_luma_pu: unit,
        block_row: ChromaRow(row),
        block_col: ChromaCol(col),
        n: n as usize,
        cur_luma_row: LumaRow(cur_luma_row),
        cur_luma_col: LumaCol(cur_luma_col),
    };
    no_of(gather::store_reference_samples_chroma_pair(cb, cr, geo, out))
}

// The planar block of side n, in rows, in the first 2 · n · n bytes of `out`; each row has at least 4 · n bytes. Numbers 2, 5.
#[unsafe(no_mangle)]
pub extern "C" fn salvrunde_planar(n: u32, above: &[u8], left: &[u8], out: &mut [u8]) -> u32
    ensures { wrote result out.new ≡ planar_entry n above.now left.now out.old }
{
    no_of(prediction::planar(n, above, left, out))
}

// The DC block; an edge flag that is not 0 asks for filtered edges. Numbers 2, 5.
#[unsafe(no_mangle)]
pub extern "C" fn salvrunde_dc(n: u32, edge: u32, above: &[u8], left: &[u8], out: &mut [u8]) -> u32
    ensures { wrote result out.new ≡ dc_entry n edge above.now left.now out.old }
{
    no_of(prediction::dc(n, edge, above, left, out))
}

// The block of an angular mode, 2 to 34. Numbers 1, 2, 3, 5.
#[unsafe(no_mangle)]
pub extern "C" fn salvrunde_angular(
    bits: u32,
    n: u32,
    mode: u32,
    edge: u32,
    corner: u16,
    above: &[u8],
    left: &[u8],
    out: &mut [u8],
) -> u32
    ensures { wrote result out.new ≡ angular_entry bits n mode edge corner above.now left.now out.old }
{
    no_of(prediction::angular(bits, n, mode, edge, corner, above, left, out))
}

// A chroma block in any mode, 0 to 34: nothing is smoothed, and no edge is filtered. Numbers 1, 2, 3, 5.
#[unsafe(no_mangle)]
pub extern "C" fn salvrunde_chroma_block(
    bits: u32,
    n: u32,
    mode: u32,
    corner: u16,
    above: &[u8],
    left: &[u8],
    out: &mut [u8],
) -> u32
    ensures { wrote result out.new ≡ chroma_block_entry bits n mode corner above.now left.now out.old }
{
    no_of(prediction::chroma(bits, n, mode, corner, above, left, out))
}

// A luma block in any mode, 0 to 34: references smoothed by the rule, edges filtered. Each row has at least 130 bytes, 65 samples, as
// smoothing asks at every side. Numbers 1, 2, 3, 5.
#[unsafe(no_mangle)]
pub extern "C" fn salvrunde_luma_block(
    bits: u32,
    n: u32,
    mode: u32,
    corner: u16,
    above: &[u8],
    left: &[u8],
    out: &mut [u8],
) -> u32
    ensures { wrote result out.new ≡ luma_block_entry bits n mode corner above.now left.now out.old }
{
    no_of(luma::luma(bits, n, mode, corner, above, left, out))
}

// The luma mode, of all 35, whose block has the least sum of absolute differences to a source block, the lowest on a tie: the first 8
// bytes of `out` get the mode and the sum, four bytes each, the lowest first. Each row has at least 130 bytes; the first 2 · n · n bytes
// of the source are its block, in rows. Numbers 1, 2, 5, 7.
#[unsafe(no_mangle)]
pub extern "C" fn salvrunde_choose(
    bits: u32,
    n: u32,
    corner: u16,
    above: &[u8],
    left: &[u8],
    source: &[u8],
    out: &mut [u8],
) -> u32
    ensures { ChoosesInto
        (choice_no bits n above.now left.now source.now out.old)
        (choice_sums bits n corner above.now left.now source.now) out.old
        (wrote result out.new) }
{
    no_of(choice::choose(false, bits, n, corner, above, left, source, out))
}

// The same by a search that drops a mode as soon as it cannot win: the mode and the sum are those of the full search.
#[unsafe(no_mangle)]
pub extern "C" fn salvrunde_choose_early(
    bits: u32,
    n: u32,
    corner: u16,
    above: &[u8],
    left: &[u8],
    source: &[u8],
    out: &mut [u8],
) -> u32
    ensures { ChoosesInto
        (choice_no bits n above.now left.now source.now out.old)
        (choice_sums bits n corner above.now left.now source.now) out.old
        (wrote result out.new) }
{
    no_of(choice::choose(true, bits, n, corner, above, left, source, out))
}

// Decodes the next blocks of a still, as many as are granted, in the plane's own bytes: exactly 2 · width · height of the plane, 4
// · width · height of the residuals, 6 a block of the plan. `done` is the progress record. The first 8 bytes of `res` get the
// block that a refusal is about and the next record, or the record as given where the call is refused; a shorter buffer is left
// alone. Numbers 1, 4, 5, 8, 14, then 2, 3, 6, 9 of each block, 10, 11.
#[unsafe(no_mangle)]
pub extern "C" fn salvrunde_replay(
    done: u32,
    bits: u32,
    width: u32,
    height: u32,
    ctu: u32,
    grant: u32,
    plan: &[u8],
    residuals: &[u8],
    plane: &mut [u8],
    res: &mut [u8],
) -> u32
    ensures { record { number = result; plane = plane.new; result = res.new } ≡ replayed (record
        { bits = bits; frame = record { width = width; height = height; ctu = ctu } }) done plan.now residuals.now grant plane.old res.old }
{
    let frame = Frame { width, height, ctu };
    let still = Still { bits, frame };
    no_of(replay::replay(done, still, plan, residuals, plane, res, grant))
}

// The picture checksum of H.265 Annex D over the rows from `first` up to `end` of a plane of exactly 2 · width · height bytes, from the sum
// so far: the first 4 bytes of `out` get it, the lowest byte first. Numbers 1, 4, 5, 7, 11.
#[unsafe(no_mangle)]
pub extern "C" fn salvrunde_checksum(
    bits: u32,
    width: u32,
    height: u32,
    first: u32,
    end: u32,
    sum: u32,
    plane: &[u8],
    out: &mut [u8],
) -> u32
    ensures { wrote result out.new ≡ checksum_entry (row_range bits width height first end) sum plane.now out.old }
{
    let range = RowRange {
        bits,
        width,
        height,
        first,
        end,
    };
    no_of(sums::store_checksum(plane, range, sum, out))
}

// Counts a pair of planes of bytes under a plan of bytes into a record of 864 bytes (document 02, Wish 14): how far b is from a. The block
// number stands at byte 20 of the record. Numbers 1, 4, 5, 7, each block 2, 3, 6, 9, then 10, 15.
#[unsafe(no_mangle)]
pub extern "C" fn salvrunde_count_errors(a: &[u8], b: &[u8], plan: &[u8], report: &mut [u8]) -> u32
    ensures { entered result report.new ≡ count_entry a.now b.now plan.now
        report.old }
{
    record::count_into(a, b, plan, report)
}

// Adds another record to a record. Numbers 1, 4, 5, 15.
#[unsafe(no_mangle)]
pub extern "C" fn salvrunde_join_errors(other: &[u8], report: &mut [u8]) -> u32
    ensures { entered result report.new ≡ join_entry other.now report.old }
{
    record::join_into(other, report)
}
