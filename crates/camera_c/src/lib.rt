// The entries for C, which libcamera.a has: each is camera's function of the same name, with its clauses again. A crate of its own, since one
// is built as a library or as an archive.
#![tactic(auto)]

ghost use Rattle.std.specs.Prelude.{◌≡◌};
ghost use Rattle.refs.specs.Door.{luma_geometry, chroma_geometry};
ghost use Rattle.camera.specs.replay.Door.{replayed};
ghost use Rattle.camera.specs.Written.{wrote};
ghost use Rattle.camera.specs.prediction.Entries.{planar_entry, dc_entry, angular_entry, chroma_block_entry};
ghost use Rattle.camera.specs.prediction.Entries.{luma_block_entry};
ghost use Rattle.camera.specs.gather.Entry.{luma_entry, chroma_entry};
ghost use Rattle.checksum.specs.Checksum.{row_range};
ghost use Rattle.camera.specs.sums.Entry.{checksum_entry};
ghost use Rattle.camera.specs.choice.Entry.{choice_no, choice_sums, ChoosesInto};
ghost use Rattle.errors.specs.RecordBytes.{entered, count_entry, join_entry};

#[unsafe(no_mangle)]
pub extern "C" fn salvrunde_luma_refs(
    bits: u32,
    width: u32,
    height: u32,
    ctu: u32,
    unit: u32,
    row: u32,
    col: u32,
    n: u32,
    plane: &[u8],
    out: &mut [u8],
) -> u32
    ensures { wrote result out.new ≡ luma_entry plane.now (luma_geometry bits width height ctu
        unit row col n) out.old }
{
    camera::salvrunde_luma_refs(bits, width, height, ctu, unit, row, col, n, plane, out)
}

#[unsafe(no_mangle)]
pub extern "C" fn salvrunde_chroma_refs_ctu(
    bits: u32,
    format: u32,
    luma_width: u32,
    luma_height: u32,
    ctu: u32,
    unit: u32,
    row: u32,
    col: u32,
    n: u32,
    cur_luma_row: u32,
    cur_luma_col: u32,
    cb: &[u8],
    cr: &[u8],
    out: &mut [u8],
) -> u32
    ensures { wrote result out.new ≡ chroma_entry cb.now cr.now (chroma_geometry bits
        format luma_width luma_height ctu unit row col n cur_luma_row cur_luma_col) out.old }
{
    camera::salvrunde_chroma_refs_ctu(
        bits,
        format,
        luma_width,
        luma_height,
        ctu,
        unit,
        row,
        col,
        n,
        cur_luma_row,
        cur_luma_col,
        cb,
        cr,
        out,
    )
}

#[unsafe(no_mangle)]
pub extern "C" fn salvrunde_planar(n: u32, above: &[u8], left: &[u8], out: &mut [u8]) -> u32
    ensures { wrote result out.new ≡ planar_entry n above.now left.now out.old }
{
    camera::salvrunde_planar(n, above, left, out)
}

#[unsafe(no_mangle)]
pub extern "C" fn salvrunde_dc(n: u32, edge: u32, above: &[u8], left: &[u8], out: &mut [u8]) -> u32
    ensures { wrote result out.new ≡ dc_entry n edge above.now left.now out.old }
{
    camera::salvrunde_dc(n, edge, above, left, out)
}

#[unsafe(no_mangle)]
pub extern "C" fn salvrunde_angular(
    bits: u32,
    n: u32,
    mode: u32,
    edge: u32,
    corner: u16,
    above: &[u8],
    left: &[u8],
    out: &mut [u8],
) -> u32
    ensures { wrote result out.new ≡ angular_entry bits n mode edge corner above.now left.now out.old }
{
    camera::salvrunde_angular(bits, n, mode, edge, corner, above, left, out)
}

#[unsafe(no_mangle)]
pub extern "C" fn salvrunde_chroma_block(
    bits: u32,
    n: u32,
    mode: u32,
    corner: u16,
    above: &[u8],
    left: &[u8],
    out: &mut [u8],
) -> u32
    ensures { wrote result out.new ≡ chroma_block_entry bits n mode corner above.now left.now out.old }
{
    camera::salvrunde_chroma_block(bits, n, mode, corner, above, left, out)
}

#[unsafe(no_mangle)]
pub extern "C" fn salvrunde_luma_block(
    bits: u32,
    n: u32,
    mode: u32,
    corner: u16,
    above: &[u8],
    left: &[u8],
    out: &mut [u8],
) -> u32
    ensures { wrote result out.new ≡ luma_block_entry bits n mode corner above.now left.now out.old }
{
    camera::salvrunde_luma_block(bits, n, mode, corner, above, left, out)
}

#[unsafe(no_mangle)]
pub extern "C" fn salvrunde_choose(
    bits: u32,
    n: u32,
    corner: u16,
    above: &[u8],
    left: &[u8],
    source: &[u8],
    out: &mut [u8],
) -> u32
    ensures { ChoosesInto
        (choice_no bits n above.now left.now source.now out.old)
        (choice_sums bits n corner above.now left.now source.now) out.old
        (wrote result out.new) }
{
    camera::salvrunde_choose(bits, n, corner, above, left, source, out)
}

#[unsafe(no_mangle)]
pub extern "C" fn salvrunde_choose_early(
    bits: u32,
    n: u32,
    corner: u16,
    above: &[u8],
    left: &[u8],
    source: &[u8],
    out: &mut [u8],
) -> u32
    ensures { ChoosesInto
        (choice_no bits n above.now left.now source.now out.old)
        (choice_sums bits n corner above.now left.now source.now) out.old
        (wrote result out.new) }
{
    camera::salvrunde_choose_early(bits, n, corner, above, left, source, out)
}

#[unsafe(no_mangle)]
pub extern "C" fn salvrunde_replay(
    done: u32,
    bits: u32,
    width: u32,
    height: u32,
    ctu: u32,
    grant: u32,
    plan: &[u8],
    residuals: &[u8],
    plane: &mut [u8],
    res: &mut [u8],
) -> u32
    ensures { record { number = result; plane = plane.new; result = res.new } ≡ replayed (record
        { bits = bits; frame = record { width = width; height = height; ctu = ctu } }) done plan.now residuals.now grant plane.old res.old }
{
    camera::salvrunde_replay(
        done, bits, width, height, ctu, grant, plan, residuals, plane, res,
    )
}

#[unsafe(no_mangle)]
pub extern "C" fn salvrunde_checksum(
    bits: u32,
    width: u32,
    height: u32,
    first: u32,
    end: u32,
    sum: u32,
    plane: &[u8],
    out: &mut [u8],
) -> u32
    ensures { wrote result out.new ≡ checksum_entry (row_range bits width height first end) sum plane.now out.old }
{
    camera::salvrunde_checksum(bits, width, height, first, end, sum, plane, out)
}

#[unsafe(no_mangle)]
pub extern "C" fn salvrunde_count_errors(a: &[u8], b: &[u8], plan: &[u8], report: &mut [u8]) -> u32
    ensures { entered result report.new ≡ count_entry a.now b.now plan.now
        report.old }
{
    camera::salvrunde_count_errors(a, b, plan, report)
}

#[unsafe(no_mangle)]
pub extern "C" fn salvrunde_join_errors(other: &[u8], report: &mut [u8]) -> u32
    ensures { entered result report.new ≡ join_entry other.now report.old }
{
    camera::salvrunde_join_errors(other, report)
}
