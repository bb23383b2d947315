// Reference samples out of planes of bytes, two a sample, the lower first: the luma gather by value, for the replay, and both
// gathers stored in a lent buffer, for C (document 01, 'use from C'). Rests on refs for what a gather refuses, which neighbours are
// there and where they stand, and on what bytes spell; a sample's value never says whether it is there.
ghost use Rattle.std.specs.Prelude.{◌≡◌, true, ℕ, ◌+◌, ◌*◌, ◌%◌, ◌≤◌, ◌<◌, leb, length, get_or, set, Ok, IfOk};
ghost use Rattle.domain.specs.Refusal.{no_of};
ghost use Rattle.laws.specs.Bytes.{byte_of};
ghost use Rattle.laws.specs.Fill.{fill, run};
ghost use Rattle.octets.specs.Bytes.{byte1, samples_of};
ghost use Rattle.refs.specs.substitution.Line.{any_by};
ghost use Rattle.order.specs.Answers.{there};
ghost use Rattle.order.specs.Reach.{luma_reach, chroma_reach};
ghost use Rattle.refs.specs.Answers.{gathered, laid};
ghost use Rattle.refs.specs.Door.{luma_block, luma_no, luma_rows, chroma_block, chroma_no, chroma_pair};
ghost use Rattle.refs.specs.Counts.{start_of, corner_of, rest_of};
ghost use Rattle.refs.specs.Spots.{luma_spot, chroma_spot, luma_layout, chroma_layout};
ghost use Rattle.refs.specs.Spots.{on_edge, corner_on, above_on_plane, left_on, plane_rows, Reads};
ghost use Rattle.refs.specs.Seen.{padded};
ghost use Rattle.camera.specs.gather.Line.{sample_byte, rows_at, room_no};
ghost use Rattle.camera.specs.Written.{wrote};
ghost use Rattle.camera.specs.gather.Door.{luma_bytes_no, luma_bytes_door, chroma_bytes_no};
ghost use Rattle.camera.specs.gather.Entry.{luma_entry, chroma_entry};
ghost use Rattle.camera.specs.gather.Spelt.{pair_at};
ghost use Rattle.camera.specs.gather.Around.{edge_in, around_of, Kept};

use crate::bytes;
use domain::refusal::Refusal;
use domain::rows;
use domain::rows::Rows;
use fmt::depth;
use order::Reach;
use refs::{ChromaRefGeometry, Layout, LumaRefGeometry, Spot};

// An edge of a block: where its entry 0 stands in the plane, how far apart its entries do, how many are there, and what the others have.
#[derive(Clone, Copy, Debug, PartialEq, Eq)]
struct Border {
    at: usize,
    step: usize,
    have: usize,
    rest: u16,
}

// What stands around a block: the corner and both edges.
#[derive(Drop)]
struct Around {
    corner: u16,
    above: Border,
    left: Border,
}

// The sample at a place of a plane.
pub(crate) fn sample_in(plane: &[u8], at: usize) -> u16
    requires { at < length (samples_of plane.now) }
    ensures { result ≡ get_or (samples_of plane.now) at 0 }
{
    let low = 2 * at;
    let high = low + 1;
    octets::sample(plane[low], plane[high])
}

// What stands before the first sample that is there: that sample.
fn start_in(plane: &[u8], s: Spot, r: Reach, n: usize) -> u16
    requires { Reads r s (length (samples_of plane.now)) n × (any_by r.corner r.above r.left ≡ true) }
    ensures { result ≡ start_of r (corner_on (samples_of plane.now) s) (above_on_plane (samples_of plane.now) s) (left_on (samples_of plane.now) s) }
{
    if r.left > 0 {
        return sample_in(plane, s.left + (r.left - 1) * s.width);
    }
    if r.corner {
        return sample_in(plane, s.corner);
    }
    sample_in(plane, s.above)
}

// The corner: a missing one takes left[0].
fn corner_in(plane: &[u8], s: Spot, r: Reach, n: usize, start: u16) -> u16
    requires { Reads r s (length (samples_of plane.now)) n }
    ensures { result ≡ corner_of r (corner_on (samples_of plane.now) s) (left_on (samples_of plane.now) s) start }
{
    if r.corner {
        return sample_in(plane, s.corner);
    }
    if r.left > 0 {
        return sample_in(plane, s.left);
    }
    start
}

// What stands after the last one of the row above: that one, or the corner.
fn rest_in(plane: &[u8], s: Spot, r: Reach, n: usize, corner: u16) -> u16
    requires { Reads r s (length (samples_of plane.now)) n }
    ensures { result ≡ rest_of r (above_on_plane (samples_of plane.now) s) corner }
{
    if r.above > 0 {
        return sample_in(plane, s.above + (r.above - 1));
    }
    corner
}

// What stands around a block that has a neighbour.
fn look_around(plane: &[u8], s: Spot, r: Reach, n: usize) -> Around
    requires { Reads r s (length (samples_of plane.now)) n × (any_by r.corner r.above r.left ≡ true) }
    ensures { result ≡ around_of (samples_of plane.now) s r }
{
    let start = start_in(plane, s, r, n);
    let corner = corner_in(plane, s, r, n, start);
    let rest = rest_in(plane, s, r, n, corner);
    let above = Border {
        at: s.above,
        step: 1,
        have: r.above,
        rest,
    };
    let left = Border {
        at: s.left,
        step: s.width,
        have: r.left,
        rest: start,
    };
    Around {
        corner,
        above,
        left,
    }
}

// Reads an edge into a row: the entries that are there, then what the others have up to entry 2n.
#[tactic(auto, using(laws::specs::FillLaws::fill_none, laws::specs::FillLaws::fill_more, octets::specs::Laws::length_samples))]
fn read_edge(plane: &[u8], e: Border, n: usize, row: &mut [u16])
    requires { Kept e (length (samples_of plane.now)) n × (65 ≤ length row.old) }
    ensures { row.new ≡ padded (2 * n + 1) e.have e.rest (fill (on_edge (samples_of plane.now) e.at e.step) e.have row.old) }
{
    let from = e.at;
    let step = e.step;
    let have = e.have;
    let rest = e.rest;
    let end = 2 * n + 1;
    for i in 0..have {
        row[i] = sample_in(plane, from + i * step);
    }
    row[have..end].fill(rest);
}

// The rows of a plane, from how far the neighbours reach.
fn plane_rows(plane: &[u8], s: Spot, r: Reach, n: usize, neutral: u16) -> Rows
    requires { Reads r s (length (samples_of plane.now)) n }
    ensures { result ≡ plane_rows (samples_of plane.now) s r n neutral }
{
    if !((r.left > 0) | r.corner | (r.above > 0)) {
        return rows::level_rows(neutral);
    }
    let a = look_around(plane, s, r, n);
    let mut two = [[0u16; 65]; 2];
    read_edge(plane, a.above, n, &mut two[0]);
    read_edge(plane, a.left, n, &mut two[1]);
    Rows {
        corner: a.corner,
        above: two[0],
        left: two[1],
    }
}

// The gathers for C store their rows as they make them: rows that come back by value go through memory once more. Places in the
// buffer are counted in samples.

// Stores a sample.
pub(crate) fn put(out: &mut [u8], at: usize, v: u16)
    requires { 2 * at + 1 < length out.old }
    ensures { out.new ≡ set (set out.old (2 * at) (v % 256)) (2 * at + 1) (byte1 v) }
{
    bytes::put(out, 2 * at, v.to_le_bytes());
}

// Stores one value `count` times.
#[tactic(auto, using(crate::specs::gather::Bytes::storing))]
fn store_level(v: u16, count: usize, out: &mut [u8], at: usize)
    requires { 2 * (at + count) ≤ length out.old }
    ensures { out.new ≡ run (byte_of 2 (λ (i : ℕ). v)) (2 * at) (2 * count) out.old }
{
    for i in 0..count {
        put(&mut *out, at + i, v);
    }
}

// Stores the entries of an edge that are there.
#[tactic(auto, using(crate::specs::gather::Bytes::storing))]
fn store_seen(plane: &[u8], e: Border, out: &mut [u8], at: usize)
    requires { (2 * (at + e.have) ≤ length out.old) × ((i : ℕ) → i < e.have → e.at + i * e.step < length
        (samples_of plane.now)) }
    ensures { out.new ≡ run (byte_of 2 (on_edge (samples_of plane.now) e.at e.step)) (2 *
        at) (2 * e.have) out.old }
{
    let from = e.at;
    let step = e.step;
    let have = e.have;
    for i in 0..have {
        put(&mut *out, at + i, sample_in(plane, from + i * step));
    }
}

// Stores an edge's 65 entries: those that are there, then what the others have up to entry 2n, then 0.
fn store_edge(plane: &[u8], e: Border, n: usize, out: &mut [u8], at: usize)
    requires { Kept e (length (samples_of plane.now)) n × (2 * (at + 65) ≤ length out.old) }
    ensures { out.new ≡ run (sample_byte (edge_in (samples_of plane.now) e n)) (2 * at) (2 *
        65) out.old }
{
    let count = 2 * n + 1;
    store_seen(plane, e, &mut *out, at);
    store_level(e.rest, count - e.have, &mut *out, at + e.have);
    store_level(0, 65 - count, &mut *out, at + count);
}

// Stores the rows of a plane: the corner, the row above and the left column.
fn store_plane_rows(
    plane: &[u8],
    s: Spot,
    r: Reach,
    n: usize,
    neutral: u16,
    out: &mut [u8],
    at: usize,
)
    requires { Reads r s (length (samples_of plane.now)) n × (2 * (at + 131) ≤ length out.old) }
    ensures { out.new ≡ rows_at (2 * at) (plane_rows (samples_of plane.now) s r n neutral) out.old }
{
    if !((r.left > 0) | r.corner | (r.above > 0)) {
        store_level(neutral, 131, &mut *out, at);
        return;
    }
    let above_at = at + 1;
    let left_at = at + 66;
    let a = look_around(plane, s, r, n);
    put(&mut *out, at, a.corner);
    store_edge(plane, a.above, n, &mut *out, above_at);
    store_edge(plane, a.left, n, &mut *out, left_at);
}

// A gather's answer where its buffer may be short of the rows of so many planes: that comes before the block's place, and after the
// other refusals.
fn with_room(early: Result<Reach, Refusal>, planes: u32, room: usize) -> Result<Reach, Refusal>
    ensures { (no_of result ≡ room_no (leb (262 * planes) room) (no_of early)) × IfOk result (λ r. early ≡ Ok r) }
{
    if 262 * (planes as usize) <= room {
        return early;
    }
    match early {
        Ok(_) => Err(Refusal::Buffer),
        Err(Refusal::Place) => Err(Refusal::Buffer),
        _ => early,
    }
}

// Whether a gather out of a plane of so many bytes is served, and then its block's reach.
fn check_luma_bytes(len: usize, geo: LumaRefGeometry, l: Layout) -> Result<Reach, Refusal>
    requires { laid l ≡ luma_layout geo }
    ensures { (no_of result ≡ luma_bytes_no len geo) × IfOk result (λ r. l.reach ≡ Ok r) }
{
    let whole = octets::whole_in(len, l.length);
    refs::check_gather(geo.bits, l.reach, whole)
}

fn luma_rows(plane: &[u8], geo: LumaRefGeometry, s: Spot, reach: Reach) -> Rows
    requires { (s ≡ luma_spot geo) × (there reach ≡ luma_reach (luma_block geo)) × (luma_no (length (samples_of plane.now)) geo ≡ 0) }
    ensures { result ≡ luma_rows (samples_of plane.now) geo }
{
    plane_rows(plane, s, reach, geo.n, depth::neutral_of(geo.bits))
}

// The reference rows of a luma block.
#[tactic(auto, unfolding(crate::specs::gather::Door::luma_bytes_door), using(domain::specs::Refused::never_0))]
pub(crate) fn get_reference_samples(plane: &[u8], geo: LumaRefGeometry) -> Result<Rows, Refusal>
    ensures { gathered result ≡ luma_bytes_door plane.now geo }
{
    let l = refs::luma_layout(geo);
    let reach = check_luma_bytes(plane.len(), geo, l)?;
    Ok(luma_rows(plane, geo, l.spot, reach))
}

fn store_luma_rows(plane: &[u8], geo: LumaRefGeometry, s: Spot, reach: Reach, out: &mut [u8])
    requires { (s ≡ luma_spot geo) × (there reach ≡ luma_reach (luma_block geo))
        × (luma_no (length (samples_of plane.now)) geo ≡ 0) × (262 ≤ length out.old) }
    ensures { out.new ≡ rows_at 0 (luma_rows (samples_of plane.now) geo) out.old }
{
    let neutral = depth::neutral_of(geo.bits);
    store_plane_rows(plane, s, reach, geo.n, neutral, &mut *out, 0);
}

// The same, stored as bytes: the corner, the row above and the left column.
pub(crate) fn store_reference_samples(
    plane: &[u8],
    geo: LumaRefGeometry,
    out: &mut [u8],
) -> Result<(), Refusal>
    ensures { wrote (no_of result) out.new ≡ luma_entry plane.now geo out.old }
{
    let l = refs::luma_layout(geo);
    let early = check_luma_bytes(plane.len(), geo, l);
    let reach = with_room(early, 1, out.len())?;
    store_luma_rows(plane, geo, l.spot, reach, &mut *out);
    Ok(())
}

// Whether a gather out of planes of so many bytes is served, and then its block's reach.
fn check_chroma_bytes(
    cb: usize,
    cr: usize,
    geo: ChromaRefGeometry,
    l: Layout,
) -> Result<Reach, Refusal>
    requires { laid l ≡ chroma_layout geo }
    ensures { (no_of result ≡ chroma_bytes_no cb cr geo) × IfOk result (λ r. l.reach ≡ Ok r) }
{
    let whole = octets::whole_in(cb, l.length) & octets::whole_in(cr, l.length);
    refs::check_gather(geo.bits, l.reach, whole)
}

// Cb's rows, then Cr's: one layout for both.
fn store_chroma_rows(
    plane_cb: &[u8],
    plane_cr: &[u8],
    geo: ChromaRefGeometry,
    s: Spot,
    reach: Reach,
    out: &mut [u8],
)
    requires { (s ≡ chroma_spot geo) × (there reach ≡ chroma_reach (chroma_block geo))
        × (chroma_no (length (samples_of plane_cb.now)) (length (samples_of plane_cr.now)) geo ≡ 0)
        × (524 ≤ length out.old) }
    ensures { out.new ≡ pair_at (chroma_pair (samples_of plane_cb.now) (samples_of plane_cr.now) geo) out.old }
{
    let neutral = depth::neutral_of(geo.bits);
    let n = geo.n;
    store_plane_rows(plane_cb, s, reach, n, neutral, &mut *out, 0);
    store_plane_rows(plane_cr, s, reach, n, neutral, &mut *out, 131);
}

// The reference rows of a chroma block in both planes, stored: Cb's corner, row above and left column, then Cr's.
pub(crate) fn store_reference_samples_chroma_pair(
    plane_cb: &[u8],
    plane_cr: &[u8],
    geo: ChromaRefGeometry,
    out: &mut [u8],
) -> Result<(), Refusal>
    ensures { wrote (no_of result) out.new ≡ chroma_entry plane_cb.now plane_cr.now geo out.old }
{
    let l = refs::chroma_layout(geo);
    let early = check_chroma_bytes(plane_cb.len(), plane_cr.len(), geo, l);
    let reach = with_room(early, 2, out.len())?;
    store_chroma_rows(plane_cb, plane_cr, geo, l.spot, reach, &mut *out);
    Ok(())
}
