// Replays the Rust's answers on the doors of smoothing, prediction, residuals and whole blocks: the list is standard input, the
// file stdin, and what is printed is tested against the file stdout. Rests on the doors' contracts for its safety.
//
// The list is made by `tests/differential/run list`. A line is 43 words of eight hex digits: the kind of the call, its side,
// mode, edge and depth, the seed and the largest of its samples, the entries of the row on the left, the place of the window,
// the number and the value that it is to answer, and the 32 entries of what it wrote from that place on. A residual is two
// samples, of which it is the difference, the first in the upper half. A line that opens with # is a comment.
//
// A call's samples come from its seed: each is the next number, brought to at most the largest; a largest of 1 stands for
// samples of either end. The corner has the seed's own, the row above the numbers that follow, the row on the left and the
// second block those that follow `other` of the seed.
#![tactic(auto)]

ghost use Rattle.std.specs.Prelude.{◌+◌, ◌≤◌, ◌<◌, ◌≡◌, true, Ok};
ghost use Rattle.std.specs.Io.KnownBytes.{Consumes};

use domain::refusal::no_of;
use domain::rows::Rows;
use listing::Count;
use predict::scratch::AngularScratch;
use predict::{angular, planar_dc};
use std::io;
use std::io::{ErrorKind, Read};

// What a line gives a call, and the number and the value that it wants.
#[derive(Clone, Copy)]
struct Call {
    n: usize,
    mode: u8,
    edge: bool,
    bits: u32,
    seed: u32,
    top: u32,
    entries: usize,
    place: u32,
    no: u32,
    value: u32,
}

fn at_most(entries: usize, most: usize) -> usize
    ensures { result ≤ most }
{
    if entries > most {
        return most;
    }
    entries
}

fn call_of(line: &[u8]) -> Call {
    Call {
        n: listing::word(line, 1) as usize,
        mode: (listing::word(line, 2) % 256) as u8,
        edge: listing::word(line, 3) == 1,
        bits: listing::word(line, 4),
        seed: listing::word(line, 5),
        top: listing::word(line, 6),
        entries: listing::word(line, 7) as usize,
        place: listing::word(line, 8),
        no: listing::word(line, 9),
        value: listing::word(line, 10),
    }
}

fn block_of(seed: u32, top: u32) -> [u16; 1024] {
    let mut block = [0u16; 1024];
    listing::draw_into(seed, top, &mut block);
    block
}

// Whether the 32 entries from the call's place on are those of the line.
fn same(line: &[u8], written: &[u16], call: Call) -> bool {
    listing::same_run(line, 11, written, call.place)
}

fn difference(o: u16, p: u16) -> i32 {
    (o as i32) - (p as i32)
}

// 0 past the end.
fn residual_at(written: &[i32], at: usize) -> i32 {
    if at < written.len() {
        return written[at];
    }
    0
}

fn is_residual(wanted: u32, residual: i32) -> bool {
    residual == difference((wanted / 65536) as u16, (wanted % 65536) as u16)
}

// The same of residuals, which are another kind of number.
fn same_residuals(line: &[u8], written: &[i32], call: Call) -> bool {
    let mut all = true;
    for i in 0..32u32 {
        let found = residual_at(written, (call.place as usize) + (i as usize));
        all = all & is_residual(listing::word(line, 11 + i), found);
    }
    all
}

fn row_same(line: &[u8], row: [u16; 65], call: Call) -> bool {
    same(line, &row, call)
}

// Whether the line has this number and this value.
fn answers(call: Call, no: u32, value: u32) -> bool {
    (no == call.no) & (value == call.value)
}

fn rule_same(call: Call) -> bool {
    match smooth::should_filter_refs(call.mode, call.n) {
        Ok(yes) => answers(call, 0, yes as u32),
        Err(why) => answers(call, why.number(), 0),
    }
}

// The row above, or where the edge is asked for the row on the left.
fn either_same(line: &[u8], call: Call, above: [u16; 65], left: [u16; 65]) -> bool {
    if call.edge {
        return row_same(line, left, call);
    }
    row_same(line, above, call)
}

fn weak_same(line: &[u8], call: Call, above: &[u16], left: &[u16]) -> bool {
    let corner = listing::sample(call.seed, call.top);
    match smooth::filter_references(corner, above, left, call.n) {
        Ok(rows) => (call.no == 0) & either_same(line, call, rows.above, rows.left),
        Err(why) => (why.number() == call.no) & row_same(line, [0u16; 65], call),
    }
}

fn luma_same(line: &[u8], call: Call, above: &[u16], left: &[u16]) -> bool {
    let corner = listing::sample(call.seed, call.top);
    match smooth::filter_luma_refs(corner, above, left, call.n, call.bits) {
        Ok(rows) => {
            answers(call, 0, rows.corner as u32) & either_same(line, call, rows.above, rows.left)
        }
        Err(why) => answers(call, why.number(), 0) & row_same(line, [0u16; 65], call),
    }
}

fn planar_same(line: &[u8], call: Call, above: &[u16], left: &[u16]) -> bool {
    let mut pred = [4660u16; 1024];
    let answer = planar_dc::predict_planar_into(above, left, call.n, &mut pred);
    (no_of(answer) == call.no) & same(line, &pred, call)
}

fn dc_same(line: &[u8], call: Call, above: &[u16], left: &[u16]) -> bool {
    let mut pred = [4660u16; 1024];
    let answer = planar_dc::predict_dc_into(above, left, call.n, call.edge, &mut pred);
    (no_of(answer) == call.no) & same(line, &pred, call)
}

fn angular_same(line: &[u8], call: Call, above: &[u16], left: &[u16]) -> bool {
    let mut pred = [4660u16; 1024];
    let mut refs = [4660u16; 193];
    let mut indices = [4660u32; 32];
    let mut fractions = [4660u32; 32];
    let answer = angular::predict_angular_slices(
        listing::sample(call.seed, call.top),
        above,
        left,
        call.n,
        call.mode,
        call.edge,
        call.bits,
        &mut pred,
        &mut refs,
        &mut indices,
        &mut fractions,
    );
    (no_of(answer) == call.no) & same(line, &pred, call)
}

// The residual of the two blocks.
fn residual_same(line: &[u8], call: Call) -> bool {
    let pred = block_of(call.seed, call.top);
    let orig = block_of(listing::other(call.seed), call.top);
    let mut residual = [4660i32; 1024];
    let answer = residual::compute_residual_i32_into(&orig, &pred, call.n, &mut residual);
    (no_of(answer) == call.no) & same_residuals(line, &residual, call)
}

// The residual of the two blocks, added to the first: the number is that of the second call, the value that of the first.
fn rebuilt_same(line: &[u8], call: Call) -> bool {
    let pred = block_of(call.seed, call.top);
    let orig = block_of(listing::other(call.seed), call.top);
    let mut residual = [0i32; 1024];
    let mut out = [4660u16; 1024];
    let first = residual::compute_residual_i32_into(&orig, &pred, call.n, &mut residual);
    let answer = residual::reconstruct_into(&pred, &residual, call.n, call.bits, &mut out);
    (no_of(first) == call.value) & (no_of(answer) == call.no) & same(line, &out, call)
}

fn chroma_block_same(line: &[u8], call: Call, above: &[u16], left: &[u16]) -> bool {
    let mut pred = [4660u16; 1024];
    let mut refs = [4660u16; 193];
    let mut indices = [4660u32; 32];
    let mut fractions = [4660u32; 32];
    let answer = predict::predict_chroma_tb_slices(
        call.mode,
        listing::sample(call.seed, call.top),
        above,
        left,
        call.n,
        call.bits,
        &mut pred,
        &mut refs,
        &mut indices,
        &mut fractions,
    );
    (no_of(answer) == call.no) & same(line, &pred, call)
}

// A luma block's rows are whole by their type.
fn luma_block_same(line: &[u8], call: Call) -> bool {
    let rows = Rows {
        corner: listing::sample(call.seed, call.top),
        above: listing::row(call.seed, call.top),
        left: listing::row(listing::other(call.seed), call.top),
    };
    let mut pred = [4660u16; 1024];
    let mut refs = [4660u16; 193];
    let mut indices = [4660u32; 32];
    let mut fractions = [4660u32; 32];
    let answer = predict::predict_luma_tb_slices(
        call.mode,
        rows,
        call.n,
        call.bits,
        &mut pred,
        &mut refs,
        &mut indices,
        &mut fractions,
    );
    (no_of(answer) == call.no) & same(line, &pred, call)
}

// Whether the line has this table, of so many entries.
fn table_same(line: &[u8], table: [u32; 32], call: Call) -> bool {
    let mut all = call.value == 32;
    for i in 0..32u32 {
        all = all & (listing::word(line, 11 + i) == table[i as usize]);
    }
    all
}

// A new scratch: mode 0 is its references, 1 its indices, 2 its fractions; the value is how many entries the table has.
fn scratch_same(line: &[u8], call: Call) -> bool {
    let scratch = AngularScratch::new();
    let refs = scratch.refs;
    let indices = scratch.indices;
    let fractions = scratch.fractions;
    let mode = call.mode;
    match mode {
        0 => (call.value == 193) & same(line, &refs, call),
        1 => table_same(line, indices, call),
        2 => table_same(line, fractions, call),
        _ => false,
    }
}

// Whether a door gives what the line has. Kinds 1 to 11; others never do.
fn agrees(line: &[u8], kind: u32) -> bool {
    let call = call_of(line);
    let above = listing::row(call.seed, call.top);
    let row = listing::row(listing::other(call.seed), call.top);
    let left = &row[..at_most(call.entries, 65)];
    match kind {
        1 => rule_same(call),
        2 => weak_same(line, call, &above, left),
        3 => luma_same(line, call, &above, left),
        4 => planar_same(line, call, &above, left),
        5 => dc_same(line, call, &above, left),
        6 => angular_same(line, call, &above, left),
        7 => residual_same(line, call),
        8 => rebuilt_same(line, call),
        9 => chroma_block_same(line, call, &above, left),
        10 => luma_block_same(line, call),
        11 => scratch_same(line, call),
        _ => false,
    }
}

// The count with one line more.
fn with(count: Count, line: [u8; 387]) -> Count {
    if line[0] == 35 {
        return count;
    }
    count.with(agrees(&line, listing::word(&line, 0)))
}

// Reads the next line, and tells whether there was a whole one.
fn read_line<R: Read>(input: &mut R, line: &mut [u8]) -> io::Result<bool>
    ensures { result ≡ Ok true → Consumes (R.remaining input.old) (R.remaining input.new) line.new }
{
    match input.read_exact(line) {
        Ok(()) => Ok(true),
        Err(e) => {
            if e.kind() == ErrorKind::UnexpectedEof {
                Ok(false)
            } else {
                Err(e)
            }
        }
    }
}

// Reads the list line by line, 4096 at most.
fn replay<R: Read>(input: &mut R) -> io::Result<Count> {
    let mut count = Count {
        calls: 0,
        differ: 0,
    };
    for _ in 0..4096usize {
        let mut line = [0u8; 387];
        if !read_line(input, &mut line)? {
            break;
        }
        count = with(count, line);
    }
    Ok(count)
}

fn main(rt: HostRuntime) -> io::Result<()> {
    let count = replay(&mut rt.stdin())?;
    let calls = count.calls;
    let differ = count.differ;
    println!(rt; "predict: {calls} calls, {differ} differ")
}
