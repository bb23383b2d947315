// Replays the Rust's answers on the doors of references: the list is standard input, the file stdin, and what is printed is
// tested against the file stdout. Rests on the doors' contracts for its safety.
//
// The list is made by `tests/differential/run list`. A line is 51 words of eight hex digits: the kind of the call, its depth,
// format, sides, CTU, least unit, the block's row, column and side, the current place's row and column, the seed and the
// largest of its samples, the plane's length, which row is compared and from which entry on, the number and the corner that
// it is to answer, and 32 entries of that row. A line that opens with # is a comment.
//
// At the chroma gather the Rust knows of no CTU but 64: where a line has another, its answer is the standard's.
//
// Rows: 0 is above and 1 left, of Cr 2 and 3. A call's samples come from its seed: each is the next number, brought to at
// most the largest; a largest of 1 stands for samples of either end. The corner has the seed's own, the row above, the luma
// plane and Cb the numbers that follow, the left row and Cr those that follow `other` of the seed. Substitution's flags come
// from the current place's two numbers as seeds, with the unit as odds in sixteen; the entries that the sides name are there
// too, and the corner where the CTU is 1.
#![tactic(auto)]

ghost use Rattle.std.specs.Prelude.{◌≤◌, ◌<◌, length, ◌≡◌, true, Ok};
ghost use Rattle.std.specs.Io.KnownBytes.{Consumes};

use domain::refusal::Refusal;
use domain::rows;
use domain::rows::Rows;
use fmt::{ChromaCol, ChromaRow, LumaCol, LumaRow};
use listing::Count;
use order::Picture;
use refs::substitution::Flags;
use refs::{ChromaRefGeometry, LumaRefGeometry, substitution};
use std::io;
use std::io::{ErrorKind, Read};

// What a line gives a call, which entries it compares, and the number and the corner that it wants.
#[derive(Clone, Copy)]
struct Call {
    bits: u32,
    format: u32,
    width: u32,
    height: u32,
    ctu: u32,
    unit: u32,
    row: u32,
    col: u32,
    n: usize,
    cur_row: u32,
    cur_col: u32,
    seed: u32,
    top: u32,
    entries: usize,
    which: u32,
    place: u32,
    no: u32,
    corner: u32,
}

fn at_most(entries: usize, most: usize) -> usize
    ensures { result ≤ most }
{
    if entries > most {
        return most;
    }
    entries
}

fn call_of(line: &[u8]) -> Call {
    Call {
        bits: listing::word(line, 1),
        format: listing::word(line, 2),
        width: listing::word(line, 3),
        height: listing::word(line, 4),
        ctu: listing::word(line, 5),
        unit: listing::word(line, 6),
        row: listing::word(line, 7),
        col: listing::word(line, 8),
        n: listing::word(line, 9) as usize,
        cur_row: listing::word(line, 10),
        cur_col: listing::word(line, 11),
        seed: listing::word(line, 12),
        top: listing::word(line, 13),
        entries: listing::word(line, 14) as usize,
        which: listing::word(line, 15),
        place: listing::word(line, 16),
        no: listing::word(line, 17),
        corner: listing::word(line, 18),
    }
}

// A seed's numbers as flags and as a plane.
fn flags_of(seed: u32, odds: u32, one: usize) -> [bool; 65] {
    let drawn = listing::row(seed, 65535);
    let mut flags = [false; 65];
    for i in 0..65 {
        flags[i] = (((drawn[i] % 16) as u32) < odds) | (i == one);
    }
    flags
}

fn plane_of(seed: u32, top: u32) -> [u16; 4096]
    ensures { 4096 ≡ length result }
{
    let mut plane = [0u16; 4096];
    listing::draw_into(seed, top, &mut plane);
    plane
}

// Whether the 32 entries from a place on are those of the line.
fn row_same(line: &[u8], row: [u16; 65], place: u32) -> bool {
    listing::same_run(line, 19, &row, place)
}

// Whether an answer's number, corner and row are those of the line; rows are all 0 where a call is refused.
fn answer_same(line: &[u8], call: Call, answer: Result<Rows, Refusal>) -> bool {
    match answer {
        Ok(rows) => rows_same(line, call, 0, rows),
        Err(why) => rows_same(line, call, why.number(), rows::level_rows(0)),
    }
}

fn rows_same(line: &[u8], call: Call, no: u32, rows: Rows) -> bool {
    let above = rows.above;
    let left = rows.left;
    let number = (no == call.no) & ((rows.corner as u32) == call.corner);
    if call.which % 2 == 1 {
        return number & row_same(line, left, call.place);
    }
    number & row_same(line, above, call.place)
}

fn substitution_same(line: &[u8], call: Call) -> bool {
    let rows = Rows {
        corner: listing::sample(call.seed, call.top),
        above: listing::row(call.seed, call.top),
        left: listing::row(listing::other(call.seed), call.top),
    };
    let flags = Flags {
        corner: call.ctu == 1,
        above: flags_of(call.cur_row, call.unit, call.width as usize),
        left: flags_of(call.cur_col, call.unit, call.height as usize),
    };
    let answer = substitution::substitute_refs(rows, flags, call.n, call.bits);
    answer_same(line, call, answer)
}

fn luma_same(line: &[u8], call: Call, plane: &[u16]) -> bool {
    let picture = Picture {
        width: call.width,
        height: call.height,
        ctu: call.ctu,
        unit: call.unit,
    };
    let geo = LumaRefGeometry {
        bits: call.bits,
        picture,
        block_row: LumaRow(call.row),
        block_col: LumaCol(call.col),
        n: call.n,
    };
    answer_same(line, call, refs::get_reference_samples(plane, geo))
}

fn chroma_same(line: &[u8], call: Call, cb: &[u16], cr: &[u16]) -> bool {
    let geo = ChromaRefGeometry {
        bits: call.bits,
        format: call.format,
        luma_w: call.width,
        luma_h: call.height,
        ctu: call.ctu,
        min_luma_pu: call.unit,
        block_row: ChromaRow(call.row),
        block_col: ChromaCol(call.col),
        n: call.n,
        cur_luma_row: LumaRow(call.cur_row),
        cur_luma_col: LumaCol(call.cur_col),
    };
    let which = if call.which < 2 { 0 } else { 1 };
    match refs::get_reference_samples_chroma_pair(cb, cr, geo) {
        Ok(planes) => rows_same(line, call, 0, planes[which]),
        Err(why) => rows_same(line, call, why.number(), rows::level_rows(0)),
    }
}

// Whether a door gives what the line has. Kinds 1 to 3; others never do.
fn agrees(line: &[u8], kind: u32) -> bool {
    let call = call_of(line);
    let first = plane_of(call.seed, call.top);
    let second = plane_of(listing::other(call.seed), call.top);
    let entries = at_most(call.entries, 4096);
    let plane = &first[..entries];
    let beside = &second[..entries];
    match kind {
        1 => substitution_same(line, call),
        2 => luma_same(line, call, plane),
        3 => chroma_same(line, call, plane, beside),
        _ => false,
    }
}

// The count with one line more.
fn with(count: Count, line: [u8; 459]) -> Count {
    if line[0] == 35 {
        return count;
    }
    count.with(agrees(&line, listing::word(&line, 0)))
}

// Reads the next line, and tells whether there was a whole one.
fn read_line<R: Read>(input: &mut R, line: &mut [u8]) -> io::Result<bool>
    ensures { result ≡ Ok true → Consumes (R.remaining input.old) (R.remaining input.new) line.new }
{
    match input.read_exact(line) {
        Ok(()) => Ok(true),
        Err(e) => {
            if e.kind() == ErrorKind::UnexpectedEof {
                Ok(false)
            } else {
                Err(e)
            }
        }
    }
}

// Reads the list line by line, 4096 at most.
fn replay<R: Read>(input: &mut R) -> io::Result<Count> {
    let mut count = Count {
        calls: 0,
        differ: 0,
    };
    for _ in 0..4096usize {
        let mut line = [0u8; 459];
        if !read_line(input, &mut line)? {
            break;
        }
        count = with(count, line);
    }
    Ok(count)
}

fn main(rt: HostRuntime) -> io::Result<()> {
    let count = replay(&mut rt.stdin())?;
    let calls = count.calls;
    let differ = count.differ;
    println!(rt; "refs: {calls} calls, {differ} differ")
}
