// Replays the Rust's answers on the doors of fmt and order: the list is the file stdin, and what is printed is tested
// against the file stdout. Rests on the doors' contracts for its safety.
//
// The list is made by `tests/differential/run list`. A line is eleven words of eight hex digits: the kind of the call, what
// it is given, what it is to answer, and zeros. A line that opens with # and eight spaces is a comment, as long as the others.
#![tactic(auto)]

ghost use Rattle.std.specs.Prelude.{◌+◌, ◌≤◌, ◌<◌, IfOk, length, take};
ghost use Rattle.std.specs.Io.{ReadsAtMost};
ghost use Rattle.std.specs.Io.KnownBytes.{Consumes, IsAtEnd};

use fmt::depth::BitDepth;
use fmt::{ChromaFormat, LumaCol, LumaRow};
use listing::Count;
use order::{LumaNeighbour, Picture};
use std::io;
use std::io::Read;

// A line's word of a number, counted from 0.
fn word(list: &[u8], line: u16, number: u8) -> u32 {
    listing::word(list, 11 * (line as u32) + (number as u32))
}

// What a line gives a call and wants of it.
fn call_of(list: &[u8], line: u16) -> [u32; 10] {
    let mut call = [0u32; 10];
    call[0] = word(list, line, 1);
    call[1] = word(list, line, 2);
    call[2] = word(list, line, 3);
    call[3] = word(list, line, 4);
    call[4] = word(list, line, 5);
    call[5] = word(list, line, 6);
    call[6] = word(list, line, 7);
    call[7] = word(list, line, 8);
    call[8] = word(list, line, 9);
    call[9] = word(list, line, 10);
    call
}

// Whether a door gives another answer than the list has.
fn depth_differs(call: [u32; 10]) -> bool {
    match BitDepth::from_bits(call[0]) {
        Ok(d) => {
            let bits = d.bits() as u32;
            let largest = d.max_val() as u32;
            let neutral = d.neutral() as u32;
            (call[1] != 0) | (call[2] != bits) | (call[3] != largest) | (call[4] != neutral)
        }
        Err(_) => call[1] != 1,
    }
}

fn format_differs(call: [u32; 10]) -> bool {
    match ChromaFormat::from_idc(call[0]) {
        Some(f) => {
            let across = f.sub_w();
            let down = f.sub_h();
            (call[1] != 1) | ((call[2] as usize) != across) | ((call[3] as usize) != down)
        }
        None => call[1] != 0,
    }
}

fn order_differs(call: [u32; 10]) -> bool {
    let picture = Picture {
        width: call[2],
        height: call[3],
        ctu: call[4],
        unit: call[5],
    };
    match order::decode_order(LumaRow(call[0]), LumaCol(call[1]), picture) {
        Ok(number) => (call[6] != 0) | (call[7] != number),
        Err(why) => (call[6] != why.number()) | (call[7] != 0),
    }
}

// A neighbour's coordinate is written with 2^31 added.
fn coordinate(word: u32) -> i64 {
    (word as i64) - 2147483648
}

fn available_differs(call: [u32; 10]) -> bool {
    let at = LumaNeighbour {
        row: coordinate(call[0]),
        col: coordinate(call[1]),
    };
    let picture = Picture {
        width: call[4],
        height: call[5],
        ctu: call[6],
        unit: call[7],
    };
    match order::is_available(at, LumaRow(call[2]), LumaCol(call[3]), picture) {
        Ok(yes) => (call[8] != 0) | (call[9] != (yes as u32)),
        Err(why) => (call[8] != why.number()) | (call[9] != 0),
    }
}

fn differs(kind: u32, call: [u32; 10]) -> bool {
    match kind {
        1 => depth_differs(call),
        2 => format_differs(call),
        3 => order_differs(call),
        _ => available_differs(call),
    }
}

// The count with a line's call, if it is one of the kind.
fn with(count: Count, kind: u32, list: &[u8], line: u16) -> Count {
    if word(list, line, 0) != kind {
        return count;
    }
    count.with(!differs(kind, call_of(list, line)))
}

// Whole lines, 4096 at most.
fn lines_in(len: usize) -> usize
    ensures { result ≤ 4096 }
{
    let lines = len / 99;
    if lines > 4096 {
        return 4096;
    }
    lines
}

// Replays the calls of one kind.
fn replay(list: &[u8], kind: u32) -> Count {
    let mut count = Count {
        calls: 0,
        differ: 0,
    };
    for line in 0..lines_in(list.len()) {
        count = with(count, kind, list, line as u16);
    }
    count
}

// Reads until the buffer is full or the input ends, and tells how many bytes.
fn read_full<R: Read>(input: &mut R, buffer: &mut [u8]) -> io::Result<usize>
    ensures bound { ReadsAtMost result buffer.new }
    ensures octets { IfOk result (λ n. Consumes (R.remaining input.old) (R.remaining input.new) (take n buffer.new)) }
    ensures end { IfOk result (λ n. n < length buffer.new → IsAtEnd (R.remaining input.new)) }
{
    let mut done = 0;
    while done < buffer.len() {
        let n = input.read(&mut buffer[done..])?;
        if n == 0 {
            break;
        }
        done += n;
    }
    Ok(done)
}

fn report(rt: &impl Print, name: &str, list: &[u8], kind: u32) -> io::Result<()> {
    let count = replay(list, kind);
    let calls = count.calls;
    let differ = count.differ;
    println!(rt; "{name}: {calls} calls, {differ} differ")
}

fn main(rt: HostRuntime) -> io::Result<()> {
    let mut buffer = [0u8; 65536];
    let n = read_full(&mut rt.stdin(), &mut buffer)?;
    let list = &buffer[..n];
    report(&rt, "depth", list, 1)?;
    report(&rt, "format", list, 2)?;
    report(&rt, "order", list, 3)?;
    report(&rt, "availability", list, 4)
}
