// A report as 864 bytes, the lowest byte first: depth, width, height, CTU, pairs and a block number, of four bytes each; then blocks,
// samples and squares of the 35 modes, of eight bytes each. For the entries that C calls. Rests on the doors of a report.
ghost use Rattle.std.specs.Prelude.{◌≡◌, ℕ, ◌+◌, ◌/◌, ◌%◌, ◌^◌, ◌≤◌, ◌<◌, length, get_or};
ghost use Rattle.laws.specs.Fill.{run};
ghost use Rattle.laws.specs.Bytes.{le_at};
ghost use Rattle.errors.specs.RecordBytes.{figures_at, report_at, figures_into, report_into, entered, count_entry};
ghost use Rattle.errors.specs.RecordBytes.{join_entry};

use crate::{Report, on_bytes};
use plan::tiling::Frame;

// The number of w bytes from a place on.
fn number_at(b: &[u8], at: usize, w: usize) -> u64
    requires { (at + w ≤ length b.now) × (w ≤ 8) }
    ensures { (result ≡ le_at w b.now at) × (result < 256 ^ w) }
{
    let mut v = 0;
    for i in (0..w).rev() {
        v = b[at + i] as u64 + 256 * v;
    }
    v
}

// Stores a number as w bytes from a place on.
#[tactic(auto, using(laws::specs::FillLaws::run_none, laws::specs::FillLaws::run_more, crate::specs::RecordLaws::rest_more))]
fn put_number(b: &mut [u8], at: usize, w: usize, v: u64)
    requires { (at + w ≤ length b.old) × (w ≤ 8) }
    ensures { b.new ≡ run (λ (j : ℕ). v / 256 ^ j % 256) at w b.old }
{
    let mut rest = v;
    for j in 0..w {
        b[at + j] = (rest % 256) as u8;
        rest /= 256;
    }
}

// The figures of 35 modes that begin at a byte.
#[tactic(auto, using(laws::specs::FillLaws::fill_none, laws::specs::FillLaws::fill_more))]
fn figures_at(b: &[u8], at: usize) -> [u64; 35]
    requires { at + 280 ≤ length b.now }
    ensures { result ≡ figures_at b.now at }
{
    let mut out = [0u64; 35];
    for m in 0..35 {
        out[m] = number_at(b, at + m * 8, 8);
    }
    out
}

// Stores the figures of 35 modes.
fn put_figures(b: &mut [u8], at: usize, figures: [u64; 35])
    requires { at + 280 ≤ length b.old }
    ensures { b.new ≡ figures_into at figures b.old }
{
    for (m, figure) in figures.iter().enumerate() {
        put_number(&mut *b, at + m * 8, 8, *figure);
    }
}

// The report that 864 bytes spell.
fn report_at(b: &[u8]) -> Report
    requires { 864 ≤ length b.now }
    ensures { result ≡ report_at b.now }
{
    let frame = Frame {
        width: number_at(b, 4, 4) as u32,
        height: number_at(b, 8, 4) as u32,
        ctu: number_at(b, 12, 4) as u32,
    };
    Report {
        bits: number_at(b, 0, 4) as u32,
        frame,
        pairs: number_at(b, 16, 4) as u32,
        blocks: figures_at(b, 24),
        samples: figures_at(b, 304),
        squares: figures_at(b, 584),
    }
}

// Stores what a report has counted. Its settings stay.
fn put_report(b: &mut [u8], r: Report)
    requires { 864 ≤ length b.old }
    ensures { b.new ≡ report_into r b.old }
{
    put_number(&mut *b, 16, 4, r.pairs as u64);
    put_figures(&mut *b, 24, r.blocks);
    put_figures(&mut *b, 304, r.samples);
    put_figures(&mut *b, 584, r.squares);
}

// Counts a pair of planes of bytes into a record of bytes.
#[tactic(auto, unfolding(crate::specs::RecordBytes::count_entry))]
pub fn count_into(a: &[u8], b: &[u8], plan: &[u8], report: &mut [u8]) -> u32
    ensures { entered result report.new ≡ count_entry a.now b.now plan.now
        report.old }
{
    if report.len() < 864 {
        return 5;
    }
    match on_bytes::count_bytes(report_at(&*report), a, b, plan) {
        Err(rejected) => {
            put_number(&mut *report, 20, 4, rejected.fault.block as u64);
            rejected.fault.why.number()
        }
        Ok(next) => {
            put_number(&mut *report, 20, 4, 0);
            put_report(&mut *report, next);
            0
        }
    }
}

// Adds a record of bytes to another.
#[tactic(auto, unfolding(crate::specs::RecordBytes::join_entry))]
pub fn join_into(other: &[u8], report: &mut [u8]) -> u32
    ensures { entered result report.new ≡ join_entry other.now report.old }
{
    if !((report.len() >= 864) & (other.len() >= 864)) {
        return 5;
    }
    match report_at(&*report).join(report_at(other)) {
        Err(rejected) => rejected.fault.why.number(),
        Ok(next) => {
            put_report(&mut *report, next);
            0
        }
    }
}
