// An entry at native types for the runs of the error report over samples and a plan of numbers: it calls the door and hands its answer over
// as plain numbers. Rests on the door's contract.
ghost use Rattle.std.specs.Prelude.{◌≡◌};
ghost use Rattle.walk.specs.Lent.{lent_plan};
ghost use Rattle.errors.specs.Errors.{count_pair};
ghost use Rattle.probes.specs.error_probes.Probes.{report_with, count_answer};

use errors::Report;
use plan::tiling::Frame;

// What a call gives: its number and the block that it is about, and the next record's pairs and figures.
#[repr(C)]
#[derive(Drop)]
pub struct CountAnswer {
    pub no: u32,
    pub block: u32,
    pub pairs: u64,
    pub blocks: [u64; 35],
    pub samples: [u64; 35],
    pub squares: [u64; 35],
}

#[unsafe(no_mangle)]
pub extern "C" fn salvrunde_probe_count_errors(
    bits: u32,
    width: u32,
    height: u32,
    ctu: u32,
    pairs: u32,
    blocks: &[u64; 35],
    samples: &[u64; 35],
    squares: &[u64; 35],
    a: &[u16],
    b: &[u16],
    rows: &[u32],
    cols: &[u32],
    sides: &[u32],
    modes: &[u32],
) -> CountAnswer
    ensures { result ≡ count_answer (count_pair (report_with bits width height ctu pairs blocks.now samples.now squares.now) a.now b.now (lent_plan rows cols sides modes)) }
{
    let r = Report {
        bits,
        frame: Frame { width, height, ctu },
        pairs,
        blocks: *blocks,
        samples: *samples,
        squares: *squares,
    };
    match r.count_numbers(a, b, rows, cols, sides, modes) {
        Ok(next) => count_answer(0, 0, next),
        Err(rejected) => count_answer(
            rejected.fault.why.number(),
            rejected.fault.block,
            rejected.report,
        ),
    }
}

fn count_answer(no: u32, block: u32, next: Report) -> CountAnswer
    ensures { result ≡ count_answer (record { no = no; block = block; next = next }) }
{
    let blocks = next.blocks;
    let samples = next.samples;
    let squares = next.squares;
    CountAnswer {
        no,
        block,
        pairs: next.pairs as u64,
        blocks,
        samples,
        squares,
    }
}
