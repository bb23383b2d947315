// The entries of probes::error_probes.
ghost use Rattle.std.specs.Prelude.{◌≡◌};
ghost use Rattle.walk.specs.Lent.{lent_plan};
ghost use Rattle.errors.specs.Errors.{count_pair};
ghost use Rattle.probes.specs.error_probes.Probes.{report_with, count_answer};

use probes::error_probes::CountAnswer;

#[unsafe(no_mangle)]
pub extern "C" fn salvrunde_probe_count_errors(
    bits: u32,
    width: u32,
    height: u32,
    ctu: u32,
    pairs: u32,
    blocks: &[u64; 35],
    samples: &[u64; 35],
    squares: &[u64; 35],
    a: &[u16],
    b: &[u16],
    rows: &[u32],
    cols: &[u32],
    sides: &[u32],
    modes: &[u32],
) -> CountAnswer
    ensures { result ≡ count_answer (count_pair (report_with bits width height ctu pairs blocks.now samples.now squares.now) a.now b.now (lent_plan rows cols sides modes)) }
{
    probes::error_probes::salvrunde_probe_count_errors(
        bits, width, height, ctu, pairs, blocks, samples, squares, a, b, rows, cols, sides, modes,
    )
}
