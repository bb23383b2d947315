// The choice of a luma mode for C: from rows and a source block of bytes to a mode and its sum, two numbers of four bytes (document 02,
// Wish 1). Rests on the chooser, on reading rows and samples, and on storing a number.
ghost use Rattle.std.specs.Prelude.{◌≡◌, ℕ, ◌≤◌, length, get_or};
ghost use Rattle.laws.specs.Fill.{fill};
ghost use Rattle.octets.specs.Bytes.{samples_of};
ghost use Rattle.domain.specs.Refusal.{no_of};
ghost use Rattle.predict.specs.Lent.{lent_neighbours};
ghost use Rattle.choose.specs.Answers.{chosen_of};
ghost use Rattle.choose.specs.Choose.{mode_sum, choose_no, Chooses, lends};
ghost use Rattle.camera.specs.Written.{wrote};
ghost use Rattle.camera.specs.choice.Entry.{samples_no, choice_lent_no, choice_no, choice_sums, ChoosesInto};
ghost use Rattle.camera.specs.choice.Laws.{Choosable};

use crate::{gather, prediction, replay};
use choose::Best;
use domain::refusal::Refusal;

// The depth, the size and the lengths in bytes: 1, 2 and 5.
#[tactic(auto, unfolding(crate::specs::choice::Entry::choice_lent_no))]
fn check_lent(
    bits: u32,
    n: usize,
    above: usize,
    left: usize,
    source: usize,
    out: usize,
) -> Result<(), Refusal>
    ensures { no_of result ≡ choice_lent_no bits n above left source out }
{
    if !domain::depth_ok(bits) {
        return Err(Refusal::Depth);
    }
    if !domain::size_ok(n) {
        return Err(Refusal::Size);
    }
    if !((above >= 130) & (left >= 130) & (source >= 2 * (n * n)) & (out >= 8)) {
        return Err(Refusal::Buffer);
    }
    Ok(())
}

// The first `count` samples of a source.
#[tactic(auto, using(laws::specs::FillLaws::fill_none, laws::specs::FillLaws::fill_more))]
fn read_samples(source: &[u8], count: usize, out: &mut [u16])
    requires { (count ≤ length (samples_of source.now)) × (count ≤ length out.old) }
    ensures { out.new
        ≡ fill (λ (i : ℕ). get_or (samples_of source.now) i 0) count out.old }
{
    for i in 0..count {
        out[i] = gather::sample_in(source, i);
    }
}

// The chooser in full or early: the two have one contract.
fn search(
    early: bool,
    corner: u16,
    above: &[u16],
    left: &[u16],
    source: &[u16],
    n: usize,
    bits: u32,
    pred: &mut [u16],
    refs: &mut [u16],
    indices: &mut [u32],
    fractions: &mut [u32],
) -> Result<Best, Refusal>
    ensures { Chooses (choose_no bits n source.now (lends above left pred refs indices fractions))
        (mode_sum bits n (lent_neighbours corner above left) source.now) (chosen_of result) }
{
    if early {
        return choose::choose_early(
            corner,
            above,
            left,
            source,
            n,
            bits,
            &mut *pred,
            &mut *refs,
            &mut *indices,
            &mut *fractions,
        );
    }
    choose::choose_mode(
        corner,
        above,
        left,
        source,
        n,
        bits,
        &mut *pred,
        &mut *refs,
        &mut *indices,
        &mut *fractions,
    )
}

// The choice from rows and a block of bytes, with scratch of its own.
fn choose_block(
    early: bool,
    bits: u32,
    n: usize,
    corner: u16,
    above: &[u8],
    left: &[u8],
    source: &[u8],
) -> Result<Best, Refusal>
    requires { Choosable bits n (length above.now) (length left.now) (length source.now) }
    ensures { Chooses (samples_no bits n (samples_of source.now))
        (choice_sums bits n corner above.now left.now source.now) (chosen_of result) }
{
    let mut samples = [0u16; 1024];
    read_samples(source, n * n, &mut samples);
    let mut up = [0u16; 65];
    let mut side = [0u16; 65];
    prediction::read_row(above, n, &mut up);
    prediction::read_row(left, n, &mut side);
    let mut pred = [0u16; 1024];
    let mut refs = [0u16; 193];
    let mut indices = [0u32; 32];
    let mut fractions = [0u32; 32];
    search(
        early,
        corner,
        &up,
        &side,
        &samples,
        n,
        bits,
        &mut pred,
        &mut refs,
        &mut indices,
        &mut fractions,
    )
}

// The mode and its sum into the first 8 bytes of `out`, by either search. Numbers 1, 2, 5, 7.
pub(crate) fn choose(
    early: bool,
    bits: u32,
    n: u32,
    corner: u16,
    above: &[u8],
    left: &[u8],
    source: &[u8],
    out: &mut [u8],
) -> Result<(), Refusal>
    ensures { ChoosesInto
        (choice_no bits n above.now left.now source.now out.old)
        (choice_sums bits n corner above.now left.now source.now) out.old
        (wrote (no_of result) out.new) }
{
    check_lent(
        bits,
        n as usize,
        above.len(),
        left.len(),
        source.len(),
        out.len(),
    )?;
    let best = choose_block(early, bits, n as usize, corner, above, left, source)?;
    replay::put_word(out, 0, best.mode as u32);
    replay::put_word(out, 4, best.sum);
    Ok(())
}
