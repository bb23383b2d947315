// The choice of a luma mode on the meter (document 02, Wish 1): the mode of the 35 with the least sum of absolute differences. Rests on
// the domain's tests, the test of a source's samples, the rule and the smoothing of rows, and the predictors.
// A horizontal mode is predicted mirrored, as the vertical one that it mirrors, against the source with its rows as columns: rows are
// written quicker than columns.
#![tactic(auto)]

ghost use Rattle.std.specs.Prelude.{◌≡◌, true, ℕ, ◌+◌, ◌*◌, ◌≤◌, ◌<◌, length};
ghost use Rattle.laws.specs.Fill.{run, block};
ghost use Rattle.laws.specs.Sum.{total};
ghost use Rattle.laws.specs.Least.{FirstLeast};
ghost use Rattle.h265.specs.Notation.{from_rows};
ghost use Rattle.domain.specs.Domain.{depth_ok, size_ok};
ghost use Rattle.domain.specs.Facts.{Size};
ghost use Rattle.domain.specs.Refusal.{no_of};
ghost use Rattle.predict.specs.Lent.{entry_at, lent_neighbours};
ghost use Rattle.predict.specs.modes.Modes.{predicted_by_mode};
ghost use Rattle.predict.specs.refusals.Refusals.{lengths};
ghost use Rattle.choose.specs.Answers.{chosen_of};
ghost use Rattle.choose.specs.Choose.{apart, differences, source_at, mode_sum, lends_enough, choose_no, Chooses, lends, ScratchKept};
ghost use Rattle.choose.specs.Early.{source_from, UpTo};
ghost use Rattle.choose.specs.Sums.{turned_at, TurnedSource, Smooths};

use domain::refusal::Refusal;
use domain::rows;
use fmt::depth;
use octets::lent;
use predict::{angular, planar_dc};
use samples::filters;

// The mode that does best, and its sum of absolute differences.
#[derive(Clone, Copy, Debug, PartialEq, Eq)]
pub struct Best {
    pub mode: u8,
    pub sum: u32,
}

// The samples that a block is predicted from: the corner, the row above and the column to the left.
#[derive(Clone, Copy)]
struct Border<'a> {
    corner: u16,
    above: &'a [u16],
    left: &'a [u16],
    ghost long: { (65 ≤ length above.now) × (65 ≤ length left.now) },
}

// A block that modes are tried against: its samples, row by row, its side and its bit depth.
#[derive(Clone, Copy)]
struct Block<'a> {
    samples: &'a [u16],
    n: usize,
    bits: u32,
    ghost size: { size_ok n ≡ true },
    ghost depth: { depth_ok bits ≡ true },
    ghost room: { n * n ≤ length samples.now },
}

// The tables of the angular predictor, which are lent.
#[derive(Drop)]
struct Tables<'a> {
    refs: &'a mut [u16],
    indices: &'a mut [u32],
    fractions: &'a mut [u32],
    ghost long: { (193 ≤ length refs.now) × ((32 ≤ length indices.now) × (32 ≤ length fractions.now)) },
}

// How long all is that a call lends, but for the source.
#[derive(Clone, Copy)]
struct Lent {
    above: usize,
    left: usize,
    pred: usize,
    refs: usize,
    indices: usize,
    fractions: usize,
}

// The sum of absolute differences of as many samples as count, from entry from on in the source and from the first on in what was
// predicted. Rows that follow each other are one run: the compiler adds up many samples at once, and does so to the end. Their
// differences are of 16 bits, in which twice as many are done at once.
#[tactic(auto, using(laws::specs::Sum::total_none, laws::specs::Sum::total_more, crate::specs::Sums::apart_is))]
fn run_sum(source: &[u16], from: usize, pred: &[u16], count: usize) -> u32
    requires { (count ≤ 1024) × ((from + count ≤ length source.now) × (count ≤ length pred.now)) }
    ensures { (result ≡ total (λ (i : ℕ). apart (entry_at source (from + i)) (entry_at pred i)) count)
        × (result ≤ count * 65535) }
{
    let mut sum = 0;
    for i in 0..count {
        sum += source[from + i].abs_diff(pred[i]) as u32;
    }
    sum
}

// The sum of a block. A loop for each side, so that the compiler knows how long it is.
#[inline(always)]
fn block_sum(source: &[u16], pred: &[u16], n: usize) -> u32
    requires { Size n × ((n * n ≤ length source.now) × (n * n ≤ length pred.now)) }
    ensures { result ≡ differences (source_at n source.now) (source_at n pred.now) n n }
{
    match n {
        4 => run_sum(source, 0, pred, 16),
        8 => run_sum(source, 0, pred, 64),
        16 => run_sum(source, 0, pred, 256),
        _ => run_sum(source, 0, pred, 1024),
    }
}

// The sum of eight rows of a block of side 16 or 32, from row first on.
fn eight_sum(source: &[u16], first: usize, pred: &[u16], n: usize) -> u32
    requires { Size n × ((8 < n) × ((first + 8 ≤ n) × ((n * n ≤ length source.now) × (n * n ≤ length pred.now)))) }
    ensures { (result ≡ differences (source_from n source.now first) (source_at n pred.now) n 8)
        × (result ≤ 16776960) }
{
    match n {
        16 => run_sum(source, first * 16, pred, 128),
        _ => run_sum(source, first * 32, pred, 256),
    }
}

// A row of the turned source: column r of the source.
#[tactic(auto, using(laws::specs::FillLaws::run_none, laws::specs::FillLaws::run_more))]
fn turn_row(source: &[u16], n: usize, r: usize, turned: &mut [u16])
    requires { (r < n) × ((n ≤ 32) × ((n * n ≤ length source.now) × (n * n ≤ length turned.old))) }
    ensures { turned.new
        ≡ run (turned_at n source.now r) (r * n) n turned.old }
{
    for c in 0..n {
        turned[r * n + c] = source[c * n + r];
    }
}

// The source block with its rows as columns.
#[tactic(auto, using(laws::specs::FillLaws::rows_none))]
fn turn(source: &[u16], n: usize, turned: &mut [u16])
    requires { (n ≤ 32) × ((n * n ≤ length source.now) × (n * n ≤ length turned.old)) }
    ensures { turned.new ≡ block (turned_at n source.now) n turned.old }
{
    for r in 0..n {
        turn_row(source, n, r, &mut *turned);
    }
}

// A mode that is tried: what its block is predicted from, its edge filtered, and which block it is held against.
#[derive(Clone, Copy)]
struct Trial<'a> {
    mode: u8,
    border: Border<'a>,
    block: Block<'a>,
    ghost known: { mode ≤ 34 },
}

// What is predicted stands in a buffer that is lent. What is called for each mode is compiled into the search: else its record would be
// laid in memory for each and read back, and the tables' lengths be tested again.
impl Trial<'_> {
    ghost use Rattle.choose.specs.Given.{neighbours, distance, Upward};

    // The block, from the border as it is.
    #[inline(always)]
    fn predict(&self, pred: &mut [u16], tables: &mut Tables)
        requires { self.now.block.n * self.now.block.n ≤ length pred.old }
        ensures { let t = self.now in let k = self.now.block in pred.new
            ≡ block (λ (y x : ℕ). predicted_by_mode k.bits true true k.n t.mode (neighbours t.border) x y) k.n pred.old }
    {
        let Border {
            corner,
            above,
            left,
        } = self.border;
        let n = self.block.n;
        match self.mode {
            0 => {
                let _ = planar_dc::predict_planar_into(above, left, n, &mut *pred);
            }
            1 => {
                let _ = planar_dc::predict_dc_into(above, left, n, true, &mut *pred);
            }
            mode => {
                let _ = angular::predict_angular_slices(
                    corner,
                    above,
                    left,
                    n,
                    mode,
                    true,
                    self.block.bits,
                    &mut *pred,
                    &mut *tables.refs,
                    &mut *tables.indices,
                    &mut *tables.fractions,
                );
            }
        }
    }

    // How far it is from the block's samples.
    #[inline(always)]
    fn tried(&self, pred: &mut [u16], tables: &mut Tables) -> u32
        requires { self.now.block.n * self.now.block.n ≤ length pred.old }
        ensures { result ≡ distance self.now }
    {
        self.predict(&mut *pred, tables);
        block_sum(self.block.samples, &*pred, self.block.n)
    }

    // The same of a vertical mode that is not 26 and a side above 8, eight rows at a time and the last ones first: there, far from what
    // they are predicted from, samples are the furthest off. It ends once the sum is no longer below a limit.
    #[inline(always)]
    fn upward(&self, limit: u32, pred: &mut [u16], refs: &mut [u16]) -> u32
        requires { Upward self.now (length pred.old) (length refs.old) }
        ensures { UpTo (Some limit) (distance self.now) result }
    {
        let Border {
            corner,
            above,
            left,
        } = self.border;
        let n = self.block.n;
        let _ = angular::vertical_refs(corner, above, left, n, self.mode, &mut *refs);
        let mut sum: u32 = 0;
        for eight in (0..n / 8).rev() {
            if sum >= limit {
                break;
            }
            let first = 8 * eight;
            let _ = angular::vertical_rows(
                above,
                &*refs,
                n,
                self.mode,
                first,
                first + 8,
                &mut *pred,
            );
            sum += eight_sum(self.block.samples, first, &*pred, n);
        }
        sum
    }

    // The same of any mode, which is dropped early where there is a limit: once its sum is no longer below that it has lost. Nothing is
    // below 0.
    #[inline(always)]
    fn until(&self, limit: Option<u32>, pred: &mut [u16], tables: &mut Tables) -> u32
        requires { self.now.block.n * self.now.block.n ≤ length pred.old }
        ensures { UpTo limit (distance self.now) result }
    {
        let mode = self.mode;
        match limit {
            Some(0) => 0,
            Some(most) if (mode >= 18) & (mode != 26) & (self.block.n > 8) => {
                self.upward(most, &mut *pred, &mut *tables.refs)
            }
            _ => self.tried(&mut *pred, tables),
        }
    }
}

// A search over all modes: the border as it is, the same smoothed, the block, the block's samples with rows as columns, and whether a
// mode may be dropped early.
#[derive(Clone, Copy)]
struct Search<'a> {
    border: Border<'a>,
    smooth: Border<'a>,
    block: Block<'a>,
    turned: &'a [u16],
    early: bool,
    ghost turns: { TurnedSource block.n block.samples.now turned.now },
    ghost smooths: { Smooths block.bits block.n (from_rows border.corner border.above.now border.left.now)
        (from_rows smooth.corner smooth.above.now smooth.left.now) },
}

impl<'a> Search<'a> {
    ghost use Rattle.choose.specs.Given.{distance, sum_of};

    // A mode, from the smoothed border where the rule says so, and from the border as it is where it does not.
    #[inline(always)]
    fn upright(&self, mode: u8) -> Trial<'a>
        requires { mode ≤ 34 }
        ensures { (result.mode ≡ mode) × ((result.block ≡ self.now.block) × (distance result ≡ sum_of self.now mode)) }
    {
        if filters::smooths(mode, self.block.n) {
            return Trial {
                mode,
                border: self.smooth,
                block: self.block,
            };
        }
        Trial {
            mode,
            border: self.border,
            block: self.block,
        }
    }

    // The same, a horizontal mode mirrored.
    #[inline(always)]
    fn trial(&self, mode: u8) -> Trial<'a>
        requires { mode ≤ 34 }
        ensures { (result.block.n ≡ self.now.block.n) × (distance result ≡ sum_of self.now mode) }
    {
        let upright = self.upright(mode);
        if (mode >= 2) & (mode < 18) {
            let border = Border {
                corner: upright.border.corner,
                above: upright.border.left,
                left: upright.border.above,
            };
            let block = Block {
                samples: self.turned,
                n: self.block.n,
                bits: self.block.bits,
            };
            return Trial {
                mode: 36 - mode,
                border,
                block,
            };
        }
        upright
    }

    // The first of the modes whose sum is the least: a later one takes over where it does better, so that one which may be dropped early
    // has lost once it is not below the best.
    #[inline(always)]
    fn least(&self, pred: &mut [u16], tables: &mut Tables) -> Best
        requires { self.now.block.n * self.now.block.n ≤ length pred.old }
        ensures { FirstLeast (sum_of self.now) 35 result.mode result.sum }
    {
        let mut best = self.trial(0).tried(&mut *pred, tables);
        let mut chosen: u8 = 0;
        for mode in 1..35u8 {
            let limit = self.early.then_some(best);
            let sum = self.trial(mode).until(limit, &mut *pred, tables);
            if sum < best {
                best = sum;
                chosen = mode;
            }
        }
        Best {
            mode: chosen,
            sum: best,
        }
    }
}

// The search from a border and the same smoothed.
#[inline(always)]
fn search_from<'a>(
    border: Border<'a>,
    smooth: Border<'a>,
    block: Block<'a>,
    turned: &'a [u16],
    early: bool,
    pred: &mut [u16],
    tables: &mut Tables,
) -> Best
    requires { TurnedSource block.n block.samples.now turned.now
        × (Smooths block.bits block.n (from_rows border.corner border.above.now border.left.now)
        (from_rows smooth.corner smooth.above.now smooth.left.now) × (block.n * block.n ≤ length pred.old)) }
    ensures { FirstLeast (mode_sum block.entry.bits block.entry.n
        (from_rows border.entry.corner border.entry.above.now border.entry.left.now) block.entry.samples.now)
        35 result.mode result.sum }
{
    let search = Search {
        border,
        smooth,
        block,
        turned,
        early,
    };
    search.least(&mut *pred, tables)
}

// The search, with rows that are smoothed once for all modes. No mode of side 4 asks for them. The source comes turned: turned in here,
// a block of side 4 took a tenth longer.
fn search_all(
    border: Border,
    block: Block,
    turned: &[u16],
    early: bool,
    pred: &mut [u16],
    tables: &mut Tables,
) -> Best
    requires { TurnedSource block.n block.samples.now turned.now × (block.n * block.n ≤ length pred.old) }
    ensures { FirstLeast (mode_sum block.entry.bits block.entry.n
        (from_rows border.entry.corner border.entry.above.now border.entry.left.now) block.entry.samples.now)
        35 result.mode result.sum }
{
    if block.n == 4 {
        return search_from(border, border, block, turned, early, &mut *pred, tables);
    }
    let rows = smooth::filter_luma_refs(
        border.corner,
        border.above,
        border.left,
        block.n,
        block.bits,
    )
    .unwrap_or(rows::level_rows(0));
    let smooth = Border {
        corner: rows.corner,
        above: &rows.above,
        left: &rows.left,
    };
    search_from(border, smooth, block, turned, early, &mut *pred, tables)
}

// Number 5: whether each list that is lent is long enough.
fn lends_enough(n: usize, source: usize, lent: Lent) -> bool
    requires { Size n }
    ensures { result
        ≡ lends_enough n source (lengths lent.above lent.left lent.pred lent.refs lent.indices lent.fractions) }
{
    let samples = n * n;
    (lent.above >= 65)
        & (lent.left >= 65)
        & (source >= samples)
        & (lent.pred >= samples)
        & (lent.refs >= 193)
        & (lent.indices >= 32)
        & (lent.fractions >= 32)
}

// Whether a choice is served, or why it is refused.
#[tactic(auto, using(fmt::specs::depth::Laws::largest_of_is, domain::specs::Facts::depth_of), unfolding(crate::specs::Choose::choose_no))]
fn check_choice(bits: u32, n: usize, source: &[u16], lent: Lent) -> Result<(), Refusal>
    ensures { no_of result
        ≡ choose_no bits n source.now (lengths lent.above lent.left lent.pred lent.refs lent.indices lent.fractions) }
{
    if !domain::depth_ok(bits) {
        return Err(Refusal::Depth);
    }
    if !domain::size_ok(n) {
        return Err(Refusal::Size);
    }
    if !lends_enough(n, source.len(), lent) {
        return Err(Refusal::Buffer);
    }
    if !lent::samples_ok(&source[..n * n], depth::largest_of(bits)) {
        return Err(Refusal::Sample);
    }
    Ok(())
}

// The check, then the search, in full or early.
fn answer(
    corner: u16,
    above: &[u16],
    left: &[u16],
    source: &[u16],
    n: usize,
    bits: u32,
    early: bool,
    pred: &mut [u16],
    refs: &mut [u16],
    indices: &mut [u32],
    fractions: &mut [u32],
) -> Result<Best, Refusal>
    ensures { Chooses (choose_no bits n source.now (lends above left pred refs indices fractions))
        (mode_sum bits n (lent_neighbours corner above left) source.now) (chosen_of result)
        × ((no_of result ≡ 0 → ⊥) → ScratchKept pred refs indices fractions) }
{
    let lent = Lent {
        above: above.len(),
        left: left.len(),
        pred: pred.len(),
        refs: refs.len(),
        indices: indices.len(),
        fractions: fractions.len(),
    };
    check_choice(bits, n, source, lent)?;
    let mut turned = [0u16; 1024];
    turn(source, n, &mut turned);
    let border = Border {
        corner,
        above,
        left,
    };
    let block = Block {
        samples: source,
        n,
        bits,
    };
    let mut tables = Tables {
        refs: &mut *refs,
        indices: &mut *indices,
        fractions: &mut *fractions,
    };
    Ok(search_all(border, block, &turned, early, &mut *pred, &mut tables))
}

// The luma mode whose prediction from a corner and two rows is nearest to a block of side n, the lowest on a tie. The last four slices
// are scratch: a block's buffer and the tables of the angular predictor.
pub fn choose_mode(
    corner: u16,
    above: &[u16],
    left: &[u16],
    source: &[u16],
    n: usize,
    bits: u32,
    pred: &mut [u16],
    refs: &mut [u16],
    indices: &mut [u32],
    fractions: &mut [u32],
) -> Result<Best, Refusal>
    ensures { Chooses (choose_no bits n source.now (lends above left pred refs indices fractions))
        (mode_sum bits n (lent_neighbours corner above left) source.now) (chosen_of result)
        × ((no_of result ≡ 0 → ⊥) → ScratchKept pred refs indices fractions) }
{
    answer(
        corner,
        above,
        left,
        source,
        n,
        bits,
        false,
        &mut *pred,
        &mut *refs,
        &mut *indices,
        &mut *fractions,
    )
}

// The same, where a mode is dropped as soon as what is added up of its sum shows that it cannot win.
pub fn choose_early(
    corner: u16,
    above: &[u16],
    left: &[u16],
    source: &[u16],
    n: usize,
    bits: u32,
    pred: &mut [u16],
    refs: &mut [u16],
    indices: &mut [u32],
    fractions: &mut [u32],
) -> Result<Best, Refusal>
    ensures { Chooses (choose_no bits n source.now (lends above left pred refs indices fractions))
        (mode_sum bits n (lent_neighbours corner above left) source.now) (chosen_of result)
        × ((no_of result ≡ 0 → ⊥) → ScratchKept pred refs indices fractions) }
{
    answer(
        corner,
        above,
        left,
        source,
        n,
        bits,
        true,
        &mut *pred,
        &mut *refs,
        &mut *indices,
        &mut *fractions,
    )
}
