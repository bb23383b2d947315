// An exact report of how far coded stills are from their sources, mode by mode (document 02, Wish 14). Rests on the domain's tests, the
// figures of a depth, the test of a plane's samples and the plan check.
#![tactic(auto)]

pub mod on_bytes;
mod plane;
pub mod record;

ghost use Rattle.std.specs.Prelude.{◌≡◌, ◌&&◌, ℕ, ◌+◌, ◌-◌, ◌*◌, ◌≤◌, ◌<◌, cond, length, get_or};
ghost use Rattle.domain.specs.Facts.{Depth};
ghost use Rattle.order.specs.Good.{Good};
ghost use Rattle.plan.specs.tiling.Tiling.{picture_of};
ghost use Rattle.laws.specs.Sum.{total};
ghost use Rattle.plan.specs.tiling.Plan.{plan_of, listed};
ghost use Rattle.errors.specs.Errors.{square_apart, squares_in, tallied, pair_tally, fresh_report, plane_area, top_of};
ghost use Rattle.errors.specs.Errors.{at_most, keeps_limits, room_for_pair, pair_no, pair_verdict, counted_by, count_pair};
ghost use Rattle.errors.specs.Errors.{same_settings, join_no, join_reports, raised, tally_of};
ghost use Rattle.errors.specs.Served.{SamplesLow, BlockPair, RoomFor, Limitable};
ghost use Rattle.errors.specs.Blocks.{with_block};
ghost use Rattle.errors.specs.Answers.{counted_of, whole_of};
ghost use Rattle.domain.specs.Refusal.{no_of};
ghost use Rattle.plan.specs.Answers.{verdict_of};

use crate::plane::Plane;
use domain::refusal::Refusal;
use fmt::depth;
use octets::lent;
use octets::lent::Samples;
use plan::blocks::{Blocks, Numbers};
use plan::tiling::{Block, Fault, Frame};

// Depth, picture and CTU of the pairs that are counted, how many they are, and for each mode its blocks, their samples, and the squares of
// the differences in them.
#[derive(Clone, Copy, PartialEq, Eq, Debug)]
pub struct Report {
    pub bits: u32,
    pub frame: Frame,
    pub pairs: u32,
    pub blocks: [u64; 35],
    pub samples: [u64; 35],
    pub squares: [u64; 35],
}

// Why a call is refused, the block that this is about, and the report as it was given.
#[derive(Clone, Copy, PartialEq, Eq, Debug)]
pub struct Rejected {
    pub fault: Fault,
    pub report: Report,
}

// The square of how far two samples are apart. The remainder changes nothing: it shows the compiler a number of 12 bits, whose square is
// one instruction for eight samples.
fn square_apart(x: u16, y: u16) -> u32
    requires { (x ≤ 4095) × (y ≤ 4095) }
    ensures { (result ≡ square_apart x y) × (result ≤ 16769025) }
{
    let d = (x.abs_diff(y) % 4096) as u32;
    d * d
}

// The squares of a row of a block, whose first sample is `at`.
#[tactic(auto, using(laws::specs::Sum::total_none, laws::specs::Sum::total_more))]
fn row_squares<S: Plane>(a: S, b: S, at: usize, n: usize) -> u32
    requires within { (at + n ≤ length (S.list a)) × (at + n ≤ length (S.list b)) }
    requires small { (at ≤ 16781312) × (n ≤ 32) }
    requires low { SamplesLow (S.list a) × SamplesLow (S.list b) }
    ensures { (result ≡ total (λ (c : ℕ). square_apart (get_or (S.list a) (at + c) 0) (get_or (S.list b) (at + c) 0)) n)
        × (result ≤ n * 16769025) }
{
    let mut sum = 0;
    for i in 0..n {
        sum += square_apart(a.there(at + i), b.there(at + i));
    }
    sum
}

// The squares of the n rows of a block of side n.
fn rows_squares<S: Plane>(a: S, b: S, width: u32, t: Block, n: usize) -> u64
    requires { (n ≡ t.side) × BlockPair (S.list a) (S.list b) width t }
    ensures { result ≡ squares_in (S.list a) (S.list b) width t }
{
    let across = width as usize;
    let row = t.row as usize;
    let col = t.col as usize;
    let mut sum = 0;
    for r in 0..n {
        let more = row_squares(a, b, (row + r) * across + col, n);
        sum += more as u64;
    }
    sum
}

// The squares of a block. Loops for each side, so that the compiler knows how long they are.
fn block_squares<S: Plane>(a: S, b: S, width: u32, t: Block) -> u64
    requires { BlockPair (S.list a) (S.list b) width t }
    ensures { result ≡ squares_in (S.list a) (S.list b) width t }
{
    let n = t.side;
    match n {
        4 => rows_squares(a, b, width, t, 4),
        8 => rows_squares(a, b, width, t, 8),
        16 => rows_squares(a, b, width, t, 16),
        _ => rows_squares(a, b, width, t, 32),
    }
}

// Whether no figure is above a limit.
#[tactic(auto, using(laws::specs::Every::pass_none, laws::specs::Every::pass_more))]
fn at_most(most: u64, figures: [u64; 35]) -> bool
    ensures { result ≡ at_most most figures }
{
    let mut ok = true;
    for figure in figures {
        ok &= figure <= most;
    }
    ok
}

// The figures of two reports, mode by mode.
#[tactic(auto, using(laws::specs::FillLaws::fill_none, laws::specs::FillLaws::fill_more))]
fn figures_added(a: [u64; 35], b: [u64; 35]) -> [u64; 35]
    requires { (m : ℕ) → get_or a m 0 + get_or b m 0 < 18446744073709551616 }
    ensures { result ≡ raised (λ (m : ℕ). get_or b m 0) a }
{
    let mut out = a;
    for m in 0..35 {
        out[m] = a[m] + b[m];
    }
    out
}

impl Report {
    // A report of no pair yet.
    pub fn fresh(bits: u32, frame: Frame) -> Self
        ensures { result ≡ fresh_report bits frame }
    {
        Report {
            bits,
            frame,
            pairs: 0,
            blocks: [0; 35],
            samples: [0; 35],
            squares: [0; 35],
        }
    }

    // Counts a pair of planes under a plan of numbers: how far b is from a.
    pub fn count_numbers(
        self,
        a: &[u16],
        b: &[u16],
        rows: &[u32],
        cols: &[u32],
        sides: &[u32],
        modes: &[u32],
    ) -> Result<Report, Rejected>
        ensures { counted_of result ≡ count_pair self a.now b.now (plan_of rows.now cols.now sides.now modes.now) }
    {
        let plan = Numbers {
            rows,
            cols,
            sides,
            modes,
        };
        self.count_pair(a, b, plan)
    }

    // The same under a plan of records.
    pub fn count(self, a: &[u16], b: &[u16], plan: &[Block]) -> Result<Report, Rejected>
        ensures { counted_of result ≡ count_pair self a.now b.now (listed plan.now) }
    {
        self.count_pair(a, b, plan)
    }

    // Adds another report of the same depth, picture and CTU: what was counted apart is counted together.
    #[tactic(auto, unfolding(crate::specs::Errors::join_reports), using(domain::specs::Refused::never_0))]
    pub fn join(self, other: Report) -> Result<Report, Rejected>
        ensures { counted_of result ≡ whole_of (join_reports self other) }
    {
        match self.check_join(other) {
            Err(why) => Err(self.rejected(Fault::from(why))),
            Ok(()) => Ok(self.added(other)),
        }
    }

    // What follows is built into the doors: each call that is left takes a copy of the report, 864 bytes of the stack.

    // What a refused call hands back: the report as it was given.
    #[inline(always)]
    fn rejected(self, fault: Fault) -> Rejected
        ensures { result ≡ record { fault = fault; report = self } }
    {
        Rejected {
            fault,
            report: self,
        }
    }

    // How many samples a plane has.
    #[inline(always)]
    fn area(self) -> usize
        ensures { result ≡ plane_area self }
    {
        (self.frame.height as usize) * (self.frame.width as usize)
    }

    // Number 15: whether no mode has more than the pairs so far can give.
    #[tactic(auto, using(fmt::specs::depth::Laws::largest_of_is), unfolding(crate::specs::Errors::keeps_limits))]
    #[inline(always)]
    fn keeps_limits(self) -> bool
        requires { Limitable self }
        ensures { result ≡ keeps_limits self }
    {
        let most = (self.pairs as u64) * (self.area() as u64);
        let top = depth::largest_of(self.bits) as u64;
        at_most(most / 16, self.blocks)
            & at_most(most, self.samples)
            & at_most(most * (top * top), self.squares)
    }

    // Numbers 1, 4, 5, 7: `fit` says whether what is lent is as long as it must be, `ok` whether all samples are of the depth.
    #[tactic(auto, unfolding(crate::specs::Errors::pair_no))]
    #[inline(always)]
    fn check_settings(self, fit: bool, ok: bool) -> Result<(), Refusal>
        ensures { no_of result ≡ pair_no self fit ok }
    {
        if !domain::depth_ok(self.bits) {
            return Err(Refusal::Depth);
        }
        if !domain::picture_ok(self.frame.width, self.frame.height, self.frame.ctu) {
            return Err(Refusal::Picture);
        }
        if !fit {
            return Err(Refusal::Buffer);
        }
        if ok { Ok(()) } else { Err(Refusal::Sample) }
    }

    // The checks before the plan's. `whole` says whether the plan is of whole records.
    #[inline(always)]
    fn check_lent<S: Samples>(self, whole: bool, a: S, b: S) -> Result<(), Refusal>
        ensures { no_of result ≡ pair_no self (whole && (S.exactly a (plane_area self) && S.exactly b (plane_area self)))
            (at_most (top_of self) (S.list a) && at_most (top_of self) (S.list b)) }
    {
        let size = self.area();
        let largest = depth::largest_of(self.bits);
        let ok = lent::samples_ok(a, largest) & lent::samples_ok(b, largest);
        self.check_settings(whole & (a.exactly(size) & b.exactly(size)), ok)
    }

    // Number 15: whether there is room for a pair more. The count comes first, so that no limit is too large.
    #[tactic(auto, unfolding(crate::specs::Errors::room_for_pair))]
    #[inline(always)]
    fn check_room(self) -> Result<(), Refusal>
        requires { Depth self.bits × Good (picture_of self.frame) }
        ensures { no_of result ≡ cond (room_for_pair self) 0 15 }
    {
        if self.pairs >= 65536 {
            return Err(Refusal::Limit);
        }
        if self.keeps_limits() {
            Ok(())
        } else {
            Err(Refusal::Limit)
        }
    }

    // The checks on a pair: those before the plan's, then the plan's, then 15.
    #[tactic(auto, using(crate::proofs::Counted::checked), unfolding(crate::specs::Errors::settle_full))]
    #[inline(always)]
    fn check_pair<S: Samples, P: Blocks>(self, a: S, b: S, plan: P) -> Result<(), Fault>
        ensures { verdict_of result ≡ pair_verdict self (S.exactly a (plane_area self) && S.exactly b (plane_area self))
            (S.list a) (S.list b) (P.plan plan) }
    {
        self.check_lent(plan.whole(), a, b)?;
        plan::check(self.frame, plan)?;
        Ok(self.check_room()?)
    }

    // Counts a pair of planes under a plan, in whatever form they are lent: unless it is refused, its blocks, each under its mode.
    #[tactic(auto, using(crate::proofs::Counted::handed_back, domain::specs::Refused::never_0))]
    #[inline(always)]
    pub(crate) fn count_pair<S: Plane, P: Blocks>(
        self,
        a: S,
        b: S,
        plan: P,
    ) -> Result<Report, Rejected>
        ensures { counted_of result ≡ counted_by self (pair_verdict self (S.exactly a (plane_area self) && S.exactly b (plane_area self))
            (S.list a) (S.list b) (P.plan plan)) (pair_tally self.frame (S.list a) (S.list b) (P.plan plan)) }
    {
        match self.check_pair(a, b, plan) {
            Err(fault) => Err(self.rejected(fault)),
            Ok(()) => {
                let mut next = Report {
                    pairs: self.pairs + 1,
                    ..self
                };
                for k in 0..plan.count() {
                    let t = plan.block(k);
                    let squares = block_squares(a, b, self.frame.width, t);
                    next.add_block(t, squares);
                }
                Ok(next)
            }
        }
    }

    // A block more, under its mode: itself, its samples, its squares.
    #[inline(always)]
    fn add_block(&mut self, t: Block, squares: u64)
        requires { RoomFor self.old.blocks self.old.samples self.old.squares t squares }
        ensures { self.new ≡ with_block self.old t squares }
    {
        let n = t.side as u64;
        let m = t.mode as usize;
        self.blocks[m] += 1;
        self.samples[m] += n * n;
        self.squares[m] += squares;
    }

    // Whether two reports are of one depth, picture and CTU.
    fn same_settings(self, other: Report) -> bool
        ensures { result ≡ same_settings self other }
    {
        (other.bits == self.bits) & (other.frame == self.frame)
    }

    // Numbers 1, 4, 15 of the sum of two reports. The count comes first here too.
    #[tactic(auto, unfolding(crate::specs::Errors::join_no))]
    fn check_join(self, other: Report) -> Result<(), Refusal>
        ensures { no_of result ≡ join_no self other }
    {
        if !domain::depth_ok(self.bits) {
            return Err(Refusal::Depth);
        }
        let good = domain::picture_ok(self.frame.width, self.frame.height, self.frame.ctu);
        if !(good & self.same_settings(other)) {
            return Err(Refusal::Picture);
        }
        if (self.pairs as u64) + (other.pairs as u64) > 65536 {
            return Err(Refusal::Limit);
        }
        if self.keeps_limits() & other.keeps_limits() {
            Ok(())
        } else {
            Err(Refusal::Limit)
        }
    }

    // The sum of two reports that is not refused.
    #[tactic(auto, using(crate::specs::Added::join_fits, crate::specs::Added::joinable))]
    fn added(self, other: Report) -> Report
        requires { join_no self other ≡ 0 }
        ensures { result ≡ tallied self (tally_of other) }
    {
        Report {
            pairs: self.pairs + other.pairs,
            blocks: figures_added(self.blocks, other.blocks),
            samples: figures_added(self.samples, other.samples),
            squares: figures_added(self.squares, other.squares),
            ..self
        }
    }
}
