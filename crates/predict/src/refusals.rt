// Whether a prediction's door serves a call, from document 01's table: the first check that fails is what it is refused for.
// Rests on the laws and on the domain's tests.
ghost use Rattle.std.specs.Prelude.{◌≡◌, length};
ghost use Rattle.domain.specs.Domain.{predictor_row};
ghost use Rattle.domain.specs.Facts.{Size};
ghost use Rattle.domain.specs.Refusal.{no_of};
ghost use Rattle.predict.specs.refusals.Refusals.{lent_by, lengths_of, is_enough, flat_no, block_no, angular_no, predict_no};
ghost use Rattle.predict.specs.refusals.Refusals.{vertical_ok, refs_no, rows_no};

use domain::refusal::Refusal;

// The least entries of a reference row.
fn predictor_row(n: usize) -> usize
    requires { Size n }
    ensures { result ≡ predictor_row n }
{
    2 * n
}

// Planar and DC: a call whose rows have above and left entries and whose block buffer has pred.
#[tactic(auto, unfolding(crate::specs::refusals::Refusals::flat_no))]
pub(crate) fn check_flat(n: usize, above: usize, left: usize, pred: usize) -> Result<(), Refusal>
    ensures { no_of result ≡ flat_no n above left pred }
{
    if !domain::size_ok(n) {
        return Err(Refusal::Size);
    }
    let row = predictor_row(n);
    if !((above >= row) & (left >= row) & (pred >= n * n)) {
        return Err(Refusal::Buffer);
    }
    Ok(())
}

// What a call lends, by its lengths.
#[derive(Clone, Copy, Debug, PartialEq, Eq)]
pub(crate) struct Lent {
    pub above: usize,
    pub left: usize,
    pub pred: usize,
    pub refs: usize,
    pub indices: usize,
    pub fractions: usize,
}

impl Lent {
    pub(crate) fn of(
        above: &[u16],
        left: &[u16],
        pred: &[u16],
        refs: &[u16],
        indices: &[u32],
        fractions: &[u32],
    ) -> Lent
        ensures { result ≡ lent_by (length above.now) (length left.now) (length pred.now) (length refs.now)
            (length indices.now) (length fractions.now) }
    {
        Lent {
            above: above.len(),
            left: left.len(),
            pred: pred.len(),
            refs: refs.len(),
            indices: indices.len(),
            fractions: fractions.len(),
        }
    }

    // Whether each is long enough for a block of side n.
    fn are_enough(self, n: usize) -> bool
        requires { Size n }
        ensures { result ≡ is_enough n (lengths_of self) }
    {
        let row = predictor_row(n);
        (self.above >= row)
            & (self.left >= row)
            & (self.pred >= n * n)
            & (self.refs >= 193)
            & (self.indices >= 32)
            & (self.fractions >= 32)
    }
}

// Where tables are lent too: the depth, the side, whether the mode is one of the door's, then what is lent.
#[tactic(auto, unfolding(crate::specs::refusals::Refusals::block_no))]
fn check_block(bits: u32, n: usize, serves: bool, lent: Lent) -> Result<(), Refusal>
    ensures { no_of result ≡ block_no bits n serves (lengths_of lent) }
{
    if !domain::depth_ok(bits) {
        return Err(Refusal::Depth);
    }
    if !domain::size_ok(n) {
        return Err(Refusal::Size);
    }
    if !serves {
        return Err(Refusal::Mode);
    }
    if !lent.are_enough(n) {
        return Err(Refusal::Buffer);
    }
    Ok(())
}

// Angular prediction.
pub(crate) fn check_angular(bits: u32, n: usize, mode: u8, lent: Lent) -> Result<(), Refusal>
    ensures { no_of result ≡ angular_no bits n mode (lengths_of lent) }
{
    check_block(bits, n, (mode >= 2) & domain::mode_ok(mode as u32), lent)
}

// A block in any mode.
pub(crate) fn check_predict(bits: u32, n: usize, mode: u8, lent: Lent) -> Result<(), Refusal>
    ensures { no_of result ≡ predict_no bits n mode (lengths_of lent) }
{
    check_block(bits, n, domain::mode_ok(mode as u32), lent)
}

fn is_vertical(mode: u8) -> bool
    ensures { result ≡ vertical_ok mode }
{
    (mode >= 18) & domain::mode_ok(mode as u32)
}

// A vertical mode's references, and rows of it.
#[tactic(auto, unfolding(crate::specs::refusals::Refusals::refs_no))]
pub(crate) fn check_refs(
    n: usize,
    mode: u8,
    above: usize,
    left: usize,
    refs: usize,
) -> Result<(), Refusal>
    ensures { no_of result ≡ refs_no n mode above left refs }
{
    if !domain::size_ok(n) {
        return Err(Refusal::Size);
    }
    if !is_vertical(mode) {
        return Err(Refusal::Mode);
    }
    let row = predictor_row(n);
    if !((above >= row) & (left >= row) & (refs >= 193)) {
        return Err(Refusal::Buffer);
    }
    Ok(())
}

#[tactic(auto, unfolding(crate::specs::refusals::Refusals::rows_no))]
pub(crate) fn check_rows(
    n: usize,
    mode: u8,
    first: usize,
    end: usize,
    above: usize,
    refs: usize,
    pred: usize,
) -> Result<(), Refusal>
    ensures { no_of result ≡ rows_no n mode first end above refs pred }
{
    if !domain::size_ok(n) {
        return Err(Refusal::Size);
    }
    if !is_vertical(mode) {
        return Err(Refusal::Mode);
    }
    let row = predictor_row(n);
    if !((above >= row) & (refs >= 193) & (pred >= n * n)) {
        return Err(Refusal::Buffer);
    }
    if !((first <= end) & (end <= n)) {
        return Err(Refusal::Start);
    }
    Ok(())
}
