// A still, and what a call on it checks before it looks at blocks: numbers 1, 4, 5, then 7, or 8 and 14. Rests on the domain's tests
// and on the kinds of refusal.
ghost use Rattle.std.specs.Prelude.{◌≡◌};
ghost use Rattle.domain.specs.Refusal.{no_of};
ghost use Rattle.laws.specs.Choose.{first_fail};
ghost use Rattle.laws.specs.Every.{every};
ghost use Rattle.samples.specs.deltas.Deltas.{residual_within};
ghost use Rattle.walk.specs.checks.Checks.{is_whole, is_roomy, opening_no, residual_checks, replay_no, walk_no};

use domain::refusal::Refusal;
use fmt::depth;
use octets::lent;
use plan::tiling::Frame;
use samples::deltas;

// A still: its depth, its luma sides and its CTU.
#[derive(Clone, Copy, Debug, PartialEq, Eq)]
pub struct Still {
    pub bits: u32,
    pub frame: Frame,
}

// Number 5: whether so many entries are the picture's samples.
pub(crate) fn is_whole(s: Still, len: usize) -> bool
    ensures { result ≡ is_whole s len }
{
    len == (s.frame.height as usize) * (s.frame.width as usize)
}

// Number 5: whether the tables are long enough.
pub(crate) fn is_roomy(refs: usize, indices: usize, fractions: usize) -> bool
    ensures { result ≡ is_roomy (record { refs = refs; indices = indices; fractions = fractions }) }
{
    (refs >= 193) & (indices >= 32) & (fractions >= 32)
}

// Numbers 1, 4, 5; fit says whether all that is lent is long enough.
pub fn check_opening(s: Still, fit: bool) -> Result<(), Refusal>
    ensures { no_of result ≡ opening_no s fit }
{
    if !domain::depth_ok(s.bits) {
        return Err(Refusal::Depth);
    }
    if !domain::picture_ok(s.frame.width, s.frame.height, s.frame.ctu) {
        return Err(Refusal::Picture);
    }
    if !fit {
        return Err(Refusal::Buffer);
    }
    Ok(())
}

// Whether no residual is larger than a limit.
#[tactic(auto, using(crate::specs::checks::Laws::passing))]
fn residuals_within(residuals: &[i32], limit: u16) -> bool
    ensures { result ≡ every (residual_within limit) residuals.now }
{
    let mut ok = true;
    for &residual in residuals {
        ok = ok & deltas::residual_within(residual, limit);
    }
    ok
}

// Numbers 8 and 14 over all residuals. The tighter limit is asked first: where all keep it, each is looked at once.
fn check_residuals(residuals: &[i32], largest: u16) -> Result<(), Refusal>
    ensures { no_of result ≡ first_fail (residual_checks largest residuals.now) }
{
    if residuals_within(residuals, largest) {
        return Ok(());
    }
    if residuals_within(residuals, 65535) {
        Err(Refusal::Excess)
    } else {
        Err(Refusal::Residual)
    }
}

// Replay: the checks before the plan's, 1, 4, 5, 8, 14. `records` says whether the plan is of whole records.
pub(crate) fn check_replay(
    s: Still,
    records: bool,
    residuals: &[i32],
    plane: usize,
    refs: usize,
    indices: usize,
    fractions: usize,
) -> Result<(), Refusal>
    ensures { no_of result ≡ replay_no s records (record { refs = refs; indices = indices; fractions = fractions }) plane
        residuals.now }
{
    let fit = records & is_whole(s, plane) & is_whole(s, residuals.len());
    check_opening(s, fit & is_roomy(refs, indices, fractions))?;
    check_residuals(residuals, depth::largest_of(s.bits))
}

// Walk: the checks before the plan's, 1, 4, 5, 7.
pub(crate) fn check_walk(
    s: Still,
    records: bool,
    source: &[u16],
    work: usize,
    residuals: usize,
    refs: usize,
    indices: usize,
    fractions: usize,
) -> Result<(), Refusal>
    ensures { no_of result ≡ walk_no s records (record { refs = refs; indices = indices; fractions = fractions }) source.now work residuals }
{
    let fit = records & is_whole(s, source.len()) & is_whole(s, work) & is_whole(s, residuals);
    check_opening(s, fit & is_roomy(refs, indices, fractions))?;
    if lent::samples_ok(source, depth::largest_of(s.bits)) {
        Ok(())
    } else {
        Err(Refusal::Sample)
    }
}
