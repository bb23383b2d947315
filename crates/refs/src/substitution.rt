// Substitution of missing reference samples, H.265 8.4.4.2.2 (document 01, module 3). Rests on the domain's tests and the depths; a
// sample's value never says whether it is there.
ghost use Rattle.std.specs.Prelude.{◌≡◌, ◌+◌, ◌*◌, ◌≤◌, ◌<◌, false, cond, length, get_or, set};
ghost use Rattle.h265.specs.Substitution.{first_marked, settled};
ghost use Rattle.domain.specs.Refusal.{no_of};
ghost use Rattle.refs.specs.Answers.{gathered};
ghost use Rattle.refs.specs.Seen.{with_corner};
ghost use Rattle.refs.specs.substitution.Substitution.{samples_on, from_line, substituted};
ghost use Rattle.refs.specs.substitution.Door.{substitute_no, substitute_refs};
ghost use Rattle.refs.specs.substitution.Line.{line_of};
ghost use Rattle.refs.specs.substitution.InPlace.{past_left, left_settled, above_settled};

use domain::refusal::Refusal;
use domain::rows;
use domain::rows::Rows;
use fmt::depth;

// Which entries of a block's rows are there.
#[derive(Drop)]
pub struct Flags {
    pub corner: bool,
    pub above: [bool; 65],
    pub left: [bool; 65],
}

// The sample at place p of the line: left[e] down to left[0], the corner, above[0] to above[e].
#[tactic(auto, unfolding(crate::specs::substitution::Substitution::marked_on_line))]
fn sample_on(two: &[[u16; 65]; 2], corner: u16, e: usize, p: usize) -> u16
    requires { (e ≤ 64) × (p < 2 * e + 3) }
    ensures { result ≡ samples_on (with_corner corner two.now) e p }
{
    if p <= e {
        return two[1][e - p];
    }
    if p == e + 1 {
        return corner;
    }
    two[0][p - (e + 2)]
}

// Whether place p of the line is there.
#[tactic(auto, unfolding(crate::specs::substitution::Substitution::marked_on_line))]
fn flag_on(left: &[bool; 65], corner: bool, above: &[bool; 65], e: usize, p: usize) -> bool
    requires { (e ≤ 64) × (p < 2 * e + 3) }
    ensures { result ≡ line_of false left.now corner above.now e p }
{
    if p <= e {
        return left[e - p];
    }
    if p == e + 1 {
        return corner;
    }
    above[p - (e + 2)]
}

// The first place that is there, or the count of places.
fn first_marked(left: &[bool; 65], corner: bool, above: &[bool; 65], e: usize) -> usize
    requires { e ≤ 64 }
    ensures { result ≡ first_marked (line_of false left.now corner above.now e) 0 (2 * e + 3) }
{
    let total = 2 * e + 3;
    for p in 0..total {
        if flag_on(left, corner, above, e, p) {
            return p;
        }
    }
    total
}

// A sample where it is there, another where it is not. Every sample may be 0.
pub(crate) fn choose(there: bool, v: u16, other: u16) -> u16
    ensures { result ≡ cond there v other }
{
    if there { v } else { other }
}

// Entry i takes what is carried to it where it is missing; what it has in the end is carried on.
fn settle_at(row: &mut [u16; 65], has: &[bool; 65], i: usize, carried: u16) -> u16
    requires { i < 65 }
    ensures { (result ≡ cond (get_or has.now i false) (get_or row.old i 0) carried)
        × (row.new ≡ set row.old i result) }
{
    let there = has[i];
    let own = row[i];
    let v = choose(there, own, carried);
    row[i] = v;
    v
}

// The left row where it stands, from left[e] down to left[0]; gives what left[0] has in the end. Entries past e stay as they came.
fn fill_left(row: &mut [u16; 65], has: &[bool; 65], e: usize, start: u16) -> u16
    requires { e ≤ 64 }
    ensures { (result ≡ past_left has.now row.old e start (e + 1))
        × (row.new ≡ left_settled has.now e start row.old) }
{
    let mut carried = start;
    for i in (0..=e).rev() {
        carried = settle_at(&mut *row, has, i, carried);
    }
    carried
}

// The row above where it stands, from above[0] to above[e]. Entries past e stay as they came.
fn fill_above(row: &mut [u16; 65], has: &[bool; 65], e: usize, start: u16)
    requires { e ≤ 64 }
    ensures { row.new ≡ above_settled has.now e start row.old }
{
    let mut carried = start;
    for i in 0..=e {
        carried = settle_at(&mut *row, has, i, carried);
    }
}

// Completes the two rows, above and left, where they stand, and gives the corner: each missing place of the line takes the one before
// it, the places before the first take that one, which is read before any is written.
fn settle(
    two: &mut [[u16; 65]; 2],
    corner: u16,
    has_left: &[bool; 65],
    has_corner: bool,
    has_above: &[bool; 65],
    e: usize,
    found: usize,
) -> u16
    requires { (e ≤ 64) × (found < 2 * e + 3) × (length two.old ≡ 2) }
    ensures { with_corner result two.new ≡ from_line e (settled (line_of false has_left.now
        has_corner has_above.now e) (samples_on (with_corner corner two.old) e) found)
        (with_corner corner two.old) }
{
    let start = sample_on(&*two, corner, e, found);
    let beside = fill_left(&mut two[1], has_left, e, start);
    let between = choose(has_corner, corner, beside);
    fill_above(&mut two[0], has_above, e, between);
    between
}

fn substitute(rows: Rows, flags: Flags, n: usize, neutral: u16) -> Rows
    requires { n ≤ 32 }
    ensures { result ≡ substituted n neutral flags rows }
{
    let e = 2 * n;
    let has_left = flags.left;
    let has_above = flags.above;
    let found = first_marked(&has_left, flags.corner, &has_above, e);
    if found >= 2 * e + 3 {
        return rows::level_rows(neutral);
    }
    let above = rows.above;
    let left = rows.left;
    let mut two = [above, left];
    let corner = settle(
        &mut two,
        rows.corner,
        &has_left,
        flags.corner,
        &has_above,
        e,
        found,
    );
    Rows {
        corner,
        above: two[0],
        left: two[1],
    }
}

// Whether a substitution is served, or why it is refused.
#[tactic(auto, unfolding(crate::specs::substitution::Door::substitute_no))]
fn check_substitute(n: usize, bits: u32) -> Result<(), Refusal>
    ensures { no_of result ≡ substitute_no bits n }
{
    if !domain::depth_ok(bits) {
        return Err(Refusal::Depth);
    }
    if !domain::size_ok(n) {
        return Err(Refusal::Size);
    }
    Ok(())
}

// Reference rows with the missing entries substituted (H.265 8.4.4.2.2, document 01, module 3).
#[tactic(auto, unfolding(crate::specs::substitution::Door::substitute_refs), using(domain::specs::Refused::never_0))]
pub fn substitute_refs(rows: Rows, flags: Flags, n: usize, bits: u32) -> Result<Rows, Refusal>
    ensures { gathered result ≡ substitute_refs rows flags n bits }
{
    check_substitute(n, bits)?;
    Ok(substitute(rows, flags, n, depth::neutral_of(bits)))
}
