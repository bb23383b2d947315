// How far a call of walk or replay goes, by numbers alone: how many blocks it does, and how many are done after it. Rests on the kinds
// of refusal.
ghost use Rattle.std.specs.Prelude.{◌≡◌, min, ◌-◌, ◌≤◌, cond, leb};
ghost use Rattle.walk.specs.calls.Steps.{doing_of, step_of};
ghost use Rattle.walk.specs.Answers.{advance_of};

use crate::{Advance, Progress};
use domain::helpers;
use domain::refusal::Refusal;

// How many blocks remain, as far as a u32 can count them.
fn rest_of(count: usize, done: u32) -> u32
    ensures { result ≡ min (count - done) 4294967295 }
{
    let before = done as usize;
    if count < before {
        return 0;
    }
    let rest = count - before;
    if rest > 4294967295 {
        return 4294967295;
    }
    rest as u32
}

// The lesser of the grant and what remains.
pub fn doing_of(count: usize, done: u32, grant: u32) -> u32
    ensures { result ≡ doing_of count done grant }
{
    helpers::min(grant, rest_of(count, done))
}

// How far a call goes whose plan has `count` blocks. Number 11: no more of them are done than there are.
pub(crate) fn advance(p: Progress, count: usize, grant: u32) -> Result<Advance, Refusal>
    requires { count ≤ 16777216 }
    ensures { advance_of result ≡ step_of (record { no = cond (leb p.done count) 0 11; block = 0 }) count p.done grant }
{
    if (p.done as usize) > count {
        return Err(Refusal::Start);
    }
    let did = doing_of(count, p.done, grant);
    let done = p.done + did;
    Ok(Advance {
        did,
        next: Progress { done },
    })
}
