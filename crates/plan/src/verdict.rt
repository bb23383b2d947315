// The check that comes to a plan's verdict block by block (document 01, 'Plan, walk, replay'); where the blocks are read from is
// left to the doors. Rests on the verdict's definition, in tiling, and on what refuses one block.
ghost use Rattle.std.specs.Prelude.{◌≡◌, ◌*◌, ◌<◌, cond, eqb};
ghost use Rattle.domain.specs.Refusal.{no_of};
ghost use Rattle.order.specs.Good.{Good};
ghost use Rattle.plan.specs.tiling.Tiling.{picture_of};
ghost use Rattle.plan.specs.Answers.{checking_of};
ghost use Rattle.plan.specs.verdict.Standing.{check_start, check_block};

use crate::block_check;
use crate::tiling::{Block, Fault, Frame};
use domain::refusal::Refusal;

// Numbers 4 and 5, before any block. `whole` says whether what was lent makes whole records.
#[tactic(auto, unfolding(crate::specs::verdict::Standing::check_start))]
pub(crate) fn check_start(f: Frame, whole: bool) -> Result<(), Refusal>
    ensures { no_of result ≡ (check_start f whole).no }
{
    if !domain::picture_ok(f.width, f.height, f.ctu) {
        return Err(Refusal::Picture);
    }
    if whole { Ok(()) } else { Err(Refusal::Buffer) }
}

// Block i is looked at, where those before it cover so many samples: so many are covered after it. Built into the loop, which
// takes a fourth less so.
#[inline(always)]
pub(crate) fn check_step(f: Frame, covered: usize, b: Block, i: usize) -> Result<usize, Fault>
    requires { Good (picture_of f) × (i < 4294967296) }
    ensures { checking_of covered result ≡ check_block f covered b i }
{
    match block_check::check_block(f, b, covered) {
        Ok(()) => {
            let n = b.side as usize;
            Ok(covered + n * n)
        }
        Err(why) => Err(Fault {
            why,
            block: i as u32,
        }),
    }
}

// Number 10, after all blocks.
pub(crate) fn check_end(f: Frame, covered: usize) -> Result<(), Refusal>
    ensures { no_of result ≡ cond (eqb covered (f.height * f.width)) 0 10 }
{
    let area = (f.height as usize) * (f.width as usize);
    if covered == area {
        Ok(())
    } else {
        Err(Refusal::Gap)
    }
}
