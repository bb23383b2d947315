// Plans: which blocks, in which order, cover a still (document 01, 'Plan, walk, replay'). A plan is lent as four slices of numbers,
// as block records, or as bytes. Rests on the steps of a verdict.
#![tactic(auto)]

mod block_check;
pub mod blocks;
mod next_cell;
pub mod records;
pub mod tiling;
mod verdict;

ghost use Rattle.std.specs.Prelude.{◌≡◌};
ghost use Rattle.plan.specs.tiling.Plan.{plan_of, listed};
ghost use Rattle.plan.specs.RecordPlan.{records_of};
ghost use Rattle.plan.specs.tiling.PlanCheck.{plan_verdict};
ghost use Rattle.plan.specs.Answers.{verdict_of};

use crate::blocks::{Blocks, Numbers};
use crate::tiling::{Block, Fault, Frame};

// The first rule that a plan breaks: its picture's, that it is of whole records, its blocks' in list order, then that they cover all.
#[tactic(auto, using(crate::specs::verdict::Standing::standing))]
pub fn check<P: Blocks>(frame: Frame, plan: P) -> Result<(), Fault>
    ensures { verdict_of result ≡ plan_verdict frame (P.plan plan) }
{
    verdict::check_start(frame, plan.whole())?;
    let mut covered = 0;
    for i in 0..plan.count() {
        covered = verdict::check_step(frame, covered, plan.block(i), i)?;
    }
    verdict::check_end(frame, covered)?;
    Ok(())
}

// The same of a plan of numbers.
pub fn check_plan_numbers(
    frame: Frame,
    rows: &[u32],
    cols: &[u32],
    sides: &[u32],
    modes: &[u32],
) -> Result<(), Fault>
    ensures { verdict_of result ≡ plan_verdict frame (plan_of rows.now cols.now sides.now modes.now) }
{
    check(
        frame,
        Numbers {
            rows,
            cols,
            sides,
            modes,
        },
    )
}

// The same of a list of block records.
pub fn check_plan(frame: Frame, plan: &[Block]) -> Result<(), Fault>
    ensures { verdict_of result ≡ plan_verdict frame (listed plan.now) }
{
    check(frame, plan)
}

// The same of the records that bytes spell: number 5 where they are not whole records.
pub fn check_plan_bytes(frame: Frame, plan: &[u8]) -> Result<(), Fault>
    ensures { verdict_of result ≡ plan_verdict frame (records_of plan.now) }
{
    check(frame, plan)
}
