// A plan as it is lent: four slices of numbers, block records, or bytes. What is done with a plan is written once, over the plan that
// either form stands for. Rests on plan's definitions and on its records of bytes.
ghost use Rattle.std.specs.Prelude.{◌≡◌, ◌/◌, ◌%◌, Bool, eqb, ℕ, get_or, length};
ghost use Rattle.plan.specs.tiling.Plan.{Plan, plan_of, listed, no_block};
ghost use Rattle.plan.specs.RecordPlan.{records_of};

use crate::records;
use crate::tiling::Block;

pub trait Blocks: Copy {
    // The plan that is lent.
    ghost plan: { Self → Plan };

    // Number 5: whether what is lent makes whole records.
    fn whole(self) -> bool
        ensures { result ≡ (plan self).whole };

    fn count(self) -> usize
        ensures { result ≡ (plan self).count };

    // Block i; zeros where there is none.
    fn block(self, i: usize) -> Block
        ensures { result ≡ (plan self).block i };
}

// The blocks' rows, columns, sides and modes, each lent as a slice of its own.
#[derive(Clone, Copy)]
pub struct Numbers<'a> {
    pub rows: &'a [u32],
    pub cols: &'a [u32],
    pub sides: &'a [u32],
    pub modes: &'a [u32],
}

// Entry i of a slice of numbers; 0 where there is none.
fn entry(list: &[u32], i: usize) -> u32
    ensures { result ≡ get_or list.now i 0 }
{
    if i < list.len() { list[i] } else { 0 }
}

impl<'a> Blocks for Numbers<'a> {
    ghost plan = { λ p. plan_of p.rows.now p.cols.now p.sides.now p.modes.now };

    fn whole(self) -> bool {
        let count = self.rows.len();
        (self.cols.len() == count) & (self.sides.len() == count) & (self.modes.len() == count)
    }

    fn count(self) -> usize {
        self.rows.len()
    }

    fn block(self, i: usize) -> Block {
        Block {
            row: entry(self.rows, i),
            col: entry(self.cols, i),
            side: entry(self.sides, i),
            mode: entry(self.modes, i),
        }
    }
}

impl<'a> Blocks for &'a [Block] {
    ghost plan = { λ p. listed p.now };

    fn whole(self) -> bool {
        true
    }

    fn count(self) -> usize {
        self.len()
    }

    fn block(self, i: usize) -> Block {
        if i < self.len() {
            self[i]
        } else {
            Block {
                row: 0,
                col: 0,
                side: 0,
                mode: 0,
            }
        }
    }
}

// Records of six bytes; bytes left over spell none.
impl<'a> Blocks for &'a [u8] {
    ghost plan = { λ p. records_of p.now };

    fn whole(self) -> bool {
        self.len() % 6 == 0
    }

    fn count(self) -> usize {
        self.len() / 6
    }

    fn block(self, i: usize) -> Block {
        records::record_at(self, i)
    }
}
