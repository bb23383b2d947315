// A still's frame, a block of its plan and what a plan is refused for: what blocks cover, what refuses one, and what refuses a plan (document
// 01, 'Plan, walk, replay'), definitions and laws. Number 9 is decided in next_cell, the other numbers of a block in block_check,
// the verdict in verdict. Rests on the decode order's definitions and on the domain's tests.

ghost use Rattle.std.specs.Prelude.{◌≡◌};

use domain::refusal::Refusal;

// A still's luma sides and its CTU; its least unit is 4.
#[derive(Clone, Copy, Debug, PartialEq, Eq)]
pub struct Frame {
    pub width: u32,
    pub height: u32,
    pub ctu: u32,
}

// A block of a plan.
#[repr(C)]
#[derive(Clone, Copy, Debug, PartialEq, Eq)]
pub struct Block {
    pub row: u32,
    pub col: u32,
    pub side: u32,
    pub mode: u32,
}

// Why a plan is refused, and the list number of the block that it is about, 0 where it is about none.
#[derive(Clone, Copy, Debug, PartialEq, Eq)]
pub struct Fault {
    pub why: Refusal,
    pub block: u32,
}

impl From<Refusal> for Fault {
    ghost from_gives = { λ why f. f ≡ record { why = why; block = 0 } };

    fn from(why: Refusal) -> Fault {
        Fault { why, block: 0 }
    }
}
