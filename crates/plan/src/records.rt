// A block of a plan of bytes (document 01, 'Forms that must change, and use from C'). Rests on what bytes spell.
ghost use Rattle.std.specs.Prelude.{◌≡◌};
ghost use Rattle.plan.specs.records.Records.{record_at};

use crate::tiling::Block;

// Block i of a plan of bytes; zeros where there is none.
pub fn record_at(plan: &[u8], i: usize) -> Block
    ensures { result ≡ record_at plan.now i }
{
    if i >= plan.len() / 6 {
        return Block {
            row: 0,
            col: 0,
            side: 0,
            mode: 0,
        };
    }
    let at = 6 * i;
    Block {
        row: octets::sample(plan[at], plan[at + 1]) as u32,
        col: octets::sample(plan[at + 2], plan[at + 3]) as u32,
        side: plan[at + 4] as u32,
        mode: plan[at + 5] as u32,
    }
}
