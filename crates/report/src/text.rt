// The lines that intrawalk prints (document 01, 'The program'), added to a text of fixed room. Whoever calls knows that it has room
// for them. Rests on the kit's text of fixed room and its decimal numbers.
ghost use Rattle.std.specs.Prelude.{◌≡◌, ◌+◌, ◌<◌, ◌≤◌, ◌++◌, length};
ghost use Rattle.domain.specs.Refusal.{number as number_of};
ghost use Rattle.report.specs.text.Text.{number, block_line, refusal, ending};

use arrayvec::ArrayString;
use itoa::Buffer;
use plan::tiling::{Block, Fault};

// What is printed, at most 65,536 bytes.
pub(crate) type Text = ArrayString<65536>;

// A number in decimal, and the byte after it.
fn push_number(text: &mut Text, n: u64, after: char)
    requires room { length text.old.bytes + 21 ≤ 65536 }
    requires ascii { after < 128 }
    ensures bytes { text.new.bytes ≡ text.old.bytes ++ number n after }
    ensures short { length text.new.bytes ≤ length text.old.bytes + 21 }
{
    text.push_str(Buffer::new().format(n));
    text.push(after);
}

// A line for a block.
pub(crate) fn push_line(text: &mut Text, b: Block, sum: u64)
    requires { length text.old.bytes + 105 ≤ 65536 }
    ensures bytes { text.new.bytes ≡ text.old.bytes ++ block_line b sum }
    ensures short { length text.new.bytes ≤ length text.old.bytes + 105 }
{
    push_number(text, u64::from(b.row), ' ');
    push_number(text, u64::from(b.col), ' ');
    push_number(text, u64::from(b.side), ' ');
    push_number(text, u64::from(b.mode), ' ');
    push_number(text, sum, '\n');
}

// `refused N B`
pub(crate) fn push_refusal(text: &mut Text, fault: Fault)
    requires { length text.old.bytes + 50 ≤ 65536 }
    ensures { text.new.bytes ≡ text.old.bytes ++ refusal (number_of fault.why) fault.block }
{
    text.push_str("refused ");
    push_number(text, u64::from(fault.why.number()), ' ');
    push_number(text, u64::from(fault.block), '\n');
}

// `end COUNT same` or `end COUNT differs`
pub(crate) fn push_ending(text: &mut Text, blocks: usize, same: bool)
    requires { length text.old.bytes + 33 ≤ 65536 }
    ensures { text.new.bytes ≡ text.old.bytes ++ ending blocks same }
{
    text.push_str("end ");
    push_number(text, blocks as u64, ' ');
    text.push_str(if same { "same\n" } else { "differs\n" });
}
