// The program's input (document 01, 'The program'): its trailer, number 12, and the samples and block records in it. A byte past
// the end counts as 0, so every reader takes every input, and with it counts that number 12 lets pass. Rests on the numbers in bytes.
ghost use Rattle.std.specs.Prelude.{◌≡◌, true, false, MatchOption, ℕ, ◌+◌, ◌*◌, ◌≤◌, ◌<◌, get_or, replicate};
ghost use Rattle.laws.specs.Fill.{fill};
ghost use Rattle.laws.specs.Bytes.{le_at};
ghost use Rattle.plan.specs.tiling.Plan.{no_block};
ghost use Rattle.report.specs.file.File.{trailer_of, area_of, regions_ok, file_ok, block_in};
ghost use Rattle.report.specs.Told.{still_in};

use plan::tiling::{Block, Frame};
use walk::checks::Still;

// The last 16 bytes of the input.
#[derive(Clone, Copy, Debug, PartialEq, Eq)]
pub struct Trailer {
    pub samples: u32,
    pub plan: u32,
    pub blocks: u16,
    pub width: u16,
    pub height: u16,
    pub bits: u8,
    pub ctu: u8,
}

// A byte, or 0 past the end.
fn byte_at(b: &[u8], i: usize) -> u8
    ensures { result ≡ get_or b.now i 0 }
{
    b.get(i).copied().unwrap_or(0)
}

// Two bytes, the lowest first.
fn two_at(b: &[u8], i: usize) -> u16
    requires { i + 2 < 18446744073709551616 }
    ensures { result ≡ le_at 2 b.now i }
{
    u16::from_le_bytes([byte_at(b, i), byte_at(b, i + 1)])
}

// Four bytes, the lowest first.
fn four_at(b: &[u8], i: usize) -> u32
    requires { i + 4 < 18446744073709551616 }
    ensures { result ≡ le_at 4 b.now i }
{
    u32::from_le_bytes([
        byte_at(b, i),
        byte_at(b, i + 1),
        byte_at(b, i + 2),
        byte_at(b, i + 3),
    ])
}

impl Trailer {
    fn of(b: &[u8]) -> Self
        ensures { result ≡ trailer_of b.now }
    {
        let t = b.len().saturating_sub(16);
        Trailer {
            samples: four_at(b, t),
            plan: four_at(b, t + 4),
            blocks: two_at(b, t + 8),
            width: two_at(b, t + 10),
            height: two_at(b, t + 12),
            bits: byte_at(b, t + 14),
            ctu: byte_at(b, t + 15),
        }
    }

    // The trailer of a file, or none where number 12 is given.
    #[tactic(auto, unfolding(crate::specs::file::File::file_ok))]
    pub(crate) fn read(b: &[u8]) -> Option<Self>
        ensures { MatchOption result (file_ok b.now ≡ false) (λ t. (file_ok b.now ≡ true) × (t ≡ trailer_of b.now)) }
    {
        if b.len() < 16 {
            return None;
        }
        if b.len() > 65536 {
            return None;
        }
        let trailer = Trailer::of(b);
        if trailer.regions_ok(b.len() - 16) {
            return Some(trailer);
        }
        None
    }

    // Whether counts and regions are within their limits; the trailer starts at `start`.
    fn regions_ok(self, start: usize) -> bool
        ensures { result ≡ regions_ok self start }
    {
        let samples = self.area();
        let blocks = self.blocks as usize;
        (samples <= 8192)
            & (blocks <= 512)
            & ((self.samples as usize) + 2 * samples <= start)
            & ((self.plan as usize) + 6 * blocks <= start)
    }

    // How many samples the picture has.
    pub(crate) fn area(self) -> usize
        ensures { (result ≡ area_of self) × (result < 4294967296) }
    {
        (self.height as usize) * (self.width as usize)
    }

    // The still that it names.
    pub(crate) fn still(self) -> Still
        ensures { result ≡ still_in self }
    {
        let frame = Frame {
            width: u32::from(self.width),
            height: u32::from(self.height),
            ctu: u32::from(self.ctu),
        };
        Still {
            bits: u32::from(self.bits),
            frame,
        }
    }
}

// So many samples from `at` on.
pub(crate) fn read_samples(b: &[u8], at: u32, many: usize) -> [u16; 8192]
    requires { many ≤ 8192 }
    ensures { result ≡ fill (λ (i : ℕ). le_at 2 b.now (at + 2 * i)) many (replicate 8192 0) }
{
    let mut source = [0u16; 8192];
    let start = at as usize;
    for i in 0..many {
        source[i] = two_at(b, start + 2 * i);
    }
    source
}

// A block record of six bytes from `i` on: row and column of two bytes, side and mode of one.
fn block_at(b: &[u8], i: usize) -> Block
    requires { i + 6 < 18446744073709551616 }
    ensures { result ≡ block_in b.now i }
{
    Block {
        row: u32::from(two_at(b, i)),
        col: u32::from(two_at(b, i + 2)),
        side: u32::from(byte_at(b, i + 4)),
        mode: u32::from(byte_at(b, i + 5)),
    }
}

// So many block records from `at` on.
pub(crate) fn read_plan(b: &[u8], at: u32, many: usize) -> [Block; 512]
    requires { many ≤ 512 }
    ensures { result ≡ fill (λ (k : ℕ). block_in b.now (at + 6 * k)) many (replicate 512 no_block) }
{
    let none = Block {
        row: 0,
        col: 0,
        side: 0,
        mode: 0,
    };
    let mut plan = [none; 512];
    let start = at as usize;
    for k in 0..many {
        plan[k] = block_at(b, start + 6 * k);
    }
    plan
}
