// Samples and residuals as bytes, the lowest byte first: one number at a time, so that a caller reads and stores its own bytes.
// Rests on nothing.
#![tactic(auto)]

pub mod lent;
pub mod pairs;

ghost use Rattle.std.specs.Prelude.{◌≡◌, ◌*◌, eqb};
ghost use Rattle.octets.specs.Bytes.{le2, residual4};

// The sample of two bytes.
pub fn sample(low: u8, high: u8) -> u16
    ensures { result ≡ le2 low high }
{
    u16::from_le_bytes([low, high])
}

// Whether bytes are as many as a plane of so many samples has. No product can pass the type's end.
pub fn whole_in(bytes: usize, samples: usize) -> bool
    ensures { result ≡ eqb bytes (2 * samples) }
{
    (bytes % 2 == 0) & (bytes / 2 == samples)
}

// The residual of four bytes.
pub fn residual(a: u8, b: u8, c: u8, d: u8) -> i32
    ensures { result ≡ residual4 a b c d }
{
    i32::from_le_bytes([a, b, c, d])
}
