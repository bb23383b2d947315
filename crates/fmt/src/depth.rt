// Bit depth: the rules of fmt.rs about it that the port takes, the door from a number of bits, and the figures of such a number.
// Rests on the kinds of refusal. Every figure of a depth stands here and nowhere else.
ghost use Rattle.std.specs.Prelude.{◌≡◌};
ghost use Rattle.fmt.specs.depth.Depth.{bits_of, max_val, neutral, depth_from, largest_of, neutral_of};

use domain::refusal::Refusal;

#[derive(Clone, Copy, Debug, PartialEq, Eq)]
pub enum BitDepth {
    Eight,
    Ten,
    Twelve,
}

impl BitDepth {
    // The door from a number of bits; the Rust's panic is number 1.
    pub fn from_bits(bits: u32) -> Result<BitDepth, Refusal>
        ensures { result ≡ depth_from bits }
    {
        match bits {
            8 => Ok(BitDepth::Eight),
            10 => Ok(BitDepth::Ten),
            12 => Ok(BitDepth::Twelve),
            _ => Err(Refusal::Depth),
        }
    }

    pub fn bits(self) -> u8
        ensures { result ≡ bits_of self }
    {
        match self {
            BitDepth::Eight => 8,
            BitDepth::Ten => 10,
            BitDepth::Twelve => 12,
        }
    }

    // The largest sample.
    pub fn max_val(self) -> u16
        ensures { result ≡ max_val self }
    {
        match self {
            BitDepth::Eight => 255,
            BitDepth::Ten => 1023,
            BitDepth::Twelve => 4095,
        }
    }

    // The sample that stands in where no neighbour is available.
    pub fn neutral(self) -> u16
        ensures { result ≡ neutral self }
    {
        match self {
            BitDepth::Eight => 128,
            BitDepth::Ten => 512,
            BitDepth::Twelve => 2048,
        }
    }
}

// The largest sample of so many bits, 0 where they name no depth.
pub fn largest_of(bits: u32) -> u16
    ensures { result ≡ largest_of bits }
{
    match BitDepth::from_bits(bits) {
        Ok(d) => d.max_val(),
        Err(_) => 0,
    }
}

// The sample that stands in at so many bits where no neighbour is available, 0 where they name no depth.
pub fn neutral_of(bits: u32) -> u16
    ensures { result ≡ neutral_of bits }
{
    match BitDepth::from_bits(bits) {
        Ok(d) => d.neutral(),
        Err(_) => 0,
    }
}
