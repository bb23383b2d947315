// Document 01's domain: which depths, sizes, modes, sides, CTUs and units there are, each told by one test.
// Every door asks these and no other. Rests on the laws alone.
#![tactic(auto)]

pub mod helpers;
pub mod refusal;
pub mod rows;

ghost use Rattle.std.specs.Prelude.{◌&&◌, ◌≡◌};
ghost use Rattle.domain.specs.Domain.{depth_ok, size_ok, mode_ok, side_ok, plane_side_ok, ctu_ok, unit_ok};

// Number 1: a depth of 8, 10 or 12 bits.
pub fn depth_ok(bits: u32) -> bool
    ensures { result ≡ depth_ok bits }
{
    (bits == 8) | (bits == 10) | (bits == 12)
}

// Number 2: a block's side of 4, 8, 16 or 32.
pub fn size_ok(n: usize) -> bool
    ensures { result ≡ size_ok n }
{
    (n == 4) | (n == 8) | (n == 16) | (n == 32)
}

// Number 3: a mode of 0 to 34.
pub fn mode_ok(mode: u32) -> bool
    ensures { result ≡ mode_ok mode }
{
    mode <= 34
}

// Number 4: a picture's side, a multiple of 8 from 8 to 4096, and a CTU of 16, 32 or 64.
fn side_ok(side: u32) -> bool
    ensures { result ≡ side_ok side }
{
    (side >= 8) & (side <= 4096) & (side % 8 == 0)
}

// Number 4 of a plane, of luma or of chroma: a side that is a multiple of 4 from 4 to 4096.
pub fn plane_side_ok(side: u32) -> bool
    ensures { result ≡ plane_side_ok side }
{
    (side >= 4) & (side <= 4096) & (side % 4 == 0)
}

fn ctu_ok(ctu: u32) -> bool
    ensures { result ≡ ctu_ok ctu }
{
    (ctu == 16) | (ctu == 32) | (ctu == 64)
}

// Number 4 of a whole picture: its luma sides and its CTU.
pub fn picture_ok(width: u32, height: u32, ctu: u32) -> bool
    ensures { result ≡ (side_ok width && side_ok height && ctu_ok ctu) }
{
    side_ok(width) & side_ok(height) & ctu_ok(ctu)
}

// Number 6: a least unit of 4 or 8.
pub fn unit_ok(unit: u32) -> bool
    ensures { result ≡ unit_ok unit }
{
    (unit == 4) | (unit == 8)
}
