// The angle of a mode, where a line of an angle starts among its references, and which reference is its block's first. Rests on nothing.
// An angle stands as the angle plus 32 (`e`), so that no number is below 0.
ghost use Rattle.std.specs.Prelude.{◌≡◌, ◌-◌, get_or};
ghost use Rattle.predict.specs.angles.Starts.{line_start, fraction_of, first_of};
ghost use Rattle.predict.specs.angles.Angles.{turns, bends};

// A number less another, 0 where it is the lesser.
fn less(a: usize, b: usize) -> usize
    ensures { result ≡ a - b }
{
    if a < b {
        return 0;
    }
    a - b
}

// Where line r of an angle starts in a row of references whose entry b is ref[1].
pub(crate) fn start(b: u32, e: u32, r: u32) -> usize
    ensures { result ≡ line_start b e r }
{
    let line = (r as usize) + 1;
    less((b as usize) + line * (e as usize) / 32, line)
}

// Its fraction.
pub(crate) fn fraction(e: u32, r: u32) -> u32
    ensures { result ≡ fraction_of e r }
{
    (((r as usize) + 1) * (e as usize) % 32) as u32
}

// The first reference that a block of side n has of a negative angle, where ref[1] is entry 65.
pub(crate) fn first(e: u32, n: u32) -> usize
    ensures { result ≡ first_of e n }
{
    let side = n as usize;
    less(65 + side * (e as usize) / 32, side)
}

// By how far a mode is from 18: the angle plus 32, and the inverse angle turned positive; 0 where there is none.
// The tables are matches, which the compiler lays out as constant data; an array would be written to the stack at each use.
pub(crate) fn turn(d: usize) -> usize
    ensures { result ≡ get_or turns d 0 }
{
    match d {
        0 => 0,
        1 => 6,
        2 => 11,
        3 => 15,
        4 => 19,
        5 => 23,
        6 => 27,
        7 => 30,
        8 => 32,
        9 => 34,
        10 => 37,
        11 => 41,
        12 => 45,
        13 => 49,
        14 => 53,
        15 => 58,
        16 => 64,
        _ => 0,
    }
}

pub(crate) fn bend(d: usize) -> usize
    ensures { result ≡ get_or bends d 0 }
{
    match d {
        0 => 256,
        1 => 315,
        2 => 390,
        3 => 482,
        4 => 630,
        5 => 910,
        6 => 1638,
        7 => 4096,
        _ => 0,
    }
}
