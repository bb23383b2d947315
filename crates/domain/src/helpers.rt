// The absolute value, the lesser of two and the clamp that document 000 takes from Rust's numbers, each once.
// Rests on the standard's Clip3 and on the laws of signed numbers.
ghost use Rattle.std.specs.Prelude.{◌≡◌, ◌<◌, min as least, pos, nat_abs, ◌-ℤ◌};
ghost use Rattle.h265.specs.Notation.{clip_to};
ghost use Rattle.domain.specs.helpers.Ways.{Narrowed};

// The lesser of two.
pub fn min(a: u32, b: u32) -> u32
    ensures { result ≡ least a b }
{
    if a < b { a } else { b }
}

// The same of two lengths.
pub fn min_len(a: usize, b: usize) -> usize
    ensures { result ≡ least a b }
{
    if a < b { a } else { b }
}

// How far apart two numbers are.
pub fn abs_diff(a: u32, b: u32) -> u32
    ensures { result ≡ nat_abs (pos a -ℤ pos b) }
{
    if a < b {
        return b - a;
    }
    a - b
}

// The absolute value, also of the least i32, whose own is no i32.
pub fn abs(z: i32) -> u32
    ensures { result ≡ nat_abs z }
{
    if z < 0 {
        return (-1 - z) as u32 + 1;
    }
    z as u32
}

// A number brought to the i16s, which changes no clamp to 32767 or less.
fn narrowed(v: i32) -> i32
    ensures { Narrowed v result }
{
    if v < -32768 {
        return -32768;
    }
    if v > 32767 {
        return 32767;
    }
    v
}

fn not_below_zero(s: i16) -> i16
    ensures { result ≡ pos (clip_to 32767 s) }
{
    if s < 0 {
        return 0;
    }
    s
}

// The clamp in 16 bits, in which twice as many are done at once.
fn clamp_short(v: i32, largest: u16) -> u16
    requires { largest < 32768 }
    ensures { result ≡ clip_to largest v }
{
    let t = not_below_zero(narrowed(v) as i16);
    if t < (largest as i16) {
        return t as u16;
    }
    largest
}

fn clamp_long(v: i32, largest: u16) -> u16
    ensures { result ≡ clip_to largest v }
{
    if v < 0 {
        return 0;
    }
    let w = v as u32;
    if w < (largest as u32) {
        return w as u16;
    }
    largest
}

// A number brought to 0..largest.
pub fn clamp(v: i32, largest: u16) -> u16
    ensures { result ≡ clip_to largest v }
{
    if largest < 32768 {
        return clamp_short(v, largest);
    }
    clamp_long(v, largest)
}
