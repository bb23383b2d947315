// Reads the numbers of a fixed list: words of eight hex digits, with one byte after each. And what every program that replays such a
// list does with them: draws samples from a seed, looks for a line's entries in what was written, counts. Rests on nothing else.
#![tactic(auto)]

ghost use Rattle.std.specs.Prelude.{◌≡◌, ◌+◌, ◌*◌, ◌≤◌, get_or};
ghost use Rattle.listing.specs.Hex.{hex_digit, digit_at, octet_at, half_at, word_at};
ghost use Rattle.listing.specs.Drawn.{next_of, other_seed, drawn_sample, drawn, drawn_row, same_from, counted};

fn digit(b: u8) -> u32
    ensures { (result ≡ hex_digit b) × (result ≤ 15) }
{
    match b {
        b'0'..=b'9' => u32::from(b - b'0'),
        b'a'..=b'f' => u32::from(b - b'a') + 10,
        _ => 0,
    }
}

fn digit_at(line: &[u8], at: usize) -> u32
    ensures { (result ≡ digit_at line.now at) × (result ≤ 15) }
{
    line.get(at).map_or(0, |b| digit(*b))
}

fn octet_at(line: &[u8], at: usize) -> u32
    requires { at ≤ 4294967295 * 9 + 6 }
    ensures { (result ≡ octet_at line.now at) × (result ≤ 255) }
{
    16 * digit_at(line, at) + digit_at(line, at + 1)
}

fn half_at(line: &[u8], at: usize) -> u32
    requires { at ≤ 4294967295 * 9 + 4 }
    ensures { (result ≡ half_at line.now at) × (result ≤ 65535) }
{
    256 * octet_at(line, at) + octet_at(line, at + 2)
}

// The word of a number, counted from 0; what lies past the end counts as 0.
pub fn word(line: &[u8], number: u32) -> u32
    ensures { result ≡ word_at line.now (9 * number) }
{
    let at = 9 * (number as usize);
    65536 * half_at(line, at) + half_at(line, at + 4)
}

fn next(x: u32) -> u32
    ensures { result ≡ next_of x }
{
    ((x % 65537) * 75 + 74) % 65537
}

// The seed of a call's second row of numbers.
pub fn other(seed: u32) -> u32
    ensures { result ≡ other_seed seed }
{
    ((seed % 65537) * 171 + 11213) % 65537
}

// A number brought to at most the largest; a largest of 1 stands for samples of either end.
pub fn sample(x: u32, top: u32) -> u16
    ensures { result ≡ drawn_sample x top }
{
    if top == 1 {
        return ((x % 2) * 65535) as u16;
    }
    (x % (top.min(65535) + 1)) as u16
}

// Writes the samples of the numbers that follow a seed.
pub fn draw_into(seed: u32, top: u32, out: &mut [u16])
    ensures { out.new ≡ drawn seed top out.old }
{
    let mut x = seed;
    for slot in out {
        x = next(x);
        *slot = sample(x, top);
    }
}

// A row of them.
pub fn row(seed: u32, top: u32) -> [u16; 65]
    ensures { result ≡ drawn_row seed top }
{
    let mut out = [0u16; 65];
    draw_into(seed, top, &mut out);
    out
}

fn entry(written: &[u16], at: usize) -> u16
    ensures { result ≡ get_or written.now at 0 }
{
    written.get(at).copied().unwrap_or(0)
}

// Whether the 32 entries from a place on are a line's words from a word on; what lies past an end counts as 0.
pub fn same_run(line: &[u8], first: u8, written: &[u16], place: u32) -> bool
    ensures { result ≡ same_from line.now first written.now place 32 }
{
    let mut all = true;
    for i in 0..32u32 {
        let wanted = word(line, (first as u32) + i);
        let found = entry(written, (place as usize) + (i as usize));
        all = all & (wanted == (found as u32));
    }
    all
}

// The calls of a list, and those of them that gave something else than the list has.
#[derive(Clone, Copy, Debug, PartialEq, Eq)]
pub struct Count {
    pub calls: u64,
    pub differ: u64,
}

impl Count {
    // The count with one call more.
    pub fn with(self, same: bool) -> Count
        ensures { result ≡ counted self same }
    {
        Count {
            calls: self.calls.saturating_add(1),
            differ: if same {
                self.differ
            } else {
                self.differ.saturating_add(1)
            },
        }
    }
}
