// Samples between bytes and lists, two bytes each, the lower first. They go in pairs, by way of numbers of 32 bits: of these the
// compiler sees that four bytes make one, and each way becomes one copy. Where a list is too short nothing is written. Rests on
// the laws of fill.
ghost use Rattle.std.specs.Prelude.{◌≡◌, ℕ, ◌+◌, ◌*◌, ◌%◌, ◌≤◌, ◌<◌, length, get_or, set};
ghost use Rattle.laws.specs.Fill.{fill};
ghost use Rattle.laws.specs.Bytes.{byte_of};
ghost use Rattle.octets.specs.Bytes.{byte1, byte2, byte3, samples_of};
ghost use Rattle.octets.specs.Laws.{Below};
ghost use Rattle.octets.specs.pairs.Words.{pair_of, Paired, half_of};
ghost use Rattle.octets.specs.pairs.Into.{read_into, store_into};

// Four bytes are two samples, the first in the lower half.
fn pair_in(row: &[u8], i: usize) -> u32
    requires { 4 * i + 3 < length row.now }
    ensures { (result ≡ pair_of (samples_of row.now) i) × Below (samples_of row.now) }
{
    let k = 4 * i;
    u32::from_le_bytes([row[k], row[k + 1], row[k + 2], row[k + 3]])
}

fn pairs_in(row: &[u8], count: usize, words: &mut [u32])
    requires { (4 * count ≤ length row.now) × (count ≤ length words.old) }
    ensures { Paired (samples_of row.now) count words.old words.new }
{
    for i in 0..count {
        words[i] = pair_in(row, i);
    }
}

// Each number taken apart again.
fn apart(words: &[u32], count: usize, out: &mut [u16])
    requires { (count ≤ length words.now) × (2 * count ≤ length out.old) }
    ensures { out.new ≡ fill (half_of words.now) (2 * count) out.old }
{
    for i in 0..count {
        out[2 * i] = (words[i] % 65536) as u16;
        out[2 * i + 1] = (words[i] / 65536 % 65536) as u16;
    }
}

fn read_all(row: &[u8], count: usize, out: &mut [u16])
    requires { (count ≤ 32) × ((4 * count ≤ length row.now) × (2 * count ≤ length out.old)) }
    ensures { out.new ≡ fill (λ (i : ℕ). get_or (samples_of row.now) i 0) (2 * count) out.old }
{
    let mut words = [0u32; 32];
    pairs_in(row, count, &mut words);
    apart(&words, count, out);
}

// The first 2 · count samples of a row, at most 64.
#[tactic(auto, unfolding(crate::specs::pairs::Into::read_into))]
pub fn read(row: &[u8], count: usize, out: &mut [u16])
    ensures { out.new ≡ read_into count row.now out.old }
{
    if count > 32 {
        return;
    }
    if (row.len() >= 4 * count) & (out.len() >= 2 * count) {
        read_all(row, count, out);
    }
}

fn pair_of(samples: &[u16], i: usize) -> u32
    requires { 2 * i + 1 < length samples.now }
    ensures { (result ≡ pair_of samples.now i) × Below samples.now }
{
    u32::from(samples[2 * i]) + 65536 * u32::from(samples[2 * i + 1])
}

fn pairs_of(samples: &[u16], count: usize, words: &mut [u32])
    requires { (2 * count ≤ length samples.now) × (count ≤ length words.old) }
    ensures { Paired samples.now count words.old words.new }
{
    for i in 0..count {
        words[i] = pair_of(samples, i);
    }
}

fn put_word(out: &mut [u8], i: usize, v: u32)
    requires { 4 * i + 3 < length out.old }
    ensures { out.new ≡ set (set (set (set out.old (4 * i) (v % 256)) (4 * i + 1) (byte1 v))
        (4 * i + 2) (byte2 v)) (4 * i + 3) (byte3 v) }
{
    let k = 4 * i;
    let [first, second, third, fourth] = v.to_le_bytes();
    out[k] = first;
    out[k + 1] = second;
    out[k + 2] = third;
    out[k + 3] = fourth;
}

fn spread(words: &[u32], count: usize, out: &mut [u8])
    requires { (count ≤ length words.now) × (4 * count ≤ length out.old) }
    ensures { out.new ≡ fill (byte_of 4 (λ (i : ℕ). get_or words.now i 0)) (4 * count) out.old }
{
    for i in 0..count {
        put_word(out, i, words[i]);
    }
}

fn store_all(samples: &[u16], count: usize, out: &mut [u8])
    requires { (count ≤ 512) × ((2 * count ≤ length samples.now) × (4 * count ≤ length out.old)) }
    ensures { out.new ≡ fill (byte_of 2 (λ (i : ℕ). get_or samples.now i 0)) (4 * count) out.old }
{
    let mut words = [0u32; 512];
    pairs_of(samples, count, &mut words);
    spread(&words, count, out);
}

// The first 2 · count samples of a list, at most 1024.
#[tactic(auto, unfolding(crate::specs::pairs::Into::store_into))]
pub fn store(samples: &[u16], count: usize, out: &mut [u8])
    ensures { out.new ≡ store_into count samples.now out.old }
{
    if count > 512 {
        return;
    }
    if (samples.len() >= 2 * count) & (out.len() >= 4 * count) {
        store_all(samples, count, out);
    }
}
