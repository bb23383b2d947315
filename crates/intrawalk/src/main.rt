// intrawalk: prints what `report` makes of standard input. Rests on report's contract for the text.
#![tactic(auto)]

ghost use Rattle.std.specs.Prelude.{◌≡◌, ◌≤◌, ◌<◌, IfOk, length, take};
ghost use Rattle.std.specs.Io.{ReadsAtMost};
ghost use Rattle.std.specs.Io.KnownBytes.{Consumes, IsAtEnd};

use report::Printout;
use std::io;
use std::io::Read;

// Reads until the buffer is full or the input ends, and tells how many bytes.
fn read_full<R: Read>(input: &mut R, buffer: &mut [u8]) -> io::Result<usize>
    ensures bound { ReadsAtMost result buffer.new }
    ensures octets { IfOk result (λ n. Consumes (R.remaining input.old) (R.remaining input.new) (take n buffer.new)) }
    ensures end { IfOk result (λ n. n < length buffer.new → IsAtEnd (R.remaining input.new)) }
{
    let mut done = 0;
    while done < buffer.len() {
        let n = input.read(&mut buffer[done..])?;
        if n == 0 {
            break;
        }
        done += n;
    }
    Ok(done)
}

// Reads all of standard input, as far as there is room, and tells how many bytes. Where a read fails before the input ends, it is
// as if nothing had been read.
fn read_input<R: Read>(input: &mut R, buffer: &mut [u8]) -> usize
    ensures bound { (result ≤ length buffer.new) × (result ≡ length (take result buffer.new)) }
    ensures octets { 0 < result → Consumes (R.remaining input.old) (R.remaining input.new) (take result buffer.new) }
    ensures end { 0 < result → result < length buffer.new → IsAtEnd (R.remaining input.new) }
{
    read_full(input, buffer).unwrap_or(0)
}

// One byte more than the limit is read: so an input that is too long is told from one that is not.
fn main(rt: HostRuntime) -> io::Result<()> {
    let mut buffer = [0u8; 65537];
    let n = read_input(&mut rt.stdin(), &mut buffer);
    let Printout { text, length } = report::report(&buffer[..n]);
    rt.write_all(&text[..length])
}
