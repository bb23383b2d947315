// Bytes stored from a place on, as the gathers, the replay and the answers store their numbers.
ghost use Rattle.std.specs.Prelude.{◌≡◌, ◌+◌, ◌≤◌, length};
ghost use Rattle.std.proofs.Math.Seq.{sets};

// Stores bytes from a place on.
pub(crate) fn put<const N: usize>(b: &mut [u8], at: usize, bytes: [u8; N])
    requires { at + N ≤ length b.old }
    ensures { b.new ≡ sets b.old at bytes.entry }
{
    b[at..at + N].copy_from_slice(&bytes);
}
