// Whether a block's edges are filtered, H.265 8.4.4.2.5 and 8.4.4.2.6: where its door is asked to, and only below side 32. Rests on
// nothing.
ghost use Rattle.std.specs.Prelude.{◌&&◌, ◌≡◌, ltb};

pub(crate) fn filtered(edge: bool, n: usize) -> bool
    ensures { result ≡ (edge && ltb n 32) }
{
    edge & (n < 32)
}
