// The samples of a plane, each asked for by a caller that has shown it to be there, so that no place is tested: the squares are summed so.
// Rests on lent samples.
ghost use Rattle.std.specs.Prelude.{◌≡◌, ◌<◌, length, get_or};

use octets::lent::Samples;

pub(crate) trait Plane: Samples {
    fn there(self, i: usize) -> u16
        requires { i < length (Self.list self) }
        ensures { result ≡ get_or (Self.list self) i 0 };
}

impl<'a> Plane for &'a [u16] {
    fn there(self, i: usize) -> u16 {
        self[i]
    }
}

impl<'a> Plane for &'a [u8] {
    #[tactic(auto, using(octets::specs::Laws::length_samples))]
    fn there(self, i: usize) -> u16 {
        octets::sample(self[2 * i], self[2 * i + 1])
    }
}
