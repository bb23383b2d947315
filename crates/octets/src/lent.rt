// Samples that are lent: as a list of them, or as bytes, two a sample, the lower first. What holds of samples of either form is said
// and proved once, over the list that they stand for. Rests on the laws of bytes.
ghost use Rattle.std.specs.Prelude.{◌≡◌, ℕ, ◌*◌, ◌<◌, Bool, true, List, eqb, leb, length, get_or};
ghost use Rattle.std.proofs.Common.{eqb-true};
ghost use Rattle.laws.specs.Every.{every};
ghost use Rattle.octets.specs.Bytes.{samples_of};
ghost use Rattle.octets.specs.Laws.{bytes_whole};

pub trait Samples: Copy {
    // The samples that are lent.
    ghost list: { Self → List ℕ };

    // Whether they are so many, with nothing besides.
    ghost exactly: { Self → ℕ → Bool };

    fn count(self) -> usize
        ensures { result ≡ length (list self) };

    // A sample; 0 where there is none.
    fn sample(self, i: usize) -> u16
        ensures { result ≡ get_or (list self) i 0 };

    fn exactly(self, samples: usize) -> bool
        ensures { result ≡ exactly self samples };

    ghost whole: { (s : Self) (n : ℕ) → exactly s n ≡ true → length (list s) ≡ n };
}

impl<'a> Samples for &'a [u16] {
    ghost list = { λ s. s.now };

    ghost exactly = { λ s n. eqb (length s.now) n };

    ghost whole = { λ s n e. eqb-true (length s.now) n e };

    fn count(self) -> usize {
        self.len()
    }

    fn sample(self, i: usize) -> u16 {
        if i < self.len() { self[i] } else { 0 }
    }

    fn exactly(self, samples: usize) -> bool {
        self.len() == samples
    }
}

// A byte left over is no sample.
impl<'a> Samples for &'a [u8] {
    ghost list = { λ s. samples_of s.now };

    ghost exactly = { λ s n. eqb (length s.now) (2 * n) };

    ghost whole = { λ s n e. bytes_whole s.now n e };

    #[tactic(auto, using(crate::specs::Laws::length_samples))]
    fn count(self) -> usize {
        self.len() / 2
    }

    #[tactic(auto, using(crate::specs::Laws::length_samples))]
    fn sample(self, i: usize) -> u16 {
        if i < self.len() / 2 {
            crate::sample(self[2 * i], self[2 * i + 1])
        } else {
            0
        }
    }

    fn exactly(self, samples: usize) -> bool {
        crate::whole_in(self.len(), samples)
    }
}

// Number 7: whether no sample is above the largest one. No sample ends the loop, so that many are tested at once.
pub fn samples_ok<S: Samples>(samples: S, largest: u16) -> bool
    ensures { result ≡ every (λ (v : ℕ). leb v largest) (S.list samples) }
{
    let mut ok = true;
    for i in 0..samples.count() {
        ok = ok & (samples.sample(i) <= largest);
    }
    ok
}
