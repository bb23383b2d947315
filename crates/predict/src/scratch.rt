// The angular scratch as one struct: the three tables that a call of angular prediction asks for. Rests on the doors' numbers.
ghost use Rattle.std.specs.Prelude.{◌≡◌};
ghost use Rattle.predict.specs.Lent.{zero_scratch};

#[repr(C)]
#[derive(Drop)]
pub struct AngularScratch {
    pub refs: [u16; 193],
    pub indices: [u32; 32],
    pub fractions: [u32; 32],
}

impl AngularScratch {
    pub fn new() -> AngularScratch
        ensures { result ≡ zero_scratch }
    {
        AngularScratch {
            refs: [0u16; 193],
            indices: [0u32; 32],
            fractions: [0u32; 32],
        }
    }
}
