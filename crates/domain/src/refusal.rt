// Why a call is refused: one case for each number that document 01 and document 02 name. C sees the number, everything else the case.
// Rests on nothing.
ghost use Rattle.std.specs.Prelude.{◌≡◌};
ghost use Rattle.domain.specs.Refusal.{number, no_of};

/// What a call is refused for.
#[derive(Clone, Copy, Debug, PartialEq, Eq)]
pub enum Refusal {
    Depth,
    Size,
    Mode,
    Picture,
    Buffer,
    Place,
    Sample,
    Residual,
    Order,
    Gap,
    Start,
    File,
    Excess,
    Limit,
}

impl Refusal {
    // The number that C is given.
    pub fn number(self) -> u32
        ensures { result ≡ number self }
    {
        match self {
            Refusal::Depth => 1,
            Refusal::Size => 2,
            Refusal::Mode => 3,
            Refusal::Picture => 4,
            Refusal::Buffer => 5,
            Refusal::Place => 6,
            Refusal::Sample => 7,
            Refusal::Residual => 8,
            Refusal::Order => 9,
            Refusal::Gap => 10,
            Refusal::Start => 11,
            Refusal::File => 12,
            Refusal::Excess => 14,
            Refusal::Limit => 15,
        }
    }
}

// The number of an answer that says nothing else: 0 for done.
pub fn no_of(answer: Result<(), Refusal>) -> u32
    ensures { result ≡ no_of answer }
{
    match answer {
        Ok(()) => 0,
        Err(why) => why.number(),
    }
}
