// Refusals, the parts of the library, and the faults by which refusals are reported.
ghost use Rattle.std.specs.Prelude.{◌≡◌};
ghost use Rattle.lir.specs.Refusals.{number_of, part_number};

// Why a call is refused, with the number by which callers know it.
#[derive(Clone, Copy, Debug, PartialEq, Eq)]
pub enum Refusal {
    BadHeader = 1,
    BadLength = 2,
    BadRecord = 3,
    Malformed = 4,
    Undefined = 5,
    Ended = 6,
    Full = 7,
    ExitOrder = 8,
    NoSpace = 9,
    Unsettled = 10,
    WrongSlip = 11,
}

impl Refusal {
    // A method and no `From`, so that what a number is a number of stands where it is asked for; so for a part.
    pub fn number(self) -> u8
        ensures { result ≡ number_of self }
    {
        self as u8
    }
}

// A part that refuses calls, with the number by which faults name it: one of the library's, or a writer from elsewhere by a
// number of its own.
#[derive(Clone, Copy, Debug, PartialEq, Eq)]
pub enum Part {
    FileCall,
    Recording,
    Buffer,
    Evaluator,
    Fold,
    Range,
    Guard,
    Forward,
    Cse,
    Other(u8),
}

impl Part {
    // A match, since an enum with a variant that holds something is not cast.
    pub fn number(self) -> u8
        ensures { result ≡ part_number self }
    {
        match self {
            Part::FileCall => 0,
            Part::Recording => 1,
            Part::Buffer => 2,
            Part::Evaluator => 3,
            Part::Fold => 5,
            Part::Range => 6,
            Part::Guard => 7,
            Part::Forward => 8,
            Part::Cse => 9,
            Part::Other(number) => number,
        }
    }
}

// A refusal with the part that gave it, and how much that part had accepted by then.
// It travels up from where it arose unchanged.
#[derive(Clone, Copy, Debug, PartialEq, Eq)]
pub struct Fault {
    pub refusal: Refusal,
    pub part: Part,
    pub place: u64,
}
