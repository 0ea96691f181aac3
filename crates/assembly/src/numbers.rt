// Codes as they are shown.
ghost use Rattle.std.specs.Prelude.{◌≡◌};
ghost use Rattle.assembly.specs.Numbers.{shown};

use crate::kinds::KindName;
use codes::bounds::Code;
use std::fmt;

// A code as its kind reads it.
#[derive(Clone, Copy)]
pub enum Number {
    Unsigned(u32),
    Signed(i32),
}

impl Number {
    // No `From`: a code alone does not say how it reads.
    pub fn of(kind: KindName, code: Code) -> Number
        ensures { result ≡ shown kind code }
    {
        match kind {
            KindName::Count => Number::Unsigned(code.bits),
            KindName::Bar20 | KindName::Bar100 => Number::Signed(code.bits.cast_signed()),
        }
    }
}

impl fmt::Display for Number {
    fn fmt<W: fmt::Write>(&self, f: &mut fmt::Formatter<W>) -> fmt::Result {
        match self {
            Number::Unsigned(n) => write!(f, "{n}"),
            Number::Signed(n) => write!(f, "{n}"),
        }
    }
}
