// Codes and cells, each a type that carries its own bound.
ghost use Rattle.std.specs.Prelude.{◌^◌, ◌+◌, ◌<◌};

// A code: 32 bits without sign. What it means as a number is for a kind to say.
#[derive(Clone, Copy, Debug, PartialEq, Eq)]
pub struct Code {
    pub bits: u32,
    ghost fits: { bits < 2 ^ 32 },
}

// A number from 0 to LAST, by which one of that many things is named. What names one thing is a type apart from what
// names another, as long as they are not equally many.
#[derive(Clone, Copy, Debug, PartialEq, Eq)]
pub struct UpTo<const LAST: u16> {
    pub number: u16,
    ghost small: { number < LAST + 1 },
}

// The number of one of the 64 cells.
pub type Cell = UpTo<63>;
