// Making codes and naming cells.
ghost use Rattle.std.specs.Prelude.{◌≡◌, ◌+◌};
ghost use Rattle.codes.specs.Codes.{code};
ghost use Rattle.codes.specs.Bounds.{numbered, wrapped, low_cell};

use crate::bounds::{Cell, Code, UpTo};

// How many cells there are.
pub const CELLS: u16 = 64;

impl Code {
    // No `From<u32>`: these are a code's bits, and not the number that the code is of.
    pub fn new(bits: u32) -> Code
        ensures { result ≡ code bits }
    {
        Code { bits }
    }
}

impl<const LAST: u16> UpTo<LAST> {
    // What a number names, or none where it is beyond the last. No `TryFrom`, since those who ask answer an option themselves.
    pub fn new(number: u16) -> Option<UpTo<LAST>>
        ensures { result ≡ numbered LAST number }
    {
        if number <= LAST {
            Some(UpTo { number })
        } else {
            None
        }
    }

    // What follows n others; after the last comes the first.
    pub fn nth(n: u32) -> UpTo<LAST>
        ensures { result ≡ wrapped LAST n }
    {
        UpTo {
            number: (n % (u32::from(LAST) + 1)) as u16,
        }
    }
}

impl Cell {
    // The cell numbered by the low six bits of a code.
    pub fn low(code: Code) -> Cell
        ensures { result ≡ low_cell code }
    {
        Cell::nth(code.bits)
    }
}
