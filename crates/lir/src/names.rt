// Names of values, and handles, by which calls on a writer name them.
ghost use Rattle.std.specs.Prelude.{◌≡◌, ℕ};

use crate::bounds::{Handle, LAST_EXIT, LAST_STEP};

// How many handles, exits and steps there are.
pub const HANDLES: u16 = 1024;

pub const EXITS: u16 = LAST_EXIT + 1;

pub const STEPS: u16 = LAST_STEP + 1;

// Names of values are numbers, and a run keeps the value of a name at its number.
pub trait Name {
    ghost number: { Self → ℕ };

    fn number(&self) -> u16
        ensures { result ≡ number self.now };
}

// What else names values has a struct of its own, so each has these lines.
impl Name for Handle {
    ghost number = { λ h. h.number };

    fn number(&self) -> u16 {
        self.number
    }
}
