// Value numbers, by which calls on a recording name its values.
use crate::names::Name;

// A struct of its own and no `UpTo`, so that it is never taken for a handle.
// The number of a value in the order in which a recording accepted it. Any number may be asked for;
// one that no value has yet is refused where it is used.
#[derive(Clone, Copy)]
pub struct ValueNumber {
    pub number: u16,
}

impl Name for ValueNumber {
    ghost number = { λ v. v.number };

    fn number(&self) -> u16 {
        self.number
    }
}
