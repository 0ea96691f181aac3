// What stops a script.
ghost use Rattle.std.specs.Prelude.{◌≡◌};
ghost use Rattle.script.specs.Sessions.{stopped_by};
ghost use Rattle.script.specs.declared.error.Error.TheVariants.{Memory};

use std::alloc::{AllocError, AllocFailed};
use std::fmt;
use thiserror::Error;

// What a line should have had where it could not be read.
#[derive(Clone, Copy, Debug, PartialEq, Eq)]
pub enum Expected {
    Action,
    Kind,
    Foot,
    Places,
    Cell,
    CellNumber,
    Code,
    Handle,
    Op,
    Exit,
    Nothing,
}

impl fmt::Display for Expected {
    fn fmt<W: fmt::Write>(&self, f: &mut fmt::Formatter<W>) -> fmt::Result {
        f.write_str(match self {
            Expected::Action => "kind, cell, foot, the name of a call, run or ask",
            Expected::Kind => "count, bar20 or bar100",
            Expected::Foot => "buffer or evaluator",
            Expected::Places => "a number of places from 0 to 65535",
            Expected::Cell => "a cell from 0 to 63",
            Expected::CellNumber => "a cell's number from 0 to 65535",
            Expected::Code => "a code from -2147483648 to 4294967295",
            Expected::Handle => "a handle from 0 to 1023",
            Expected::Op => "an op from 0 to 255",
            Expected::Exit => "an exit's label from 0 to 65535",
            Expected::Nothing => "nothing more",
        })
    }
}

#[derive(Clone, Copy, Debug, PartialEq, Eq, Error)]
pub enum Error {
    #[error("out of memory")]
    Memory,
    #[error("expected {0}")]
    Unread(Expected),
    #[error("choose a kind first")]
    NoKind,
    #[error("choose a foot first")]
    NoFoot,
}

// By hand, here as in `bench`: `?` asks it of each error, and a derived one would no longer promise which one comes.
impl From<AllocError> for Error {
    ghost from_gives = { λ _ r. r ≡ Memory };

    fn from(_e: AllocError) -> Error {
        Error::Memory
    }
}

impl<T: Drop> From<AllocFailed<T>> for Error {
    ghost from_gives = { λ _ r. r ≡ Memory };

    fn from(_e: AllocFailed<T>) -> Error {
        Error::Memory
    }
}

impl From<bench::error::Error> for Error {
    ghost from_gives = { λ e r. r ≡ stopped_by e };

    fn from(e: bench::error::Error) -> Error {
        match e {
            bench::error::Error::Memory => Error::Memory,
            bench::error::Error::NoFoot => Error::NoFoot,
        }
    }
}
