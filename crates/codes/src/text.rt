// Codes and numbers as they are written and shown.
ghost use Rattle.codes.specs.Texts.{Coded, Read, Numbered};

use crate::bounds::{Code, UpTo};
use std::fmt;
use std::str::FromStr;

// A number that has no code, or a text that writes none of the numbers asked for.
#[derive(Clone, Copy, Debug, PartialEq, Eq)]
pub struct OutOfRange;

// The code of a number: without sign up to 2^32 - 1, or with sign from -2^31 in two's complement.
impl TryFrom<i64> for Code {
    type Error = OutOfRange;

    ghost try_from_gives = { Coded };

    fn try_from(number: i64) -> Result<Code, OutOfRange> {
        if let Ok(bits) = u32::try_from(number) {
            return Ok(Code::new(bits));
        }
        let signed = i32::try_from(number).map_err(|_| OutOfRange)?;
        Ok(Code::new(signed.cast_unsigned()))
    }
}

impl FromStr for Code {
    type Err = OutOfRange;

    ghost from_str_gives = { Read };

    fn from_str(word: &str) -> Result<Code, OutOfRange> {
        let number = word.parse::<i64>().map_err(|_| OutOfRange)?;
        Code::try_from(number)
    }
}

impl<const LAST: u16> FromStr for UpTo<LAST> {
    type Err = OutOfRange;

    ghost from_str_gives = { Numbered };

    fn from_str(word: &str) -> Result<UpTo<LAST>, OutOfRange> {
        let number = word.parse::<u16>().map_err(|_| OutOfRange)?;
        UpTo::new(number).ok_or(OutOfRange)
    }
}

impl<const LAST: u16> fmt::Display for UpTo<LAST> {
    fn fmt<W: fmt::Write>(&self, f: &mut fmt::Formatter<W>) -> fmt::Result {
        write!(f, "{}", self.number)
    }
}
