// The kinds of numbers by name.
ghost use Rattle.assembly.specs.Kinds.{kind_spelling};
ghost use Rattle.assembly.specs.Spelling.{Spelled};

use crate::unknown::UnknownWord;
use std::fmt;
use std::str::FromStr;

#[derive(Clone, Copy, Debug, PartialEq, Eq)]
pub enum KindName {
    Count,
    Bar20,
    Bar100,
}

impl FromStr for KindName {
    type Err = UnknownWord;

    ghost from_str_gives = { Spelled kind_spelling };

    fn from_str(word: &str) -> Result<KindName, UnknownWord> {
        match word {
            "count" => Ok(KindName::Count),
            "bar20" => Ok(KindName::Bar20),
            "bar100" => Ok(KindName::Bar100),
            _ => Err(UnknownWord),
        }
    }
}

impl fmt::Display for KindName {
    fn fmt<W: fmt::Write>(&self, f: &mut fmt::Formatter<W>) -> fmt::Result {
        f.write_str(match self {
            KindName::Count => "count",
            KindName::Bar20 => "bar20",
            KindName::Bar100 => "bar100",
        })
    }
}
