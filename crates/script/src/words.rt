// The words of a line, read one after another. Each reader says what it expected where it fails.
ghost use Rattle.std.specs.Prelude.{◌≤◌, IfOk};
ghost use Rattle.script.specs.Words.{Ends, NextWord, Reads};

use crate::error::{Error, Expected};
use lir::bounds::Handle;
use std::alloc::Global;
use std::str::{FromStr, SplitWhitespace};

#[derive(Drop)]
pub struct Words<'a> {
    rest: SplitWhitespace<'a>,
}

impl<'a> Words<'a> {
    pub fn new(line: &'a str) -> Words<'a> {
        Words {
            rest: line.split_whitespace(),
        }
    }

    pub fn word(&mut self, expected: Expected) -> Result<&'a str, Error>
        ensures { NextWord expected self.old.rest result self.new.rest }
    {
        self.rest.next().ok_or(Error::Unread(expected))
    }

    // The next word, as what it stands for.
    pub fn read<T: FromStr>(&mut self, expected: Expected) -> Result<T, Error>
    where
        T::Err: Drop,
        ensures { Reads T.from_str_gives expected self.old.rest result self.new.rest }
    {
        let word = self.word(expected)?;
        word.parse::<T>().map_err(|_| Error::Unread(expected))
    }

    // A number up to `most`.
    pub fn number(&mut self, most: u16, expected: Expected) -> Result<u16, Error>
        ensures { IfOk result (λ n. n ≤ most) }
    {
        let number = self.read::<u16>(expected)?;
        if number > most {
            return Err(Error::Unread(expected));
        }
        Ok(number)
    }

    // Every word that is left, as handles. The heap is lent here alone, since whoever reads none of these needs none.
    pub fn handles(&mut self, heap: Global) -> Result<Vec<Handle>, Error> {
        (&mut self.rest)
            .map(|word| -> Result<Handle, Error> {
                word.parse::<Handle>()
                    .map_err(|_| Error::Unread(Expected::Handle))
            })
            .try_collect(heap)
    }

    pub fn done(&mut self) -> Result<(), Error>
        ensures { Ends self.old.rest result self.new.rest }
    {
        match self.rest.next() {
            Some(_) => Err(Error::Unread(Expected::Nothing)),
            None => Ok(()),
        }
    }
}
