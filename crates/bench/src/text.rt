// How what a bench answers is shown.
use crate::answer::{Content, Counts, Report};
use crate::command::FootSpec;
use std::fmt;

impl fmt::Display for FootSpec {
    fn fmt<W: fmt::Write>(&self, f: &mut fmt::Formatter<W>) -> fmt::Result {
        match self {
            FootSpec::Buffer(places) => write!(f, "buffer of {places} places"),
            FootSpec::Evaluator => write!(f, "evaluator from the start as set now"),
        }
    }
}

impl fmt::Display for Content {
    fn fmt<W: fmt::Write>(&self, f: &mut fmt::Formatter<W>) -> fmt::Result {
        let Content { cell, number } = self;
        write!(f, "cell {cell} = {number}")
    }
}

impl fmt::Display for Report {
    fn fmt<W: fmt::Write>(&self, f: &mut fmt::Formatter<W>) -> fmt::Result {
        write!(f, "{}", self.standing)?;
        if self.changes.is_empty() {
            return write!(f, "; no cell changed");
        }
        f.write_str("; ")?;
        f.write_joined(self.changes.iter(), ", ")
    }
}

impl fmt::Display for Counts {
    fn fmt<W: fmt::Write>(&self, f: &mut fmt::Formatter<W>) -> fmt::Result {
        let Counts {
            handles,
            taken,
            space,
            ended,
        } = self;
        let over = if *ended { "ended" } else { "not ended" };
        write!(f, "{handles} handles, {taken} taken, space {space}, {over}")
    }
}
