// How the way a run goes is shown.
use super::Outcome;
use lir::instruction::Lives;
use std::fmt;

impl<N: fmt::Display> fmt::Display for Outcome<N> {
    fn fmt<W: fmt::Write>(&self, f: &mut fmt::Formatter<W>) -> fmt::Result {
        match self {
            Outcome::Going => write!(f, "going"),
            Outcome::Gone(exit, Lives::Zero) => write!(f, "left by exit {exit}"),
            Outcome::Gone(exit, lives) => write!(f, "left by exit {exit} with {lives}"),
            Outcome::Ended => write!(f, "ended"),
        }
    }
}
