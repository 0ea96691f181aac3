// How refusals, parts, faults and lives are shown.
use crate::fault::{Fault, Part, Refusal};
use crate::instruction::Lives;
use std::fmt;

impl fmt::Display for Refusal {
    fn fmt<W: fmt::Write>(&self, f: &mut fmt::Formatter<W>) -> fmt::Result {
        f.write_str(match self {
            Refusal::BadHeader => "not a trace file of this kind",
            Refusal::BadLength => "wrong length",
            Refusal::BadRecord => "bad record",
            Refusal::Malformed => "no such instruction",
            Refusal::Undefined => "operand not yet defined",
            Refusal::Ended => "has ended",
            Refusal::Full => "recording is full",
            Refusal::ExitOrder => "exit label not rising",
            Refusal::NoSpace => "no space",
            Refusal::Unsettled => "an exit has no place",
            Refusal::WrongSlip => "wrong slip",
        })
    }
}

impl fmt::Display for Part {
    fn fmt<W: fmt::Write>(&self, f: &mut fmt::Formatter<W>) -> fmt::Result {
        f.write_str(match self {
            Part::FileCall => "file call",
            Part::Recording => "recording",
            Part::Buffer => "buffer",
            Part::Evaluator => "evaluator",
            Part::Fold => "fold",
            Part::Range => "range",
            Part::Guard => "guard",
            Part::Forward => "forward",
            Part::Cse => "CSE",
            Part::Other(_) => "unknown",
        })
    }
}

impl fmt::Display for Fault {
    fn fmt<W: fmt::Write>(&self, f: &mut fmt::Formatter<W>) -> fmt::Result {
        let Fault {
            refusal,
            part,
            place,
        } = self;
        let number = refusal.number();
        let part_number = part.number();
        write!(
            f,
            "refused {number}: {refusal} (part {part_number}, {part}; place {place})"
        )
    }
}

// One after another, with commas between them.
impl<N: fmt::Display> fmt::Display for Lives<N> {
    fn fmt<W: fmt::Write>(&self, f: &mut fmt::Formatter<W>) -> fmt::Result {
        match self {
            Lives::Zero => Ok(()),
            Lives::One(p) => write!(f, "{p}"),
            Lives::Two(p, q) => write!(f, "{p}, {q}"),
            Lives::Three(p, q, s) => write!(f, "{p}, {q}, {s}"),
            Lives::Four(p, q, s, t) => write!(f, "{p}, {q}, {s}, {t}"),
        }
    }
}
