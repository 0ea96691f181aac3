// What a line of a script is answered, and the text of it.
use assembly::kinds::KindName;
use bench::answer::{Answer, Content, Counts, Report};
use bench::command::FootSpec;
use std::fmt;

#[derive(Drop)]
pub enum Reply {
    Kind(KindName),
    Cell(Content),
    Foot(FootSpec),
    Call(Answer),
    Run(Report),
    Ask(Counts),
}

impl fmt::Display for Reply {
    fn fmt<W: fmt::Write>(&self, f: &mut fmt::Formatter<W>) -> fmt::Result {
        match self {
            Reply::Kind(kind) => write!(f, "kind {kind}, all cells 0"),
            Reply::Cell(content) => write!(f, "{content}"),
            Reply::Foot(spec) => write!(f, "{spec}"),
            Reply::Call(Ok(Some(handle))) => write!(f, "handle {handle}"),
            Reply::Call(Ok(None)) => write!(f, "accepted"),
            Reply::Call(Err(fault)) => write!(f, "{fault}"),
            Reply::Run(report) => write!(f, "{report}"),
            Reply::Ask(counts) => write!(f, "{counts}"),
        }
    }
}
