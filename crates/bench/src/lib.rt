// A bench: a start, a writer at the foot, calls on it, and reports of its runs.
#![tactic(auto)]

pub mod answer;
pub mod bench;
pub mod calls;
pub mod command;
pub mod error;
pub mod report;
pub mod text;
