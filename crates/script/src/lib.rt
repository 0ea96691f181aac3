// Scripts: lines of text that set up a bench, call what stands on it and ask it, and the text of what each line is answered.
#![tactic(auto)]

pub mod command;
pub mod error;
pub mod line;
pub mod parse;
pub mod reply;
pub mod session;
pub mod words;
