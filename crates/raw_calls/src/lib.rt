// Calls by numbers: what a caller may hand in, and the instruction that it means.
#![tactic(auto)]

pub mod fields;
pub mod read;
