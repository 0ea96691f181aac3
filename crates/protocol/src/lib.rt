// What it takes to be a writer, and what whoever calls one may rely on.
#![tactic(auto)]

pub mod writer;
