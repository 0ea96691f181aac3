// The writers at the foot of a pile: one keeps the trace, the other runs it as it arrives.
#![tactic(auto)]

pub mod buffer;
pub mod evaluator;
mod foot;
pub mod machine;
