// The trace language: its instructions, what names their operands, what they compute, and the faults.
#![tactic(auto)]

pub mod apply;
pub mod bounds;
pub mod defined;
pub mod fault;
pub mod instruction;
pub mod lives;
pub mod names;
pub mod text;
pub mod value_number;
