// Codes, the cells that hold them, and the kinds that say what they mean as numbers.
#![tactic(auto)]

pub mod bounds;
pub mod cells;
pub mod codes;
pub mod count;
pub mod kind;
pub mod pressure;
pub mod text;
