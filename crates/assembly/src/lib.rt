// Traces as people write them: instructions by name, codes as numbers, calls with their fields.
#![tactic(auto)]

pub mod call;
pub mod fields;
pub mod kinds;
pub mod mnemonic;
pub mod numbers;
pub mod unknown;
