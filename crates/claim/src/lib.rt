// From the fields of a list line to an instruction and from an instruction to its claim. Only crates of this repository call these functions.
#![tactic(auto)]

pub mod claim;
pub mod instruction;
