// The 26 constraints on a row of a trace, each a function of its own, and the first of them that a row breaks. Only crates of
// this repository call these functions; every one answers on any rows. Each takes the rows that it looks at and no other: x is the row
// itself, b the row before it and a the one two before it. Two that differ in their cells alone stay two, as document 01 lists them.
#![tactic(auto)]

pub mod beyond;
mod cells;
pub mod cycle;
pub mod first;
pub mod steps;
pub mod window;
pub mod within;
