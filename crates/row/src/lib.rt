// One row of a trace in code: a row by value, the view of a row's bytes, where its cells stand, and cells side by side as one number. Only crates of this
// repository call these functions: the view asks that the row is there.
#![tactic(auto)]

pub mod cells;
pub mod group;
pub mod place;
mod read;
pub mod three;
pub mod view;
