// The cells of a row in bytes: big-endian numbers of 1, 3, 4 and 17 bytes, read from a slice and written to one. Every function here serves the crates above;
// an operator calls none of them.
#![tactic(auto)]

pub mod read;
pub mod write;
