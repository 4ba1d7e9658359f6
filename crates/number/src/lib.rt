// Whole numbers: values of 17 bytes in the code, and the definitions of big-endian numbers of any width, of cells, sums of bytes and digits. Every function
// here serves the crates above; an operator calls none of them.
#![tactic(auto)]

pub mod wide;

// How many values a byte has, and what the first byte of four counts.
pub const BASE: u32 = 256;

pub const FIRST_OF_FOUR: u32 = BASE * BASE * BASE;
