// The model of the memory stage: document 01 as definitions (specs/) and the laws about them (proofs/). The crates with code cite both.
#![tactic(auto)]

ghost use Rattle.std.specs.Prelude.{◌≡◌};
ghost use Rattle.model.specs.Columns.{row_bytes};

// The bytes of a row.
pub const ROW_BYTES: usize = 114;

// The most rows of a trace.
pub const MAX_ROWS: usize = 65536;

// The last CT of a cycle, in bounds and out of bounds, and the rows of a cycle.
pub const IN_LAST: u8 = 2;

pub const OUT_LAST: u8 = 16;

pub const IN_ROWS: usize = IN_LAST as usize + 1;

pub const OUT_ROWS: usize = OUT_LAST as usize + 1;

// What AUX1 of the row before a cycle's last is above AUX1 of the last.
pub const AUX_LIFT: u8 = 224;

// How many bytes a row has. A crate is checked by its functions and this one has no other work: it is here for the definitions and the laws.
pub fn row_bytes() -> usize
    ensures { result ≡ row_bytes }
{
    ROW_BYTES
}
