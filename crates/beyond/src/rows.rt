// The rows of a cycle, made one after the other: written to a lent buffer or compared with a trace. Only crates of this repository call these functions.
ghost use Rattle.std.specs.Prelude.{ℕ, ◌≡◌, ◌+◌, ◌*◌, ◌≤◌, ◌<◌, length};
ghost use Rattle.std.proofs.lemmas.List.Edits.{sets};
ghost use Rattle.model.specs.Columns.{Cells, row_bytes, row_at, table, bytes_of};
ghost use Rattle.row.specs.Plain.{plain};
ghost use Rattle.compare.specs.Narrow.{Narrow};
ghost use Rattle.compare.specs.Same.{rows_stand};

use compare::{from_comp_is, up_to_gas_is};
use row::cells::Row;
use row::view::RowBytes;
use writer::put_row;

// What makes the rows of one cycle in their order.
pub trait Rows {
    // Row i of the cycle, how many rows a cycle of this kind has, and that row i is the next to be made.
    ghost cells: { Self → ℕ → Cells };

    ghost count: { ℕ };

    ghost at: { Self → ℕ → Type 0 };

    // Makes row i, which is the next. Its cells of three bytes fit them.
    fn make(&mut self, i: u8) -> Row
        requires i_lt_count { i < count }
        requires at { at self.old i }
        ensures row { plain result ≡ cells self.old i }
        ensures narrow { Narrow (plain result) }
        ensures same_cycle { cells self.new ≡ cells self.old }
        ensures next { at self.new (i + 1) };
}

// Writes the first n rows of a cycle from this row on.
pub fn put_rows<R: Rows + Copy>(buf: &mut [u8], row: usize, n: u8, mut rows: R)
    requires row_bytes_in_bounds { (row + n) * row_bytes ≤ length buf.old }
    requires n_le_count { n ≤ R.count }
    requires first { R.at rows 0 }
    ensures { buf.new ≡ sets buf.old (row * row_bytes) (bytes_of (table n (R.cells rows))) }
{
    for i in 0..n {
        put_row(buf, row + i as usize, rows.make(i));
    }
}

// Whether the first n rows of a cycle stand in a trace from this row on. What makes them goes on from row to row, so the loop is no `all`.
pub fn rows_are<R: Rows + Copy>(t: &[u8], row: usize, n: u8, mut rows: R) -> bool
    requires row_bytes_in_bounds { (row + n) * row_bytes ≤ length t.now }
    requires n_le_count { n ≤ R.count }
    requires first { R.at rows 0 }
    ensures { result ≡ rows_stand (row_at t.now) row (R.cells rows) n }
{
    for i in 0..n {
        let shown = RowBytes::of_row(t, row + i as usize);
        let own = rows.make(i);
        if !(up_to_gas_is(&shown, own) & from_comp_is(&shown, own)) {
            return false;
        }
    }
    true
}
