// Where cycles stand in the bytes of a trace, and a part of it by its rows. Nothing is checked here.
#![tactic(auto)]

ghost use Rattle.std.specs.Prelude.{◌≡◌, ◌&&◌, ◌+◌, ◌*◌, ◌≤◌, leb, length};
ghost use Rattle.model.specs.Columns.{row_bytes, rows_of};
ghost use Rattle.model.specs.Cycles.{part, next_row, step};
ghost use Rattle.model.specs.Promises.{Accepted, empty_in, claims_in};

use model::ROW_BYTES;
use row::view::RowBytes;
use state::look::cycle_rows;

// The row after so many instructions of an accepted trace with so many empty rows. Only crates of this repository call this function: it asks that the
// trace is accepted.
pub fn row_after(t: &[u8], empty: usize, passed: u64) -> usize
    requires accepted { Accepted t.now }
    requires empty_value { empty ≡ empty_in t.now }
    requires passed_in_bounds { passed ≤ length (claims_in t.now) }
    ensures { result ≡ next_row (rows_of t.now) passed }
{
    let mut row = empty;
    for _i in 0..passed {
        row += cycle_rows(&RowBytes::of_row(t, row));
    }
    row
}

// Whether there is an instruction k (from 1) among so many.
pub fn is_among(k: u64, instructions: u64) -> bool
    ensures { result ≡ (leb 1 k && leb k instructions) }
{
    (1..=instructions).contains(&k)
}

// So many rows of the trace from a row on, as a part of the trace itself. Only crates of this repository call this function: it asks that the rows
// are there.
pub fn rows_from<'a>(t: &'a [u8], first: usize, rows: usize) -> &'a [u8]
    requires { (first + rows) * row_bytes ≤ length t.now }
    ensures { result.now ≡ part t.now first rows }
{
    let from = first * ROW_BYTES;
    &t[from..from + rows * ROW_BYTES]
}

// How many rows a step from this row gives: those of its cycle, or none if so many whole rows don't remain: 0 is the
// count itself, which is added to the row.
fn rows_given(t: &[u8], next: usize) -> usize
    ensures { next + result ≡ (step t.now next).next }
{
    let whole = t.len() / ROW_BYTES;
    if whole <= next {
        return 0;
    }
    let rows = cycle_rows(&RowBytes::of_row(t, next));
    if whole - next < rows { 0 } else { rows }
}

// The part of the trace that a step from this row gives.
pub fn part_at<'a>(t: &'a [u8], next: usize) -> &'a [u8]
    ensures { result.now ≡ (step t.now next).part }
{
    let rows = rows_given(t, next);
    if rows == 0 {
        return &[];
    }
    rows_from(t, next, rows)
}

// The row where a step from this row goes.
pub fn next_at(t: &[u8], next: usize) -> usize
    ensures { result ≡ (step t.now next).next }
{
    next + rows_given(t, next)
}
