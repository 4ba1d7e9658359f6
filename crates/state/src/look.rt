// The look-up of a context's state before a row of a trace: back cycle by cycle, over any bytes. Only crates of this repository call these
// functions: each asks that the rows before are there.
ghost use Rattle.std.specs.Prelude.{◌≡◌, ◌*◌, ◌≤◌, length};
ghost use Rattle.model.specs.Cycles.{cycle_rows};
ghost use Rattle.model.specs.Columns.{row_bytes, row_at};
ghost use Rattle.state.specs.Look.{search_back, found_in, state_found, look_back};
ghost use Rattle.state.specs.Plain.{context, state, looked};

use crate::{Context, State};
use model::{IN_ROWS, OUT_ROWS};
use row::view::RowBytes;

// The row that a search found, if any, and how many cycles it looked at.
#[derive(Clone, Copy)]
pub struct Search {
    pub found: Option<usize>,
    pub count: usize,
}

// A state, and how many cycles were looked at for it.
#[derive(Clone, Copy)]
pub struct Looked {
    pub state: State,
    pub cycles: usize,
}

// How many rows the cycle of a row has.
#[tactic(auto, unfolding(model::specs::Constraints::last_ct))]
pub fn cycle_rows(row: &RowBytes) -> usize
    ensures { result ≡ cycle_rows row.now }
{
    if row.ooob() == 1 { OUT_ROWS } else { IN_ROWS }
}

// The last row of the latest cycle with the context before this row. The search goes back cycle by cycle, over at most so many, and counts
// them; it ends where no whole cycle is left. Document 01 gives the loop its form: backward, with the found place or none by `break`.
pub fn search_back(t: &[u8], row: usize, limit: usize, x: Context) -> Search
    requires { row * row_bytes ≤ length t.now }
    ensures { result ≡ search_back (row_at t.now) (context x) limit row }
{
    let mut to = row;
    let mut count: usize = 0;
    let found: Option<usize> = loop {
        if count == limit || to == 0 {
            break None;
        }
        let last = to - 1;
        let end = RowBytes::of_row(t, last);
        let rows = cycle_rows(&end);
        if to < rows {
            break None;
        }
        count += 1;
        if x.is_of(&end) {
            break Some(last);
        }
        to -= rows;
    };
    Search { found, count }
}

// The state that the found row leaves; if there is none, that of a context without an earlier instruction.
pub fn state_found(t: &[u8], found: Option<usize>) -> State
    requires { found_in (length t.now) found }
    ensures { state result ≡ state_found (row_at t.now) found }
{
    match found {
        Some(i) => State::of_row(&RowBytes::of_row(t, i)),
        None => State::default(),
    }
}

// The state of the context before this row, with a look at no more than so many cycles.
pub fn state_before(t: &[u8], row: usize, limit: usize, x: Context) -> Looked
    requires { row * row_bytes ≤ length t.now }
    ensures { looked result ≡ look_back (row_at t.now) (context x) limit row }
{
    let s = search_back(t, row, limit, x);
    Looked {
        state: state_found(t, s.found),
        cycles: s.count,
    }
}
