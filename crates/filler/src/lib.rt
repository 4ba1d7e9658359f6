// The filler: from the text of a list to its trace in a lent buffer.
#![tactic(auto)]

ghost use Rattle.std.specs.Prelude.{◌≡◌, ◌≤◌, ◌<◌, length};
ghost use Rattle.model.specs.Trace.{trace};
ghost use Rattle.lines.specs.Lines.{max_list, Lists, list_claims, rows_of_claims};
ghost use Rattle.filler.specs.Answer.{told};
ghost use Rattle.filler.specs.Fill.{outcome, placed, buffer_after};

use lines::{count_rows, put_cycles, put_empty};
use model::{MAX_ROWS, ROW_BYTES};
use refusal::Refusal;

// The most bytes of a list.
const MAX_LIST: usize = 4194304;

// Writes the trace of a list whose cycles have so many rows, after the empty rows, where it may have them and there is room.
fn fill_rows(list: &[u8], rows: usize, empty: u64, buf: &mut [u8]) -> Result<u64, Refusal>
    requires list_len_bound { length list.now ≤ max_list }
    requires lists { Lists list.now }
    requires rows_value { rows ≡ rows_of_claims (list_claims list.now) }
    requires empty_nonzero { 0 < empty }
    ensures value { result ≡ told (placed (length buf.old) (trace empty (list_claims list.now))) }
    ensures buf_after { buf.new ≡ buffer_after (placed (length buf.old) (trace empty (list_claims list.now))) buf.old }
{
    let rows_left = MAX_ROWS.saturating_sub(rows) as u64;
    if rows_left < empty {
        return Err(Refusal::FillTooLong);
    }
    let first = empty as usize;
    let all = first + rows;
    if buf.len() < all * ROW_BYTES {
        return Err(Refusal::BufferShort);
    }
    put_empty(buf, first);
    put_cycles(list, buf, first);
    Ok(all as u64)
}

// Writes the trace of the list after so many empty rows to the start of buf, and answers how many rows these are. The later bytes of buf stay, and on a
// refusal all of them: the list is read once before anything is written. Document 01's numbers for each answer are `numbers` of specs/Answer.antt.
pub fn fill(list: &[u8], empty: u64, buf: &mut [u8]) -> Result<u64, Refusal>
    ensures value { result ≡ told (outcome list.now empty (length buf.old)) }
    ensures buf_after { buf.new ≡ buffer_after (outcome list.now empty (length buf.old)) buf.old }
{
    if MAX_LIST < list.len() {
        return Err(Refusal::ListTooLong);
    }
    if empty == 0 {
        return Err(Refusal::NoEmptyRow);
    }
    let rows = count_rows(list)?;
    fill_rows(list, rows, empty, buf)
}
