// A list read line by line, and its trace written to a lent buffer: the empty rows, and the cycles. A list is read once to count the rows of its cycles and
// once more to write them. That it is short enough is asked where a reading begins, and so by both. Only crates of this repository call these functions.
#![tactic(auto)]

ghost use Rattle.std.specs.Prelude.{◌≡◌, suc, ◌+◌, ◌*◌, ◌≤◌, length, replicate};
ghost use Rattle.std.proofs.lemmas.List.Edits.{sets};
ghost use Rattle.model.specs.Columns.{empty_row, row_bytes, row_at, bytes_of};
ghost use Rattle.model.specs.Trace.{last_of, cycle_of};
ghost use Rattle.state.specs.Plain.{context};
ghost use Rattle.recent.specs.Notes.{noted, recalled};
ghost use Rattle.claim.specs.Told.{plain_claim};
ghost use Rattle.list.specs.List.{read_list};
ghost use Rattle.lines.specs.Lines.{max_list, list_claims, Writable, NextWritable, cycles_written, told_measured};

use claim::claim::Claim;
use cycle::{Cycle, rows_of};
use model::ROW_BYTES;
use reading::Claims;
use recent::Recent;
use refusal::Refusal;

mod reading;

// Writes so many empty rows, from the first on.
pub fn put_empty(buf: &mut [u8], rows: usize)
    requires { rows * row_bytes ≤ length buf.old }
    ensures { buf.new ≡ sets buf.old 0 (bytes_of (replicate rows empty_row)) }
{
    buf[..rows * ROW_BYTES].fill(0);
}

// How many rows the cycles of the list have, or the refusal of its first line that is refused.
pub fn count_rows(list: &[u8]) -> Result<usize, Refusal>
    requires { length list.now ≤ max_list }
    ensures { result ≡ told_measured (read_list 1 list.now) }
{
    let mut claims = Claims::of(list);
    let mut rows: usize = 0;
    while let Some(claim) = claims.next()? {
        rows += rows_of(claim);
    }
    Ok(rows)
}

// Writes the cycle of one claim more from this row on, behind so many cycles, and notes its last row: its context has the state that is recalled by what is
// known of the rows before.
fn put_claim(buf: &mut [u8], recent: &mut Recent, row: usize, cycles: u32, claim: Claim)
    requires { NextWritable buf.old recent.old row cycles (plain_claim claim) }
    ensures buf_after { buf.new ≡ sets buf.old (row * row_bytes)
        (bytes_of (cycle_of (suc cycles) (recalled (row_at buf.old) recent.old.notes recent.old.span (context claim.context)) (plain_claim claim))) }
    ensures recent_after { recent.new ≡ noted recent.old (context claim.context) (row + last_of (plain_claim claim)) }
{
    let before = recent.recall(buf, claim.context);
    let cycle = Cycle {
        stamp: cycles + 1,
        before,
        claim,
    };
    cycle.put(buf, row);
    recent.note(claim.context, row + cycle.rows() - 1);
}

// Writes the cycles of the list from row `first` on, behind empty rows. No line of the list is refused, so that the reading ends with its last line.
pub fn put_cycles(list: &[u8], buf: &mut [u8], first: usize)
    requires list_len_bound { length list.now ≤ max_list }
    requires writable { Writable list.now buf.old first }
    ensures { buf.new ≡ cycles_written first (list_claims list.now) buf.old }
{
    let mut claims = Claims::of(list);
    let mut recent = Recent::new();
    let mut cycles: u32 = 0;
    let mut row = first;
    while let Ok(Some(claim)) = claims.next() {
        put_claim(buf, &mut recent, row, cycles, claim);
        cycles += 1;
        row += rows_of(claim);
    }
}
