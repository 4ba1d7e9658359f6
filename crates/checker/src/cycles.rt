// Cycle after cycle: a cycle that stands as the filler writes it meets all constraints.
ghost use Rattle.std.specs.Prelude.{◌≡◌, ◌≤◌, ◌<◌, length};
ghost use Rattle.model.specs.Columns.{row_at};
ghost use Rattle.model.specs.State.{Sound};
ghost use Rattle.model.specs.Trace.{with_cycle};
ghost use Rattle.model.specs.Verdict.{max_rows};
ghost use Rattle.state.specs.Plain.{context};
ghost use Rattle.claim.specs.Told.{plain_claim};
ghost use Rattle.count.specs.Counts.{plain_counts};
ghost use Rattle.recent.specs.Notes.{noted_in, recalled};
ghost use Rattle.checker.specs.Rows.{judgement};
ghost use Rattle.checker.specs.Steps.{leading_empty, cycle_next};

use crate::Verdict;
use crate::judge::verdict_from;
use crate::rows::Rows;
use claim::claim::{Claim, claim_in};
use compare::is_empty;
use count::Counts;
use cycle::{Cycle, rows_of};
use model::OUT_ROWS;
use recent::Recent;

// How many rows stand first and are empty.
fn empty_rows(rows: Rows) -> usize
    ensures { result ≡ leading_empty (row_at rows.entry.bytes.now) rows.entry.count }
{
    for i in 0..rows.count {
        if !is_empty(&rows.row(i)) {
            return i;
        }
    }
    rows.count
}

// Whether the rows from row i on are the cycle of the claim, behind so many cycles and at the state of its context.
fn cycle_stands(rows: Rows, recent: &Recent, i: usize, cycles: usize, c: Claim) -> bool
    requires i_within { i ≤ rows.count }
    requires cycles_lt_max_rows { cycles < max_rows }
    requires noted_in { noted_in (length rows.bytes.now) recent.now.notes }
    requires sound { Sound (recalled (row_at rows.bytes.now) recent.now.notes recent.now.span (context c.context)) }
    ensures { result ≡ cycle_next (row_at rows.entry.bytes.now) rows.entry.count recent.now i cycles (plain_claim c) }
{
    if c.context.cn == 0 {
        return false;
    }
    if rows.count - i < rows_of(c) {
        return false;
    }
    let cycle = Cycle {
        stamp: cycles as u32 + 1,
        before: recent.recall(rows.bytes, c.context),
        claim: c,
    };
    cycle.stands(rows.bytes, i)
}

// The counts with the cycle of one claim more.
fn with_cycle(c: Counts, claim: Claim) -> Counts
    requires instructions_lt_max_rows { c.instructions < max_rows }
    requires oob_lt_max_rows { c.oob < max_rows }
    ensures { plain_counts result ≡ with_cycle (plain_counts c) (plain_claim claim) }
{
    Counts {
        instructions: c.instructions + 1,
        oob: c.oob + u64::from(rows_of(claim) == OUT_ROWS),
        empty: c.empty,
    }
}

// The verdict on all rows: cycle after cycle as the filler writes them, and where one does not stand so, row after row from there on.
pub(crate) fn verdict_on(rows: Rows) -> Verdict
    ensures { result ≡ judgement (row_at rows.entry.bytes.now) rows.entry.count }
{
    let mut recent = Recent::new();
    let empty = empty_rows(rows);
    let mut c = Counts {
        instructions: 0,
        oob: 0,
        empty: empty as u64,
    };
    let mut i = empty;
    if empty == 0 {
        return verdict_from(rows, 0, c);
    }
    // Each turn moves past a whole cycle, of 3 rows or of 17: no iterator of std has such a step.
    while i < rows.count {
        let claim = claim_in(&rows.row(i));
        let end = i + rows_of(claim);
        if !cycle_stands(rows, &recent, i, c.instructions as usize, claim) {
            return verdict_from(rows, i, c);
        }
        c = with_cycle(c, claim);
        recent.note(claim.context, end - 1);
        i = end;
    }
    Verdict::Accepted(c)
}
