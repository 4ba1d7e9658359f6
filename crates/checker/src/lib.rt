// The checker: reads a trace and says accepted, with its counts, or names the first broken constraint.
#![tactic(auto)]

ghost use Rattle.std.specs.Prelude.{◌≡◌, MatchResult};
ghost use Rattle.model.specs.Verdict.{verdict};
ghost use Rattle.checker.specs.Answer.{told};
ghost use Rattle.checker.specs.Rows.{RowsOf};

use count::Counts;
use model::{MAX_ROWS, ROW_BYTES};
use refusal::Refusal;
use rows::Rows;

mod cycles;
mod judge;
mod rows;

// What the checker answers, in three cases, since a constraint that is named is as good an answer as an accepted trace: document 01's numbers for each case are `numbers` of specs/Answer.antt.
#[derive(Clone, Copy)]
pub enum Verdict {
    // Every row meets every constraint.
    Accepted(Counts),
    // The lowest row that breaks a constraint, from 0, and the lowest constraint that it breaks.
    Broken { row: u64, constraint: u64 },
    // The bytes are no trace.
    Refused(Refusal),
}

// The rows of the bytes, or why they are no trace.
fn rows_in<'a>(t: &'a [u8]) -> Result<Rows<'a>, Refusal>
    ensures { MatchResult result (λ rows. RowsOf t.now rows.bytes.now rows.count) (λ why. Verdict.Refused why ≡ told (verdict t.now)) }
{
    if (t.len() == 0) | (t.len() % ROW_BYTES != 0) {
        return Err(Refusal::BadLength);
    }
    let count = t.len() / ROW_BYTES;
    if MAX_ROWS < count {
        return Err(Refusal::TooManyRows);
    }
    Ok(Rows { bytes: t, count })
}

// The verdict on any bytes.
pub fn check(t: &[u8]) -> Verdict
    ensures { result ≡ told (verdict t.now) }
{
    match rows_in(t) {
        Ok(rows) => cycles::verdict_on(rows),
        Err(why) => Verdict::Refused(why),
    }
}
