// Row after row: the first broken constraint of each.
ghost use Rattle.std.specs.Prelude.{◌≡◌, ◌<◌, ◌≤◌};
ghost use Rattle.model.specs.Columns.{row_at, table};
ghost use Rattle.model.specs.Cycles.{counts as Cycles·counts};
ghost use Rattle.model.specs.Verdict.{row_before, broken_at, judged, meet};
ghost use Rattle.count.specs.Counts.{plain_counts};
ghost use Rattle.row.specs.Plain.{plain};
ghost use Rattle.rules.specs.First.{named};
ghost use Rattle.checker.specs.Rows.{asked, first_at, judgement};

use crate::Verdict;
use crate::rows::Rows;
use count::{Counts, count_row, starts_cycle};
use row::cells::Row;
use rules::beyond::rule25;
use rules::cycle::rule9;
use rules::first::first_broken;
use rules::window::Window;
use state::Context;
use state::look::state_before;

// The answer to constraint 9 for row i: it is asked where a cycle starts. There are so many cycles before it.
fn keeps_state(rows: Rows, i: usize, cycles: usize) -> bool
    requires { i < rows.count }
    ensures { result ≡ asked (row_at rows.entry.bytes.now) cycles i }
{
    let bytes = rows.row(i);
    let x = bytes.read();
    if starts_cycle(x) {
        let own = Context::of_row(&bytes);
        let looked = state_before(rows.bytes, i, cycles, own);
        rule9(looked.state, x)
    } else {
        true
    }
}

// The row before row i; before the first stands a row of zeros.
fn row_before(rows: Rows, i: usize) -> Row
    requires { i ≤ rows.count }
    ensures { plain result ≡ row_before (row_at rows.entry.bytes.now) i }
{
    if i == 0 {
        Row::default()
    } else {
        rows.row(i - 1).read()
    }
}

// The first broken constraint of row i by its number, none if it meets all. The row before has the number of the cycles before row i as its STAMP.
fn named_constraint(rows: Rows, i: usize) -> Option<u64>
    requires { i < rows.count }
    ensures { let r = row_at rows.entry.bytes.now in result ≡ named (first_at r rows.entry.count (row_before r i).stamp i) }
{
    let window = Window {
        two_before: row_before(rows, i.saturating_sub(1)),
        before: row_before(rows, i),
        row: rows.row(i).read(),
        first: i == 0,
        last: i + 1 == rows.count,
    };
    let nine = keeps_state(rows, i, window.before.head.stamp as usize);
    first_broken(window, nine, rule25(window.row))
}

// The verdict on all rows, of which those before row `from` meet all constraints and are counted: row after row.
pub(crate) fn verdict_from(rows: Rows, from: usize, counted: Counts) -> Verdict
    requires from_within { from ≤ rows.count }
    requires meets { judged (broken_at (row_at rows.bytes.now) rows.count) from ≡ meet }
    requires counted_value { plain_counts counted ≡ Cycles·counts (table from (row_at rows.bytes.now)) }
    ensures { result ≡ judgement (row_at rows.entry.bytes.now) rows.entry.count }
{
    let mut c = counted;
    for i in from..rows.count {
        if let Some(constraint) = named_constraint(rows, i) {
            return Verdict::Broken {
                row: i as u64,
                constraint,
            };
        }
        c = count_row(c, rows.row(i).read());
    }
    Verdict::Accepted(c)
}
