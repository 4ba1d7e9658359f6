// The counts of a trace, row by row: of its instructions, of those out of bounds and of its empty rows. The checker and `account` count by these
// functions; an operator calls none of them.
#![tactic(auto)]

ghost use Rattle.std.specs.Prelude.{◌≡◌, ◌<◌};
ghost use Rattle.model.specs.Cycles.{starts};
ghost use Rattle.model.specs.Verdict.{max_rows};
ghost use Rattle.row.specs.Plain.{plain};
ghost use Rattle.count.specs.Counts.{counted, plain_counts};

use row::cells::Row;

// How many instructions a trace has, how many of them are out of bounds, and how many empty rows.
#[derive(Clone, Copy, Debug, Default, PartialEq, Eq)]
pub struct Counts {
    pub instructions: u64,
    pub oob: u64,
    pub empty: u64,
}

// Whether a cycle starts with the row.
pub fn starts_cycle(x: Row) -> bool
    ensures { result ≡ starts (plain x) }
{
    (x.head.stamp != 0) & (x.head.ct == 0)
}

// One more row counted.
pub fn count_row(c: Counts, x: Row) -> Counts
    requires instructions_lt_max_rows { c.instructions < max_rows }
    requires oob_lt_max_rows { c.oob < max_rows }
    requires empty_lt_max_rows { c.empty < max_rows }
    ensures { plain_counts result ≡ counted (plain_counts c) (plain x) }
{
    let starts = starts_cycle(x);
    Counts {
        instructions: c.instructions + u64::from(starts),
        oob: c.oob + u64::from(starts & (x.head.ooob == 1)),
        empty: c.empty + u64::from(x.head.stamp == 0),
    }
}
