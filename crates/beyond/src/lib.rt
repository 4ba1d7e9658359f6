// The cycle of an out-of-bounds claim: 17 rows, which carry the state on and spell how far an end is beyond the bound, written to a lent buffer or compared
// with a trace. Only crates of this repository call these functions.
#![tactic(auto)]

ghost use Rattle.std.specs.Prelude.{false, ◌≡◌, suc, ◌+◌, ◌*◌, ◌≤◌, length};
ghost use Rattle.std.proofs.lemmas.List.Edits.{sets};
ghost use Rattle.number.specs.Sums.{prefix_at, digit_at};
ghost use Rattle.number.specs.Whole.{val};
ghost use Rattle.model.specs.Columns.{row_bytes, row_at, bytes_of};
ghost use Rattle.model.specs.Constraints.{out_last};
ghost use Rattle.model.specs.State.{Sound};
ghost use Rattle.model.specs.Trace.{in_bounds, beyond_by, out_row, cycle_of};
ghost use Rattle.row.specs.Plain.{plain};
ghost use Rattle.compare.specs.Same.{cycle_stands};
ghost use Rattle.state.specs.Plain.{state};
ghost use Rattle.claim.specs.Told.{plain_claim};
ghost use Rattle.beyond.specs.Shifted.{Shifted};

pub mod rows;

use claim::claim::Claim;
use model::OUT_LAST;
use number::wide::{Wide, in_bounds, minus_bound, push};
use row::cells::{Body, Head, Row, Tail};
use rows::{Rows, put_rows, rows_are};
use state::State;

// How many rows the cycle has.
const ROWS: u8 = OUT_LAST + 1;

// An out-of-bounds cycle: its stamp, the state that its context had before it, and its claim.
#[derive(Clone, Copy)]
pub struct Beyond {
    pub stamp: u32,
    pub before: State,
    pub claim: Claim,
    pub ghost sound: { Sound (state before) },
    pub ghost out: { in_bounds (plain_claim claim) ≡ false },
}

impl Beyond {
    // How far the first end that is out of bounds is beyond the bound.
    fn distance(self) -> Wide
        ensures { val result ≡ beyond_by (plain_claim self.claim) }
    {
        let c = self.claim;
        if in_bounds(c.end1) {
            minus_bound(c.end2)
        } else {
            minus_bound(c.end1)
        }
    }

    // Row i, whose BYTE1 and ACC1 are these.
    #[tactic(auto, unfolding(model::specs::Trace::out_row))]
    fn row(self, i: u8, byte: u8, acc: Wide) -> Row
        requires byte_value { byte ≡ digit_at out_last (beyond_by (plain_claim self.claim)) i }
        requires acc_value { val acc ≡ prefix_at out_last (beyond_by (plain_claim self.claim)) i }
        ensures { plain result ≡ out_row self.stamp (state self.before) (plain_claim self.claim) i }
    {
        let end1 = self.claim.end1;
        let end2 = self.claim.end2;
        let mem = self.before.mem.0;
        let cost = self.before.cost.0 as u32;
        Row {
            head: Head {
                stamp: self.stamp,
                cn: self.claim.context.cn,
                ooob: 1,
                ct: i,
                end1,
                end2,
                byte1: byte,
                acc1: acc,
                ..Head::default()
            },
            body: Body {
                mem,
                memn: mem,
                cost,
                costn: cost,
                ..Body::default()
            },
            tail: Tail::default(),
        }
    }

    // Its rows, none of them made.
    fn rows(self) -> OutRows
        ensures cycle { result.cycle ≡ self }
        ensures first { Shifted out_last (beyond_by (plain_claim self.claim)) 0 (val result.acc) (val result.rest) }
    {
        OutRows {
            cycle: self,
            rest: self.distance(),
            acc: Wide::default(),
        }
    }

    // Writes the cycle from this row on.
    pub fn put(self, buf: &mut [u8], row: usize)
        requires { (row + suc out_last) * row_bytes ≤ length buf.old }
        ensures { buf.new ≡ sets buf.old (row * row_bytes) (bytes_of (cycle_of self.stamp (state self.before) (plain_claim self.claim))) }
    {
        put_rows(buf, row, ROWS, self.rows());
    }

    // Whether the cycle stands in a trace from this row on.
    pub fn stands(self, t: &[u8], row: usize) -> bool
        requires { (row + suc out_last) * row_bytes ≤ length t.now }
        ensures { result ≡ cycle_stands (row_at t.now) row self.stamp (state self.before) (plain_claim self.claim) }
    {
        rows_are(t, row, ROWS, self.rows())
    }
}

// The rows of an out-of-bounds cycle: the bytes of its distance go off the front of `rest`, one a row, and sum up in `acc`.
#[derive(Clone, Copy)]
struct OutRows {
    cycle: Beyond,
    rest: Wide,
    acc: Wide,
}

impl Rows for OutRows {
    ghost cells = { λ x. out_row x.cycle.stamp (state x.cycle.before) (plain_claim x.cycle.claim) };

    ghost count = { suc out_last };

    ghost at = { λ x i. Shifted out_last (beyond_by (plain_claim x.cycle.claim)) i (val x.acc) (val x.rest) };

    fn make(&mut self, i: u8) -> Row {
        let byte = self.rest.top;
        self.rest = push(self.rest, 0);
        self.acc = push(self.acc, byte);
        self.cycle.row(i, byte, self.acc)
    }
}
