// One cycle, written to a lent buffer or compared with a trace: the rows of a claim at a stamp and at the state of its context. Only crates of this repository
// call these functions.
#![tactic(auto)]

ghost use Rattle.std.specs.Prelude.{false, ◌≡◌, suc, ◌+◌, ◌*◌, ◌≤◌, length};
ghost use Rattle.std.proofs.lemmas.List.Edits.{sets};
ghost use Rattle.model.specs.Columns.{row_bytes, row_at, bytes_of};
ghost use Rattle.model.specs.State.{Sound};
ghost use Rattle.model.specs.Trace.{in_bounds, last_of, cycle_of};
ghost use Rattle.compare.specs.Same.{cycle_stands};
ghost use Rattle.state.specs.Plain.{state};
ghost use Rattle.claim.specs.Told.{plain_claim};

mod digits;
mod within;

use beyond::Beyond;
use beyond::rows::{put_rows, rows_are};
use claim::claim::Claim;
use model::{IN_ROWS, OUT_ROWS};
use number::wide::in_bounds;
use state::State;
use within::{Made, ROWS};

// Whether both ends of the claim are in bounds.
fn is_within(c: Claim) -> bool
    ensures { result ≡ in_bounds (plain_claim c) }
{
    in_bounds(c.end1) & in_bounds(c.end2)
}

// How many rows the cycle of the claim has.
pub fn rows_of(c: Claim) -> usize
    ensures { result ≡ suc (last_of (plain_claim c)) }
{
    if is_within(c) { IN_ROWS } else { OUT_ROWS }
}

// A cycle: its stamp, the state that its context had before it, and its claim.
#[derive(Clone, Copy)]
pub struct Cycle {
    pub stamp: u32,
    pub before: State,
    pub claim: Claim,
    pub ghost sound: { Sound (state before) },
}

impl Cycle {
    // How many rows it has.
    pub fn rows(self) -> usize
        ensures { result ≡ suc (last_of (plain_claim self.claim)) }
    {
        rows_of(self.claim)
    }

    // The same, known to be out of bounds.
    fn beyond(self) -> Beyond
        requires { in_bounds (plain_claim self.claim) ≡ false }
        ensures stamp { result.stamp ≡ self.stamp }
        ensures before { result.before ≡ self.before }
        ensures claim { result.claim ≡ self.claim }
    {
        Beyond {
            stamp: self.stamp,
            before: self.before,
            claim: self.claim,
        }
    }

    // Writes it from this row on. The bytes outside of it stay.
    pub fn put(self, buf: &mut [u8], row: usize)
        requires { (row + suc (last_of (plain_claim self.claim))) * row_bytes ≤ length buf.old }
        ensures { buf.new ≡ sets buf.old (row * row_bytes) (bytes_of (cycle_of self.stamp (state self.before) (plain_claim self.claim))) }
    {
        if is_within(self.claim) {
            put_rows(buf, row, ROWS, Made::of(self));
        } else {
            self.beyond().put(buf, row);
        }
    }

    // Whether it stands in a trace from this row on.
    pub fn stands(self, t: &[u8], row: usize) -> bool
        requires { (row + suc (last_of (plain_claim self.claim))) * row_bytes ≤ length t.now }
        ensures { result ≡ cycle_stands (row_at t.now) row self.stamp (state self.before) (plain_claim self.claim) }
    {
        if is_within(self.claim) {
            rows_are(t, row, ROWS, Made::of(self))
        } else {
            self.beyond().stands(t, row)
        }
    }
}
