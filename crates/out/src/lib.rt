// The layout of each answer in the array of numbers that a caller of the exported calls lends. Whatever stood in the array is overwritten; what
// document 01 leaves open is 0.
#![tactic(auto)]

ghost use Rattle.std.specs.Prelude.{◌≡◌, ◌+◌, ◌^◌, ◌≤◌, ◌<◌};
ghost use Rattle.checker.specs.Answer as checker;
ghost use Rattle.filler.specs.Answer as filler;
ghost use Rattle.trace.specs.Told.{part_numbers, claim_numbers};
ghost use Rattle.last.specs.Last.{last_numbers};
ghost use Rattle.walker.specs.Walk.{start_numbers};
ghost use Rattle.out.specs.Out.{check_list, fill_list, rows_list, claim_list, last_list, open_list, step_list, step_between};

use checker::Verdict;
use claim::claim::Claim;
use model::ROW_BYTES;
use refusal::Refusal;
use state::look::Looked;
use trace::place::Place;

// A verdict: refused, line, 0, accepted, instructions, oob, empty, row, constraint.
pub fn put_verdict(verdict: Verdict, out: &mut [u64; 9])
    ensures { out.new ≡ check_list (checker.numbers verdict) }
{
    match verdict {
        Verdict::Accepted(c) => *out = [0, 0, 0, 1, c.instructions, c.oob, c.empty, 0, 0],
        Verdict::Broken { row, constraint } => *out = [0, 0, 0, 0, 0, 0, 0, row, constraint],
        Verdict::Refused(r) => *out = [r.number(), r.line(), 0, 0, 0, 0, 0, 0, 0],
    }
}

// What the filler has done: refused, line, 0, rows.
pub fn put_filled(filled: Result<u64, Refusal>, out: &mut [u64; 4])
    ensures { out.new ≡ fill_list (filler.numbers filled) }
{
    match filled {
        Ok(n) => *out = [0, 0, 0, n],
        Err(r) => *out = [r.number(), r.line(), 0, 0],
    }
}

// Where an instruction stands: refused, line, 0, first byte of the part, its length in bytes. Only crates of this repository call this function: it
// asks that the part ends where a number of 64 bits can say.
pub fn put_place(place: Result<Place, Refusal>, out: &mut [u64; 5])
    requires { (part_numbers place).from + (part_numbers place).bytes < 2 ^ 64 }
    ensures { out.new ≡ rows_list (part_numbers place) }
{
    match place {
        Ok(Place { first, rows }) => *out = [
            0,
            0,
            0,
            (first * ROW_BYTES) as u64,
            (rows * ROW_BYTES) as u64,
        ],
        Err(r) => *out = [r.number(), r.line(), 0, 0, 0],
    }
}

// A claim: refused, line, 0, cn, then end 1 and end 2 by their first byte and two halves.
pub fn put_claimed(claimed: Result<Claim, Refusal>, out: &mut [u64; 10])
    ensures { out.new ≡ claim_list (claim_numbers claimed) }
{
    match claimed {
        Ok(c) => {
            *out = [
                0,
                0,
                0,
                c.context.cn as u64,
                c.end1.top as u64,
                c.end1.hi,
                c.end1.lo,
                c.end2.top as u64,
                c.end2.hi,
                c.end2.lo,
            ]
        }
        Err(r) => *out = [r.number(), r.line(), 0, 0, 0, 0, 0, 0, 0, 0],
    }
}

// The last state of a context: refused, line, 0, mem, cost, looked.
pub fn put_last(last: Result<Looked, Refusal>, out: &mut [u64; 6])
    ensures { out.new ≡ last_list (last_numbers last) }
{
    match last {
        Ok(a) => *out = [
            0,
            0,
            0,
            a.state.mem.0 as u64,
            a.state.cost.0,
            a.cycles as u64,
        ],
        Err(r) => *out = [r.number(), r.line(), 0, 0, 0, 0],
    }
}

// Where a walker starts: refused, line, 0, next row.
pub fn put_start(start: Result<usize, Refusal>, out: &mut [u64; 4])
    ensures { out.new ≡ open_list (start_numbers start) }
{
    match start {
        Ok(next) => *out = [0, 0, 0, next as u64],
        Err(why) => *out = [why.number(), why.line(), 0, 0],
    }
}

// A step from row `next` to row `after`: first byte of the part, its length in bytes, next row; 0, 0 and the same row where it stays. Only crates of
// this repository call this function: it asks that the step does not go back, and that its part ends where a number of 64 bits can say.
pub fn put_step(next: usize, after: usize, out: &mut [u64; 3])
    requires next_le_after { next ≤ after }
    requires after_bound { (step_between next after).from + (step_between next after).bytes < 2 ^ 64 }
    ensures { out.new ≡ step_list (step_between next after) }
{
    if after == next {
        *out = [0, 0, next as u64];
    } else {
        *out = [
            (next * ROW_BYTES) as u64,
            ((after - next) * ROW_BYTES) as u64,
            after as u64,
        ];
    }
}
