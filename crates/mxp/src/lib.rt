// The stage's calls, over numbers and byte slices alone, an answer for every input. Each has a name and an array of its own, as the C interface has it. `mxp_c` exports them to programs in C and Rust.
// The numbers of an answer are written to an array that the caller lends, by the layouts of `out`.
#![tactic(auto)]

ghost use Rattle.std.specs.Prelude.{◌≡◌, length};
ghost use Rattle.filler.specs.Fill.{outcome, buffer_after};
ghost use Rattle.mxp.specs.Out.{check_out, fill_out, rows_out, claim_out, last_out, open_out, step_out};

use last::last_state;
use out::{put_claimed, put_filled, put_last, put_place, put_start, put_step, put_verdict};
use part::next_at;
use state::Context;
use trace::place::{claim_at, place_of};
use walker::start_of;

// Checks a trace. Its answer: refused, line, 0, accepted, instructions, oob, empty, row, constraint.
pub fn mxp_check(trace: &[u8], out: &mut [u64; 9])
    ensures { out.new ≡ check_out trace.now }
{
    let verdict = checker::check(trace);
    put_verdict(verdict, out);
}

// Fills a buffer with the trace of a list after so many empty rows. Its answer: refused, line, 0, rows. The bytes behind the rows stay, and on a refusal
// all of them.
pub fn mxp_fill(list: &[u8], empty: u64, buffer: &mut [u8], out: &mut [u64; 4])
    ensures out_after { out.new ≡ fill_out list.now empty (length buffer.old) }
    ensures buffer_after { buffer.new ≡ buffer_after (outcome list.now empty (length buffer.old)) buffer.old }
{
    let filled = filler::fill(list, empty, buffer);
    put_filled(filled, out);
}

// Where the rows of instruction k stand in a trace. Its answer: refused, line, 0, first byte of the part, its length in bytes.
pub fn mxp_rows(trace: &[u8], k: u64, out: &mut [u64; 5])
    ensures { out.new ≡ rows_out trace.now k }
{
    let place = place_of(trace, k);
    put_place(place, out);
}

// The claim of instruction k of a trace. Its answer: refused, line, 0, cn, then end 1 and end 2 by their first byte and two halves.
pub fn mxp_claim(trace: &[u8], k: u64, out: &mut [u64; 10])
    ensures { out.new ≡ claim_out trace.now k }
{
    let claimed = claim_at(trace, k);
    put_claimed(claimed, out);
}

// The last state of a context in a trace, with a look at no more than `limit` cycles. Its answer: refused, line, 0, mem, cost, looked.
pub fn mxp_last_state(trace: &[u8], cn: u32, limit: u64, out: &mut [u64; 6])
    ensures { out.new ≡ last_out trace.now (record { cn = cn }) limit }
{
    let last = last_state(trace, Context { cn }, limit);
    put_last(last, out);
}

// Opens a walk over a trace. Its answer: refused, line, 0, next row.
pub fn mxp_open(trace: &[u8], out: &mut [u64; 4])
    ensures { out.new ≡ open_out trace.now }
{
    let start = start_of(trace);
    put_start(start, out);
}

// One step of a walk over any bytes, from any row. Its answer: first byte of the part, its length in bytes, next row; 0, 0 and the same row where the part
// is empty.
pub fn mxp_step(trace: &[u8], next: usize, out: &mut [u64; 3])
    ensures { out.new ≡ step_out trace.now next }
{
    let after = next_at(trace, next);
    put_step(next, after, out);
}
