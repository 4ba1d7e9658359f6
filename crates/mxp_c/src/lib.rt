// The stage's calls for programs in C and Rust, by `rt lib`: those of `mxp`, with its clauses, each exported under its name.
// A slice is a pointer and a length. The numbers of an answer are written to an array that the caller lends, by the layouts of `out`.
#![tactic(auto)]

ghost use Rattle.std.specs.Prelude.{◌≡◌, length};
ghost use Rattle.filler.specs.Fill.{outcome, buffer_after};
ghost use Rattle.mxp.specs.Out.{check_out, fill_out, rows_out, claim_out, last_out, open_out, step_out};

// Checks a trace. Its answer: refused, line, 0, accepted, instructions, oob, empty, row, constraint.
#[unsafe(no_mangle)]
pub extern "C" fn mxp_check(trace: &[u8], out: &mut [u64; 9])
    ensures { out.new ≡ check_out trace.now }
{
    mxp::mxp_check(trace, out);
}

// Fills a buffer with the trace of a list after so many empty rows. Its answer: refused, line, 0, rows. The bytes behind the rows stay, and on a refusal
// all of them.
#[unsafe(no_mangle)]
pub extern "C" fn mxp_fill(list: &[u8], empty: u64, buffer: &mut [u8], out: &mut [u64; 4])
    ensures out_after { out.new ≡ fill_out list.now empty (length buffer.old) }
    ensures buffer_after { buffer.new ≡ buffer_after (outcome list.now empty (length buffer.old)) buffer.old }
{
    mxp::mxp_fill(list, empty, buffer, out);
}

// Where the rows of instruction k stand in a trace. Its answer: refused, line, 0, first byte of the part, its length in bytes.
#[unsafe(no_mangle)]
pub extern "C" fn mxp_rows(trace: &[u8], k: u64, out: &mut [u64; 5])
    ensures { out.new ≡ rows_out trace.now k }
{
    mxp::mxp_rows(trace, k, out);
}

// The claim of instruction k of a trace. Its answer: refused, line, 0, cn, then end 1 and end 2 by their first byte and two halves.
#[unsafe(no_mangle)]
pub extern "C" fn mxp_claim(trace: &[u8], k: u64, out: &mut [u64; 10])
    ensures { out.new ≡ claim_out trace.now k }
{
    mxp::mxp_claim(trace, k, out);
}

// The last state of a context in a trace, with a look at no more than `limit` cycles. Its answer: refused, line, 0, mem, cost, looked.
#[unsafe(no_mangle)]
pub extern "C" fn mxp_last_state(trace: &[u8], cn: u32, limit: u64, out: &mut [u64; 6])
    ensures { out.new ≡ last_out trace.now (record { cn = cn }) limit }
{
    mxp::mxp_last_state(trace, cn, limit, out);
}

// Opens a walk over a trace. Its answer: refused, line, 0, next row.
#[unsafe(no_mangle)]
pub extern "C" fn mxp_open(trace: &[u8], out: &mut [u64; 4])
    ensures { out.new ≡ open_out trace.now }
{
    mxp::mxp_open(trace, out);
}

// One step of a walk over any bytes, from any row. Its answer: first byte of the part, its length in bytes, next row; 0, 0 and the same row where the part
// is empty.
#[unsafe(no_mangle)]
pub extern "C" fn mxp_step(trace: &[u8], next: usize, out: &mut [u64; 3])
    ensures { out.new ≡ step_out trace.now next }
{
    mxp::mxp_step(trace, next, out);
}
