// A walker over a lent trace: it holds the trace and the next row, and each step gives one cycle.
#![tactic(auto)]

ghost use Rattle.std.specs.Prelude.{◌≡◌};
ghost use Rattle.walker.specs.Walk.{start_of, told_start, begun, opened, Steps, first_part};

use part::{next_at, part_at};
use refusal::Refusal;
use trace::admit::admit;

// The lent trace and the next row.
#[derive(Clone, Copy)]
pub struct Walker<'a> {
    pub trace: &'a [u8],
    pub next: usize,
}

// The row where a walker over these bytes starts. Document 01's numbers are `start_numbers` of specs/Walk.antt.
pub fn start_of(t: &[u8]) -> Result<usize, Refusal>
    ensures { result ≡ told_start (start_of t.now) }
{
    let counts = admit(t)?;
    Ok(counts.empty as usize)
}

// A walker over a lent trace. The trace is checked here, and by no step.
pub fn open_walker<'a>(t: &'a [u8]) -> Result<Walker<'a>, Refusal>
    ensures { opened result ≡ begun t.now }
{
    let next = start_of(t)?;
    Ok(Walker { trace: t, next })
}

// The next cycle's rows, as a part of the lent trace itself; the walker moves past them.
pub fn step<'s, 'a>(w: &'s mut Walker<'a>) -> &'a [u8]
    ensures { Steps w.old w.new result.now }
{
    let trace = w.trace;
    let next = w.next;
    w.next = next_at(trace, next);
    part_at(trace, next)
}

// The rows of the first cycle of a trace: a walker is opened and steps once; nothing where none is opened. Its parameters are plain, so a caller's proof has
// no walk.
pub fn first_part<'a>(t: &'a [u8]) -> &'a [u8]
    ensures { result.now ≡ first_part t.now }
{
    match open_walker(t) {
        Ok(opened) => {
            let mut walker = opened;
            step(&mut walker)
        }
        Err(_) => &[],
    }
}
