// The last state of a context: from the last cycle of a trace back.
#![tactic(auto)]

ghost use Rattle.std.specs.Prelude.{◌≡◌, length};
ghost use Rattle.model.specs.Promises.{Accepted, claims_in};
ghost use Rattle.state.specs.Plain.{context};
ghost use Rattle.last.specs.Last.{last_of, told_last};
ghost use Rattle.last.specs.Search.{stopped_short};

use model::ROW_BYTES;
use refusal::Refusal;
use state::Context;
use state::look::{Looked, Search, search_back, state_found};
use trace::admit::admit;

// Whether a search that looked at so many of the cycles found nothing and has not looked at all.
fn stopped_short(s: Search, cycles: u64) -> bool
    ensures { result ≡ stopped_short s.found s.count cycles }
{
    s.found.is_none() && (s.count as u64) < cycles
}

// The last state of the context in an accepted trace of so many cycles.
fn last_within(t: &[u8], cycles: u64, x: Context, limit: u64) -> Result<Looked, Refusal>
    requires accepted { Accepted t.now }
    requires cycles_value { cycles ≡ length (claims_in t.now) }
    ensures { result ≡ told_last (last_of t.now (context x) limit) }
{
    if x.cn == 0 {
        return Err(Refusal::ContextZero);
    }
    let most = limit.min(cycles);
    let s = search_back(t, t.len() / ROW_BYTES, most as usize, x);
    if stopped_short(s, cycles) {
        return Err(Refusal::LimitTooLow);
    }
    Ok(Looked {
        state: state_found(t, s.found),
        cycles: s.count,
    })
}

// The last state of a context, with a look at no more than `limit` cycles: document 01's numbers for each case are `last_numbers` of specs/Last.antt.
pub fn last_state(t: &[u8], x: Context, limit: u64) -> Result<Looked, Refusal>
    ensures { result ≡ told_last (last_of t.now (context x) limit) }
{
    let counts = admit(t)?;
    last_within(t, counts.instructions, x, limit)
}
