// A context, its state, and the look-up of a context's state before a row of a trace. Only crates of this repository call these functions.
#![tactic(auto)]

ghost use Rattle.std.specs.Prelude.{◌≡◌};
ghost use Rattle.model.specs.State.{same_context, context_of, state_of};
ghost use Rattle.state.specs.Plain.{context, state};

use gas::{Bytes, Gas};
use row::view::RowBytes;

pub mod look;

// A context, by its number, and ordered by it.
#[derive(Clone, Copy, PartialEq, Eq, PartialOrd, Ord)]
pub struct Context {
    pub cn: u32,
}

impl Context {
    // The context of a row.
    pub fn of_row(row: &RowBytes) -> Self
        ensures { context result ≡ context_of row.now }
    {
        Context { cn: row.cn() }
    }

    // Whether a row has this context.
    #[tactic(auto, unfolding(model::specs::State::same_context))]
    pub fn is_of(self, row: &RowBytes) -> bool
        ensures { result ≡ same_context (context_of row.now) (context self) }
    {
        Context::of_row(row) == self
    }
}

// The bytes that a context has reached, and the gas paid for them; by default those of a context without an earlier instruction.
#[derive(Clone, Copy, Default)]
pub struct State {
    pub mem: Bytes,
    pub cost: Gas,
}

impl State {
    // The state that a row leaves.
    pub fn of_row(row: &RowBytes) -> Self
        ensures { state result ≡ state_of row.now }
    {
        State {
            mem: Bytes(row.memn()),
            cost: Gas(u64::from(row.costn())),
        }
    }
}
