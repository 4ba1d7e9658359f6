// The numbers of an in-bounds cycle: how its ends compare, and what the greater of them makes of the state of its context. Only crates of this
// repository call these functions.
#![tactic(auto)]

ghost use Rattle.std.specs.Prelude.{true, ◌≡◌, ◌<◌};
ghost use Rattle.number.specs.Whole.{bound};
ghost use Rattle.model.specs.State.{Sound};
ghost use Rattle.model.specs.Trace.{in_bounds};
ghost use Rattle.state.specs.Plain.{state};
ghost use Rattle.claim.specs.Told.{plain_claim};
ghost use Rattle.growth.specs.Numbers.{EndsOf, GrowthOf};

use claim::claim::Claim;
use gas::{Bytes, Gas, Split, WORD_BYTES, Words, cost_of, split_of, words_of};
use model::AUX_LIFT;
use state::State;

// The ends, whether the first is at least the second, the greater one, and how far they are apart.
#[derive(Clone, Copy)]
pub struct Ends {
    pub end1: Bytes,
    pub end2: Bytes,
    pub comp: bool,
    pub top: Bytes,
    pub apart: Bytes,
}

// What the greater end makes of the state. From `gas` on all is 0 where that end is not above the bytes reached before: no Option, since a row has these cells then
// too, FLAG among them.
#[derive(Clone, Copy, Default)]
pub struct Growth {
    // Whether it is above them, and how far the two are apart.
    pub flag: bool,
    pub above: Bytes,
    // The state that it leaves, and what that costs.
    pub after: State,
    pub gas: Gas,
    // The number of its last word, Q1: how many words are before that one.
    pub word: Words,
    // Two cells of AUX1: the place of its last byte in that word, and that place lifted.
    pub byte: u8,
    pub lifted: u8,
    // The square of its words.
    pub square: Split,
}

// How the ends of an in-bounds claim compare.
#[tactic(auto, using(crate::proofs::EndLaws::ends_low), unfolding(model::specs::Trace::apart))]
pub fn ends_of(c: Claim) -> Ends
    requires { in_bounds (plain_claim c) ≡ true }
    ensures { EndsOf (plain_claim c) result }
{
    let end1 = Bytes(c.end1.lo as u32);
    let end2 = Bytes(c.end2.lo as u32);
    if end2 <= end1 {
        Ends {
            end1,
            end2,
            comp: true,
            top: end1,
            apart: Bytes(end1.0 - end2.0),
        }
    } else {
        let apart = Bytes(end2.0 - end1.0 - 1);
        Ends {
            end1,
            end2,
            comp: false,
            top: end2,
            apart,
        }
    }
}

// What an end above the bytes reached makes of the state s.
#[tactic(auto, using(model::proofs::StateLaws::paid_more), unfolding(gas::specs::Gas::words, model::specs::Trace::above, model::specs::Trace::reach, model::specs::Trace::last_word, model::specs::Trace::last_byte, model::specs::Trace::square))]
fn grow(s: State, top: Bytes) -> Growth
    requires sound { Sound (state s) }
    requires mem_lt_top { s.mem.0 < top.0 }
    requires top_lt_bound { top.0 < bound }
    ensures { GrowthOf (state s) top.0 result }
{
    let words = words_of(top);
    let word = Words(words.0 - 1);
    let cost = cost_of(words);
    let byte = ((top.0 - 1) % WORD_BYTES) as u8;
    Growth {
        flag: true,
        above: Bytes(top.0 - s.mem.0 - 1),
        after: State { mem: top, cost },
        gas: Gas(cost.0 - s.cost.0),
        word,
        byte,
        lifted: byte + AUX_LIFT,
        square: split_of(words),
    }
}

// What the end `top` makes of the state s.
#[tactic(auto, unfolding(model::specs::Trace::above, model::specs::Trace::reach, model::specs::Trace::last_word, model::specs::Trace::last_byte, model::specs::Trace::square))]
pub fn growth_of(s: State, top: Bytes) -> Growth
    requires sound { Sound (state s) }
    requires top_lt_bound { top.0 < bound }
    ensures { GrowthOf (state s) top.0 result }
{
    if s.mem < top {
        grow(s, top)
    } else {
        Growth {
            above: Bytes(s.mem.0 - top.0),
            after: s,
            ..Growth::default()
        }
    }
}
