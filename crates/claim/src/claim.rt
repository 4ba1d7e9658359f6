// The claim of an instruction: its context and the two ends of what it touches.
ghost use Rattle.std.specs.Prelude.{◌≡◌};
ghost use Rattle.number.specs.Whole.{wide};
ghost use Rattle.model.specs.Cycles.{claim_of as claim_of_row};
ghost use Rattle.claim.specs.Claims.{end_of, claim_of};
ghost use Rattle.claim.specs.Told.{plain_claim, plain_range, plain_instruction, told_claim};

use crate::instruction::{Instruction, Range, Touched};
use long::sum;
use number::wide::Wide;
use row::view::RowBytes;
use state::Context;

// A context and two ends.
#[derive(Clone, Copy)]
pub struct Claim {
    pub context: Context,
    pub end1: Wide,
    pub end2: Wide,
}

// The end of a range: 0 where its length is 0, else its offset plus its length.
#[tactic(auto, using(number::proofs::WholeLaws::wide_is), unfolding(gas::specs::Gas::range_end))]
fn end_of(r: Range) -> Wide
    ensures { result ≡ wide (end_of (plain_range r)) }
{
    if r.len.is_zero() {
        Wide::from(0)
    } else {
        sum(r.at, r.len)
    }
}

// The claim of an instruction.
#[tactic(auto, using(number::proofs::WholeLaws::wide_is), unfolding(crate::specs::Claims::claim_of))]
#[inline(always)]
pub fn claim_of(i: Instruction) -> Claim
    ensures { result ≡ told_claim (claim_of (plain_instruction i)) }
{
    let context = i.context;
    let touched = i.touched;
    match touched {
        Touched::Nothing => Claim {
            context,
            end1: Wide::from(0),
            end2: Wide::from(0),
        },
        Touched::One(a) => Claim {
            context,
            end1: end_of(a),
            end2: Wide::from(0),
        },
        Touched::Two(a, b) => Claim {
            context,
            end1: end_of(a),
            end2: end_of(b),
        },
    }
}

// The claim that a row shows.
pub fn claim_in(row: &RowBytes) -> Claim
    ensures { plain_claim result ≡ claim_of_row row.now }
{
    let context = Context { cn: row.cn() };
    Claim {
        context,
        end1: row.end1(),
        end2: row.end2(),
    }
}
