// The cycle of an in-bounds claim: three rows, and what they are made from.
ghost use Rattle.std.specs.Prelude.{true, ◌≡◌, ⊤, suc};
ghost use Rattle.model.specs.Constraints.{in_last};
ghost use Rattle.model.specs.Trace.{in_bounds, top};
ghost use Rattle.row.specs.Plain.{HeadOf, BodyOf, TailOf};
ghost use Rattle.state.specs.Plain.{state};
ghost use Rattle.claim.specs.Told.{plain_claim};
ghost use Rattle.growth.specs.Numbers.{EndsOf, GrowthOf};
ghost use Rattle.cycle.specs.Within.{within_row};

use crate::Cycle;
use crate::digits::{digit, in_rows, prefix};
use beyond::rows::Rows;
use growth::{Ends, Growth, ends_of, growth_of};
use model::IN_LAST;
use number::FIRST_OF_FOUR;
use number::wide::Wide;
use row::cells::{Body, Head, Row, Tail};

// How many rows the cycle has.
pub(crate) const ROWS: u8 = IN_LAST + 1;

// An in-bounds cycle, and what its rows are made from.
#[derive(Clone, Copy)]
pub(crate) struct Made {
    pub(crate) cycle: Cycle,
    ends: Ends,
    growth: Growth,
    ghost within: { in_bounds (plain_claim cycle.claim) ≡ true },
    ghost ends_are: { EndsOf (plain_claim cycle.claim) ends },
    ghost growth_is: { GrowthOf (state cycle.before) (top (plain_claim cycle.claim)) growth },
}

impl Made {
    pub(crate) fn of(cycle: Cycle) -> Made
        requires { in_bounds (plain_claim cycle.claim) ≡ true }
        ensures { result.cycle ≡ cycle }
    {
        let ends = ends_of(cycle.claim);
        let growth = growth_of(cycle.before, ends.top);
        Made {
            cycle,
            ends,
            growth,
        }
    }

    // The parts of row i.

    #[tactic(auto, unfolding(model::specs::Trace::in_row))]
    fn head(self, i: u8) -> Head
        ensures { HeadOf (within_row self.cycle i) result }
    {
        let c = self.cycle.claim;
        let e = self.ends;
        let end1 = c.end1;
        let end2 = c.end2;
        Head {
            stamp: self.cycle.stamp,
            cn: c.context.cn,
            ooob: 0,
            ct: i,
            end1,
            end2,
            byte1: digit(e.end1.0, i),
            byte2: digit(e.end2.0, i),
            acc1: Wide::from(u64::from(prefix(e.end1.0, i))),
            acc2: prefix(e.end2.0, i),
        }
    }

    fn body(self, i: u8) -> Body
        ensures { BodyOf (within_row self.cycle i) result }
    {
        let before = self.cycle.before;
        let e = self.ends;
        let g = self.growth;
        Body {
            mem: before.mem.0,
            memn: g.after.mem.0,
            cost: before.cost.0 as u32,
            costn: g.after.cost.0 as u32,
            gas: g.gas.0 as u32,
            comp: u8::from(e.comp),
            dbyte: digit(e.apart.0, i),
            dacc: prefix(e.apart.0, i),
            endmax: e.top.0,
            flag: u8::from(g.flag),
        }
    }

    fn tail(self, i: u8) -> Tail
        ensures { TailOf (within_row self.cycle i) result }
    {
        let g = self.growth;
        let q2 = g.square.q2 as u32;
        let low = q2 % FIRST_OF_FOUR;
        let high = (q2 / FIRST_OF_FOUR) as u8;
        Tail {
            ebyte: digit(g.above.0, i),
            eacc: prefix(g.above.0, i),
            q1: g.word.0,
            q1byte: digit(g.word.0, i),
            q1acc: prefix(g.word.0, i),
            q2,
            q2byte: digit(low, i),
            q2acc: prefix(low, i),
            aux1: in_rows(0, g.lifted, g.byte, i),
            aux2: in_rows(g.square.e, high, g.square.low, i),
        }
    }
}

impl Rows for Made {
    ghost cells = { λ m. within_row m.cycle };

    ghost count = { suc in_last };

    ghost at = { λ m i. ⊤ };

    fn make(&mut self, i: u8) -> Row {
        Row {
            head: self.head(i),
            body: self.body(i),
            tail: self.tail(i),
        }
    }
}
