// What holds where an instruction is out of bounds: constraints 24 and 25, where STAMP is not 0 and OOOB=1.
ghost use Rattle.std.specs.Prelude.{◌≡◌};
ghost use Rattle.model.specs.Constraints.{k24, k25};
ghost use Rattle.row.specs.Plain.{plain};

use crate::cells::{from_comp_zero, stays};
use model::OUT_LAST;
use row::cells::Row;
use words::amounts::is_beyond;
use words::implies;

// 24. MEMN=MEM, COSTN=COST, GAS=0; BYTE2, ACC2 and every cell from COMP on are 0.
#[tactic(auto, unfolding(model::specs::Constraints::k24))]
pub fn rule24(x: Row) -> bool
    ensures { result ≡ k24 (plain x) }
{
    stays(x) & (x.head.byte2 == 0) & (x.head.acc2 == 0) & from_comp_zero(x)
}

// 25. CT=16: ACC1 = END1-2^24 if END1 is at least 2^24, else END2-2^24.
#[tactic(auto, unfolding(model::specs::Constraints::k25))]
pub fn rule25(x: Row) -> bool
    ensures { result ≡ k25 (plain x) }
{
    implies(
        x.head.ct == OUT_LAST,
        is_beyond(x.head.end1, x.head.end2, x.head.acc1),
    )
}
