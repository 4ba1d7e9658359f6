// What holds in the cycle of any instruction: constraints 7 to 10, where STAMP is not 0.
ghost use Rattle.std.specs.Prelude.{◌≡◌};
ghost use Rattle.model.specs.Constraints.{k7, k8, k9, k10};
ghost use Rattle.row.specs.Plain.{plain};
ghost use Rattle.state.specs.Plain.{state};

use crate::cells::all_kept;
use row::cells::Row;
use state::State;
use words::implies;
use words::sums::sums_up;

// 7. CN is not 0.
#[tactic(auto, unfolding(model::specs::Constraints::k7))]
pub fn rule7(x: Row) -> bool
    ensures { result ≡ k7 (plain x) }
{
    x.head.cn != 0
}

// 8. CT not 0: CN, END1, END2, MEM, MEMN, COST, COSTN, GAS, COMP, ENDMAX, FLAG, Q1, Q2 are as before.
#[tactic(auto, unfolding(model::specs::Constraints::k8))]
pub fn rule8(b: Row, x: Row) -> bool
    ensures { result ≡ k8 (plain b) (plain x) }
{
    implies(x.head.ct != 0, all_kept(b, x))
}

// 9. CT=0: MEM and COST equal MEMN and COSTN of the latest earlier cycle with this CN, the state s; both 0 if there is none.
#[tactic(auto, unfolding(model::specs::Constraints::k9))]
pub fn rule9(s: State, x: Row) -> bool
    ensures { result ≡ k9 (state s) (plain x) }
{
    let kept = (x.body.mem == s.mem.0) & (u64::from(x.body.cost) == s.cost.0);
    implies(x.head.ct == 0, kept)
}

// 10. BYTE1 sums up into ACC1.
#[tactic(auto, unfolding(model::specs::Constraints::k10))]
pub fn rule10(b: Row, x: Row) -> bool
    ensures { result ≡ k10 (plain b) (plain x) }
{
    sums_up(x.head.ct, b.head.acc1, x.head.byte1, x.head.acc1)
}
