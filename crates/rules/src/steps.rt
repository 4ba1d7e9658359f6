// How rows follow each other: constraints 1 to 6, on every row, and 26, on the last.
ghost use Rattle.std.specs.Prelude.{◌≡◌};
ghost use Rattle.model.specs.Constraints.{k1, k2, k3, k4, k5, k6, k26};
ghost use Rattle.row.specs.Plain.{plain};

use crate::cells::all_zero;
use row::cells::Row;
use words::steps::{ct_follows, stamp_follows};
use words::{implies, last_ct};

// 1. OOOB is 0 or 1.
#[tactic(auto, unfolding(model::specs::Constraints::k1))]
pub fn rule1(x: Row) -> bool
    ensures { result ≡ k1 (plain x) }
{
    x.head.ooob <= 1
}

// 2. Row 0 has STAMP 0.
#[tactic(auto, unfolding(model::specs::Constraints::k2))]
pub fn rule2(first: bool, x: Row) -> bool
    ensures { result ≡ k2 first (plain x) }
{
    implies(first, x.head.stamp == 0)
}

// 3. i>0: after STAMP 0 comes 0 or 1. Otherwise STAMP equals the one before if that row's CT was not its E, else it is one more.
#[tactic(auto, unfolding(model::specs::Constraints::k3))]
pub fn rule3(first: bool, b: Row, x: Row) -> bool
    ensures { result ≡ k3 first (plain b) (plain x) }
{
    implies(
        !first,
        stamp_follows(b.head.stamp, b.head.ct, b.head.ooob, x.head.stamp),
    )
}

// 4. CT is 0 where STAMP is 0 or new; else one more than before.
#[tactic(auto, unfolding(model::specs::Constraints::k4))]
pub fn rule4(b: Row, x: Row) -> bool
    ensures { result ≡ k4 (plain b) (plain x) }
{
    ct_follows(b.head.stamp, b.head.ct, x.head.stamp, x.head.ct)
}

// 5. STAMP 0: OOOB is 0. Inside a cycle OOOB is as before.
#[tactic(auto, unfolding(model::specs::Constraints::k5))]
pub fn rule5(b: Row, x: Row) -> bool
    ensures { result ≡ k5 (plain b) (plain x) }
{
    implies(x.head.stamp == 0, x.head.ooob == 0)
        & implies(x.head.ct != 0, x.head.ooob == b.head.ooob)
}

// 6. STAMP 0: every cell is 0.
#[tactic(auto, unfolding(model::specs::Constraints::k6))]
pub fn rule6(x: Row) -> bool
    ensures { result ≡ k6 (plain x) }
{
    implies(x.head.stamp == 0, all_zero(x))
}

// 26. The last row, STAMP not 0: CT is E.
#[tactic(auto, unfolding(model::specs::Constraints::k26, model::specs::Constraints::in_use))]
pub fn rule26(last: bool, x: Row) -> bool
    ensures { result ≡ k26 last (plain x) }
{
    implies(
        last & (x.head.stamp != 0),
        x.head.ct == last_ct(x.head.ooob),
    )
}
