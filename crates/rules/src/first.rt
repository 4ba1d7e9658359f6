// The first constraint that a row breaks: the 26 in their order, and where the first stands that is not met.
ghost use Rattle.std.specs.Prelude.{◌≡◌, ◌<◌, not, IfSome, length, position};
ghost use Rattle.model.specs.Constraints as constraints;
ghost use Rattle.model.specs.Constraints.{first_failed};
ghost use Rattle.row.specs.Plain.{plain};
ghost use Rattle.rules.specs.First.{constraints_of, named};

use crate::beyond::rule24;
use crate::cycle::{rule7, rule8, rule10};
use crate::steps::{rule1, rule2, rule3, rule4, rule5, rule6, rule26};
use crate::window::Window;
use crate::within::{
    rule11, rule12, rule13, rule14, rule15, rule16, rule17, rule18, rule19, rule20, rule21, rule22,
    rule23,
};
use row::cells::Row;
use words::implies;

// How many constraints there are.
const CONSTRAINTS: usize = 26;

// 7 to 25 are asked where STAMP is not 0.
#[tactic(auto, unfolding(model::specs::Constraints::in_use))]
fn used(x: Row, met: bool) -> bool
    ensures { result ≡ constraints.used (plain x) met }
{
    implies(x.head.stamp != 0, met)
}

// 11 to 23 where OOOB=0. (Two functions, as document 01 has two groups.)
fn within(x: Row, met: bool) -> bool
    ensures { result ≡ constraints.within (plain x) met }
{
    used(x, implies(x.head.ooob == 0, met))
}

// 24 and 25 where OOOB=1.
fn beyond(x: Row, met: bool) -> bool
    ensures { result ≡ constraints.beyond (plain x) met }
{
    used(x, implies(x.head.ooob == 1, met))
}

// Whether each of the 26 is met, in their order. The answers to 9 and to 25 are given.
fn constraints_met(w: Window, nine: bool, twenty_five: bool) -> [bool; CONSTRAINTS]
    ensures { result ≡ constraints_of w nine twenty_five }
{
    let (b, x) = (w.before, w.row);
    [
        rule1(x),
        rule2(w.first, x),
        rule3(w.first, b, x),
        rule4(b, x),
        rule5(b, x),
        rule6(x),
        used(x, rule7(x)),
        used(x, rule8(b, x)),
        used(x, nine),
        used(x, rule10(b, x)),
        within(x, rule11(b, x)),
        within(x, rule12(b, x)),
        within(x, rule13(b, x)),
        within(x, rule14(b, x)),
        within(x, rule15(x)),
        within(x, rule16(x)),
        within(x, rule17(x)),
        within(x, rule18(x)),
        within(x, rule19(x)),
        within(x, rule20(x)),
        within(x, rule21(b, x)),
        within(x, rule22(w.two_before, b, x)),
        within(x, rule23(x)),
        beyond(x, rule24(x)),
        beyond(x, twenty_five),
        rule26(w.last, x),
    ]
}

// The place of the first test that does not pass.
fn first_unmet(met: &[bool]) -> Option<usize>
    ensures place { result ≡ position not met.now }
    ensures bound { IfSome result (λ i. i < length met.now) }
{
    met.iter().position(|passes| !*passes)
}

// The number of the first constraint that the row breaks, none if it meets all. The answers to 9 and to 25 are given.
pub fn first_broken(w: Window, nine: bool, twenty_five: bool) -> Option<u64>
    ensures { result ≡ named (first_failed 1 (constraints_of w nine twenty_five)) }
{
    let place = first_unmet(&constraints_met(w, nine, twenty_five))?;
    Some(place as u64 + 1)
}
