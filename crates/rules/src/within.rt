// What holds where an instruction is in bounds: constraints 11 to 23, where STAMP is not 0 and OOOB=0.
ghost use Rattle.std.specs.Prelude.{◌≡◌};
ghost use Rattle.model.specs.Constraints.{k11, k12, k13, k14, k15, k16, k17, k18, k19, k20, k21, k22, k23};
ghost use Rattle.row.specs.Plain.{plain};

use crate::cells::{grows, quotients_zero, stays};
use model::IN_LAST;
use number::wide::Wide;
use row::cells::Row;
use words::amounts::{is_chosen, is_excess, is_gap, is_rounded, is_split};
use words::implies;
use words::sums::sums_up;

// 11. BYTE2 sums up into ACC2.
#[tactic(auto, unfolding(model::specs::Constraints::k11))]
pub fn rule11(b: Row, x: Row) -> bool
    ensures { result ≡ k11 (plain b) (plain x) }
{
    sums_up(x.head.ct, b.head.acc2, x.head.byte2, x.head.acc2)
}

// 12. DBYTE into DACC.
#[tactic(auto, unfolding(model::specs::Constraints::k12))]
pub fn rule12(b: Row, x: Row) -> bool
    ensures { result ≡ k12 (plain b) (plain x) }
{
    sums_up(x.head.ct, b.body.dacc, x.body.dbyte, x.body.dacc)
}

// 13. EBYTE into EACC.
#[tactic(auto, unfolding(model::specs::Constraints::k13))]
pub fn rule13(b: Row, x: Row) -> bool
    ensures { result ≡ k13 (plain b) (plain x) }
{
    sums_up(x.head.ct, b.tail.eacc, x.tail.ebyte, x.tail.eacc)
}

// 14. FLAG=1: Q1BYTE into Q1ACC, Q2BYTE into Q2ACC.
#[tactic(auto, unfolding(model::specs::Constraints::k14))]
pub fn rule14(b: Row, x: Row) -> bool
    ensures { result ≡ k14 (plain b) (plain x) }
{
    let q1 = sums_up(x.head.ct, b.tail.q1acc, x.tail.q1byte, x.tail.q1acc);
    let q2 = sums_up(x.head.ct, b.tail.q2acc, x.tail.q2byte, x.tail.q2acc);
    implies(x.body.flag == 1, q1 & q2)
}

// 15. COMP and FLAG are each 0 or 1.
#[tactic(auto, unfolding(model::specs::Constraints::k15))]
pub fn rule15(x: Row) -> bool
    ensures { result ≡ k15 (plain x) }
{
    (x.body.comp <= 1) & (x.body.flag <= 1)
}

// 16. ENDMAX is END1 if COMP=1, else END2.
#[tactic(auto, unfolding(model::specs::Constraints::k16))]
pub fn rule16(x: Row) -> bool
    ensures { result ≡ k16 (plain x) }
{
    is_chosen(x.body.comp, x.head.end1, x.head.end2, x.body.endmax)
}

// 17. FLAG=0: MEMN=MEM, COSTN=COST, GAS=0. FLAG=1: MEMN=ENDMAX, COSTN=3(1+Q1)+Q2, COSTN=COST+GAS.
#[tactic(auto, unfolding(model::specs::Constraints::k17))]
pub fn rule17(x: Row) -> bool
    ensures { result ≡ k17 (plain x) }
{
    implies(x.body.flag == 0, stays(x)) & implies(x.body.flag == 1, grows(x))
}

// 18. CT=2: ACC1=END1, ACC2=END2.
#[tactic(auto, unfolding(model::specs::Constraints::k18))]
pub fn rule18(x: Row) -> bool
    ensures { result ≡ k18 (plain x) }
{
    let ends = (x.head.acc1 == x.head.end1) & (Wide::from(u64::from(x.head.acc2)) == x.head.end2);
    implies(x.head.ct == IN_LAST, ends)
}

// 19. CT=2: DACC = END1-END2 if COMP=1, else END2-END1-1.
#[tactic(auto, unfolding(model::specs::Constraints::k19))]
pub fn rule19(x: Row) -> bool
    ensures { result ≡ k19 (plain x) }
{
    implies(
        x.head.ct == IN_LAST,
        is_gap(x.body.comp, x.body.dacc, x.head.end1, x.head.end2),
    )
}

// 20. CT=2: EACC = ENDMAX-MEM-1 if FLAG=1, else MEM-ENDMAX.
#[tactic(auto, unfolding(model::specs::Constraints::k20))]
pub fn rule20(x: Row) -> bool
    ensures { result ≡ k20 (plain x) }
{
    implies(
        x.head.ct == IN_LAST,
        is_excess(x.body.flag, x.tail.eacc, x.body.endmax, x.body.mem),
    )
}

// 21. CT=2, FLAG=1: Q1ACC=Q1; AUX1 one row before = AUX1+224; ENDMAX-1 = 32*Q1+AUX1.
#[tactic(auto, unfolding(model::specs::Constraints::k21))]
pub fn rule21(b: Row, x: Row) -> bool
    ensures { result ≡ k21 (plain b) (plain x) }
{
    implies(
        (x.head.ct == IN_LAST) & (x.body.flag == 1),
        is_rounded(
            x.tail.q1,
            x.tail.q1acc,
            b.tail.aux1,
            x.tail.aux1,
            x.body.endmax,
        ),
    )
}

// 22. CT=2, FLAG=1: AUX2 two rows before (e) is 0 or 1; Q2 = Q2ACC + 256^3 * (AUX2 one row before); (1+Q1)^2 = 512*Q2 + 256*e + AUX2.
#[tactic(auto, unfolding(model::specs::Constraints::k22))]
pub fn rule22(a: Row, b: Row, x: Row) -> bool
    ensures { result ≡ k22 (plain a) (plain b) (plain x) }
{
    let split = is_split(
        x.tail.q1,
        x.tail.q2,
        x.tail.q2acc,
        a.tail.aux2,
        b.tail.aux2,
        x.tail.aux2,
    );
    implies((x.head.ct == IN_LAST) & (x.body.flag == 1), split)
}

// 23. FLAG=0: the Q and AUX cells are 0. FLAG=1, CT=0: AUX1 is 0.
#[tactic(auto, unfolding(model::specs::Constraints::k23))]
pub fn rule23(x: Row) -> bool
    ensures { result ≡ k23 (plain x) }
{
    implies(x.body.flag == 0, quotients_zero(x))
        & implies((x.body.flag == 1) & (x.head.ct == 0), x.tail.aux1 == 0)
}
