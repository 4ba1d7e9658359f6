// What rules ask of many cells of a row.
ghost use Rattle.std.specs.Prelude.{◌≡◌};
ghost use Rattle.model.specs.Columns as columns;
ghost use Rattle.model.specs.Constraints as constraints;
ghost use Rattle.model.specs.Tests.{zeros};
ghost use Rattle.row.specs.Plain.{plain};
ghost use Rattle.rules.specs.Kept.{numbers};

use gas::WORD_GAS;
use number::wide::Wide;
use row::cells::{Body, Row, Tail};

// MEMN=MEM, COSTN=COST, GAS=0.
#[tactic(auto, unfolding(model::specs::Constraints::stays))]
pub(crate) fn stays(x: Row) -> bool
    ensures { result ≡ constraints.stays (plain x) }
{
    (x.body.memn == x.body.mem) & (x.body.costn == x.body.cost) & (x.body.gas == 0)
}

// MEMN=ENDMAX, COSTN=3(1+Q1)+Q2, COSTN=COST+GAS.
#[tactic(auto, unfolding(model::specs::Constraints::grows))]
pub(crate) fn grows(x: Row) -> bool
    ensures { result ≡ constraints.grows (plain x) }
{
    let costn = u64::from(x.body.costn);
    (x.body.memn == x.body.endmax)
        & (costn == WORD_GAS * (1 + u64::from(x.tail.q1)) + u64::from(x.tail.q2))
        & (costn == u64::from(x.body.cost) + u64::from(x.body.gas))
}

// The Q and AUX cells are 0: those after EBYTE and EACC.
pub(crate) fn quotients_zero(x: Row) -> bool
    ensures { result ≡ zeros (constraints.quotients (plain x)) }
{
    let rest = Tail {
        ebyte: 0,
        eacc: 0,
        ..x.tail
    };
    rest == Tail::default()
}

// Every cell from COMP on is 0: those after GAS.
pub(crate) fn from_comp_zero(x: Row) -> bool
    ensures { result ≡ zeros (columns.cells_in columns.from_comp (plain x)) }
{
    let rest = Body {
        mem: 0,
        memn: 0,
        cost: 0,
        costn: 0,
        gas: 0,
        ..x.body
    };
    (rest == Body::default()) & (x.tail == Tail::default())
}

// Every cell is 0.
pub(crate) fn all_zero(x: Row) -> bool
    ensures { result ≡ zeros (columns.cells_in columns.columns (plain x)) }
{
    x == Row::default()
}

// The cells that stay as they are in a cycle.
#[derive(Clone, Copy, PartialEq, Eq)]
struct Kept {
    cn: u32,
    end1: Wide,
    end2: Wide,
    mem: u32,
    memn: u32,
    cost: u32,
    costn: u32,
    gas: u32,
    comp: u8,
    endmax: u32,
    flag: u8,
    q1: u32,
    q2: u32,
}

// Those of a row.
impl From<Row> for Kept {
    ghost from_gives = { λ x k. numbers k ≡ constraints.kept (plain x) };

    fn from(x: Row) -> Kept {
        Kept {
            cn: x.head.cn,
            end1: x.head.end1,
            end2: x.head.end2,
            mem: x.body.mem,
            memn: x.body.memn,
            cost: x.body.cost,
            costn: x.body.costn,
            gas: x.body.gas,
            comp: x.body.comp,
            endmax: x.body.endmax,
            flag: x.body.flag,
            q1: x.tail.q1,
            q2: x.tail.q2,
        }
    }
}

// Each of them is as in the row before.
pub(crate) fn all_kept(b: Row, x: Row) -> bool
    ensures { result ≡ constraints.equal (constraints.kept (plain x)) (constraints.kept (plain b)) }
{
    Kept::from(x) == Kept::from(b)
}
