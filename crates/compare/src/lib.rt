// A row by value beside the bytes of a row: whether every cell is the same. Cells that stand side by side are compared as one number. Only crates of this
// repository call these functions: one asks that cells of three bytes fit them. Each of the two parts of a row is small enough to be inlined where it is called;
// one function for both would not be, and the row would go through memory.
#![tactic(auto)]

ghost use Rattle.std.specs.Prelude.{◌≡◌, ◌+◌, ◌≤◌, true};
ghost use Rattle.number.specs.Cells.{total, decode};
ghost use Rattle.number.specs.Num.{num};
ghost use Rattle.model.specs.Columns.{up_to_gas, from_comp, columns, cells_in, row_bytes};
ghost use Rattle.model.specs.Constraints.{equal};
ghost use Rattle.model.specs.Tests.{zeros};
ghost use Rattle.row.specs.Group.{at_once};
ghost use Rattle.row.specs.Plain.{plain};
ghost use Rattle.compare.specs.Narrow.{Narrow};
ghost use Rattle.compare.specs.Same.{same_in};

use cell::read::{u16_at, u24_at, u32_at, u64_at, wide_at};
use model::ROW_BYTES;
use row::cells::Row;
use row::group::Group;
use row::place;
use row::three::Three;
use row::view::RowBytes;

// The number in `width` bytes of a row, from `at` on. The width is a constant of a group's type, so that one of the three is left where the call is compiled.
fn number_at(row: &[u8; ROW_BYTES], at: usize, width: usize) -> u64
    requires there { at + width ≤ row_bytes }
    requires once { at_once width ≡ true }
    ensures { result ≡ num row.now at width }
{
    match width {
        2 => u64::from(u16_at(row, at)),
        4 => u64::from(u32_at(row, at)),
        _ => u64_at(row, at),
    }
}

// Whether these cells stand side by side in a row, the first of them at `at`.
fn cells_are<C: Group>(row: &[u8; ROW_BYTES], at: usize, cells: C) -> bool
    requires there { at + total C.widths ≤ row_bytes }
    requires once { at_once (total C.widths) ≡ true }
    ensures { result ≡ equal (decode C.widths row.now at) (C.values cells) }
{
    number_at(row, at, C::width()) == cells.behind(0)
}

// Whether the row has the cells of x up to GAS.
pub fn up_to_gas_is(row: &RowBytes, x: Row) -> bool
    ensures { result ≡ same_in up_to_gas row.now (plain x) }
{
    let bytes = row.bytes();
    let (head, body) = (x.head, x.body);
    cells_are(bytes, place::STAMP, (head.stamp, head.cn))
        & cells_are(bytes, place::OOOB, (head.ooob, head.ct))
        & (wide_at(bytes, place::END1) == head.end1)
        & (wide_at(bytes, place::END2) == head.end2)
        & cells_are(bytes, place::BYTE1, (head.byte1, head.byte2))
        & (wide_at(bytes, place::ACC1) == head.acc1)
        & (u24_at(bytes, place::ACC2) == head.acc2)
        & (u24_at(bytes, place::MEM) == body.mem)
        & (u24_at(bytes, place::MEMN) == body.memn)
        & cells_are(bytes, place::COST, (body.cost, body.costn))
        & (u32_at(bytes, place::GAS) == body.gas)
}

// Whether it has those from COMP on.
pub fn from_comp_is(row: &RowBytes, x: Row) -> bool
    requires { Narrow (plain x) }
    ensures { result ≡ same_in from_comp row.now (plain x) }
{
    let bytes = row.bytes();
    let (body, tail) = (x.body, x.tail);
    let dacc_endmax = (Three::new(body.dacc), Three::new(body.endmax));
    let eacc_q1 = (Three::new(tail.eacc), Three::new(tail.q1));
    let q1byte_q1acc = (tail.q1byte, Three::new(tail.q1acc));
    cells_are(bytes, place::COMP, ((body.comp, body.dbyte), dacc_endmax))
        & cells_are(bytes, place::FLAG, ((body.flag, tail.ebyte), eacc_q1))
        & cells_are(bytes, place::Q1BYTE, (q1byte_q1acc, tail.q2))
        & cells_are(bytes, place::Q2BYTE, (tail.q2byte, Three::new(tail.q2acc)))
        & cells_are(bytes, place::AUX1, (tail.aux1, tail.aux2))
}

// Whether every cell of the row is 0.
pub fn is_empty(row: &RowBytes) -> bool
    ensures { result ≡ zeros (cells_in columns row.now) }
{
    row.bytes()
        .iter()
        .fold(true, |zero, byte| zero & (*byte == 0))
}
