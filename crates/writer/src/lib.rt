// A row written to a lent buffer: cells that stand side by side are stored as one number, and the bytes outside of the row stay. Only crates of this
// repository call `put_row`: it asks that there is room for the row.
#![tactic(auto)]

ghost use Rattle.std.specs.Prelude.{◌≡◌, ◌+◌, ◌*◌, ◌^◌, ◌<◌, ◌≤◌, length, true};
ghost use Rattle.std.proofs.lemmas.List.Edits.{sets};
ghost use Rattle.number.specs.Cells.{total, encode};
ghost use Rattle.number.specs.Num.{be};
ghost use Rattle.model.specs.Columns.{columns, cells_in, widths, row_bytes};
ghost use Rattle.row.specs.Group.{at_once};
ghost use Rattle.row.specs.Plain.{plain};
ghost use Rattle.writer.specs.Stores.{part_stored};

use cell::write::{put_u16, put_u24, put_u32, put_u64, put_wide};
use model::ROW_BYTES;
use row::cells::Row;
use row::group::Group;
use row::place;
use row::three::Three;

// The number n in `width` bytes from `at` on. The width is a constant of a group's type, so that one of the three is left where the call is compiled.
fn put_number(buf: &mut [u8], at: usize, width: usize, n: u64)
    requires there { at + width ≤ length buf.old }
    requires once { at_once width ≡ true }
    requires fits { n < 256 ^ width }
    ensures { buf.new ≡ sets buf.old at (be width n) }
{
    match width {
        2 => put_u16(buf, at, n as u16),
        4 => put_u32(buf, at, n as u32),
        _ => put_u64(buf, at, n),
    }
}

// Cells that stand side by side, the first of them at `at`.
fn put_cells<C: Group>(buf: &mut [u8], at: usize, cells: C)
    requires there { at + total C.widths ≤ length buf.old }
    requires once { at_once (total C.widths) ≡ true }
    ensures { buf.new ≡ sets buf.old at (encode C.widths (C.values cells)) }
{
    put_number(buf, at, C::width(), cells.behind(0));
}

// The cells of x up to GAS, in the row whose first byte is at p.
fn put_up_to_gas(buf: &mut [u8], p: usize, x: Row)
    requires { p + row_bytes ≤ length buf.old }
    ensures { buf.new ≡ part_stored 0 15 (plain x) buf.old p }
{
    let (head, body) = (x.head, x.body);
    put_cells(buf, p + place::STAMP, (head.stamp, head.cn));
    put_cells(buf, p + place::OOOB, (head.ooob, head.ct));
    put_wide(buf, p + place::END1, head.end1);
    put_wide(buf, p + place::END2, head.end2);
    put_cells(buf, p + place::BYTE1, (head.byte1, head.byte2));
    put_wide(buf, p + place::ACC1, head.acc1);
    put_u24(buf, p + place::ACC2, head.acc2);
    put_u24(buf, p + place::MEM, body.mem);
    put_u24(buf, p + place::MEMN, body.memn);
    put_cells(buf, p + place::COST, (body.cost, body.costn));
    put_u32(buf, p + place::GAS, body.gas);
}

// Those from COMP on. Of a cell of three bytes the last three count.
fn put_from_comp(buf: &mut [u8], p: usize, x: Row)
    requires { p + row_bytes ≤ length buf.old }
    ensures { buf.new ≡ part_stored 15 15 (plain x) buf.old p }
{
    let (body, tail) = (x.body, x.tail);
    let dacc_endmax = (Three::last_of(body.dacc), Three::last_of(body.endmax));
    let eacc_q1 = (Three::last_of(tail.eacc), Three::last_of(tail.q1));
    let q1byte_q1acc = (tail.q1byte, Three::last_of(tail.q1acc));
    put_cells(buf, p + place::COMP, ((body.comp, body.dbyte), dacc_endmax));
    put_cells(buf, p + place::FLAG, ((body.flag, tail.ebyte), eacc_q1));
    put_cells(buf, p + place::Q1BYTE, (q1byte_q1acc, tail.q2));
    put_cells(
        buf,
        p + place::Q2BYTE,
        (tail.q2byte, Three::last_of(tail.q2acc)),
    );
    put_cells(buf, p + place::AUX1, (tail.aux1, tail.aux2));
}

// The cells of x as row i.
pub fn put_row(buf: &mut [u8], i: usize, x: Row)
    requires { (i + 1) * row_bytes ≤ length buf.old }
    ensures { buf.new ≡ sets buf.old (i * row_bytes) (encode widths (cells_in columns (plain x))) }
{
    let p = i * ROW_BYTES;
    put_up_to_gas(buf, p, x);
    put_from_comp(buf, p, x);
}
