// The bytes of one row, lent from a trace: whether the row is there is asked once, where the view is made, and no reader of a cell asks it again. Only crates of
// this repository make such a view.
#![tactic(auto, unfolding(model::specs::Columns::row_at, number::specs::Cells::decode))]

ghost use Rattle.std.specs.Prelude.{◌≡◌, ◌+◌, ◌*◌, ◌≤◌, length};
ghost use Rattle.number.specs.Whole.{val};
ghost use Rattle.model.specs.Columns.{row_bytes, row_at};
ghost use Rattle.row.specs.Plain.{plain};

use crate::cells::Row;
use crate::place;
use crate::read::{body_of, head_of, tail_of};
use cell::read::{u8_at, u24_at, u32_at, wide_at};
use model::ROW_BYTES;
use number::wide::Wide;
use std::marker::Model;

// The 114 bytes of a row. A clause sees the thirty cells that stand in them.
#[derive(Drop)]
pub struct RowBytes<'a> {
    bytes: &'a [u8],
}

impl<'a> Model for RowBytes<'a> {
    ghost use Rattle.std.specs.Prelude.{◌≡◌, length};
    ghost use Rattle.model.specs.Columns.{Cells, row_bytes, row_at};

    ghost Value = { Cells };

    ghost view = { λ r. row_at r.bytes.now 0 };

    ghost invariant = { λ r. length r.bytes.now ≡ row_bytes };
}

impl<'a> RowBytes<'a> {
    // Row i of the trace.
    pub fn of_row(trace: &'a [u8], i: usize) -> RowBytes<'a>
        requires { (i + 1) * row_bytes ≤ length trace.now }
        ensures { result ≡ row_at trace.now i }
    {
        let p = i * ROW_BYTES;
        RowBytes {
            bytes: &trace[p..p + ROW_BYTES],
        }
    }

    // The thirty cells.
    pub fn read(&self) -> Row
        ensures { plain result ≡ self.now }
    {
        let bytes = self.bytes();
        Row {
            head: head_of(bytes),
            body: body_of(bytes),
            tail: tail_of(bytes),
        }
    }

    // The bytes themselves, for what compares several cells at once.
    pub fn bytes(&self) -> &'a [u8; ROW_BYTES]
        ensures { row_at result.now 0 ≡ self.now }
    {
        <&[u8; ROW_BYTES]>::try_from(self.bytes).unwrap()
    }

    // One cell each, by its name, as a struct has a field for each.

    pub fn stamp(&self) -> u32
        ensures { result ≡ self.now.stamp }
    {
        u32_at(self.bytes, place::STAMP)
    }

    pub fn cn(&self) -> u32
        ensures { result ≡ self.now.cn }
    {
        u32_at(self.bytes, place::CN)
    }

    pub fn ooob(&self) -> u8
        ensures { result ≡ self.now.ooob }
    {
        u8_at(self.bytes, place::OOOB)
    }

    pub fn ct(&self) -> u8
        ensures { result ≡ self.now.ct }
    {
        u8_at(self.bytes, place::CT)
    }

    pub fn end1(&self) -> Wide
        ensures { val result ≡ self.now.end1 }
    {
        wide_at(self.bytes, place::END1)
    }

    pub fn end2(&self) -> Wide
        ensures { val result ≡ self.now.end2 }
    {
        wide_at(self.bytes, place::END2)
    }

    pub fn memn(&self) -> u32
        ensures { result ≡ self.now.memn }
    {
        u24_at(self.bytes, place::MEMN)
    }

    pub fn costn(&self) -> u32
        ensures { result ≡ self.now.costn }
    {
        u32_at(self.bytes, place::COSTN)
    }
}
