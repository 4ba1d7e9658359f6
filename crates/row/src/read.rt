// The parts of a row, read from its bytes: straight on, cell by cell. Three functions of one shape, since three structs have their cells by name.
#![tactic(auto)]

ghost use Rattle.row.specs.Places.{HeadAt, BodyAt, TailAt};

use crate::cells::{Body, Head, Tail};
use crate::place;
use cell::read::{u8_at, u24_at, u32_at, wide_at};
use model::ROW_BYTES;

pub(crate) fn head_of(row: &[u8; ROW_BYTES]) -> Head
    ensures { HeadAt row.now 0 result }
{
    Head {
        stamp: u32_at(row, place::STAMP),
        cn: u32_at(row, place::CN),
        ooob: u8_at(row, place::OOOB),
        ct: u8_at(row, place::CT),
        end1: wide_at(row, place::END1),
        end2: wide_at(row, place::END2),
        byte1: u8_at(row, place::BYTE1),
        byte2: u8_at(row, place::BYTE2),
        acc1: wide_at(row, place::ACC1),
        acc2: u24_at(row, place::ACC2),
    }
}

pub(crate) fn body_of(row: &[u8; ROW_BYTES]) -> Body
    ensures { BodyAt row.now 0 result }
{
    Body {
        mem: u24_at(row, place::MEM),
        memn: u24_at(row, place::MEMN),
        cost: u32_at(row, place::COST),
        costn: u32_at(row, place::COSTN),
        gas: u32_at(row, place::GAS),
        comp: u8_at(row, place::COMP),
        dbyte: u8_at(row, place::DBYTE),
        dacc: u24_at(row, place::DACC),
        endmax: u24_at(row, place::ENDMAX),
        flag: u8_at(row, place::FLAG),
    }
}

pub(crate) fn tail_of(row: &[u8; ROW_BYTES]) -> Tail
    ensures { TailAt row.now 0 result }
{
    Tail {
        ebyte: u8_at(row, place::EBYTE),
        eacc: u24_at(row, place::EACC),
        q1: u24_at(row, place::Q1),
        q1byte: u8_at(row, place::Q1BYTE),
        q1acc: u24_at(row, place::Q1ACC),
        q2: u32_at(row, place::Q2),
        q2byte: u8_at(row, place::Q2BYTE),
        q2acc: u24_at(row, place::Q2ACC),
        aux1: u8_at(row, place::AUX1),
        aux2: u8_at(row, place::AUX2),
    }
}
