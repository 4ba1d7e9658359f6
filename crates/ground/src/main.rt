// Runs `number`, `cell` and `gas` on the vectors of data/, whose answers were worked out apart from them. Prints each cost, and for
// each file how many vectors it has and how many of them are wrong: none, or in a file of wrong answers all.
#![tactic(auto)]

ghost use Rattle.std.specs.Prelude.{◌≡◌, true, ◌/◌, length};
ghost use Rattle.std.proofs.lemmas.List.Edits.{sets};
ghost use Rattle.number.specs.Cells.{encode, decode};
ghost use Rattle.ground.specs.Agree.{agrees, costs_agree, splits_agree, orders_agree, steps_agree, differences_agree, cells_agree, widths, vector_bytes, vectors_in, wrong_among, Tallied};

use cell::read::{u8_at, u24_at, u32_at, wide_at};
use console::read_full;
use gas::{Bytes, Words};
use number::wide::{Wide, in_bounds, is_next, minus, minus_bound, push};
use std::{fmt, fs, io};

// The bytes that a vector stands in.
const VECTOR_BYTES: usize = 64;

// The bytes of one vector: what it says stands in the first of them.
type Vector = [u8; VECTOR_BYTES];

// The bytes that the four cells of a vector of cells stand in.
const CELL_BYTES: usize = 25;

// The most bytes of a file that are read.
const FILE_BYTES: usize = 65536;

// What the vectors of a file are about: a value, since the definitions say by it what each vector claims.
#[derive(Clone, Copy)]
pub enum Kind {
    Costs,
    Splits,
    Orders,
    Steps,
    Differences,
    Cells,
}

// How many vectors a file has, and how many of them are wrong.
#[derive(Clone, Copy)]
pub struct Tally {
    pub vectors: usize,
    pub wrong: usize,
}

impl fmt::Display for Tally {
    fn fmt<W: fmt::Write>(&self, f: &mut fmt::Formatter<W>) -> fmt::Result {
        write!(f, "vectors={} wrong={}", self.vectors, self.wrong)
    }
}

// Whether the vector says what is so: a function for each kind, whose definition says where its numbers stand.

fn costs_agree(v: &Vector) -> bool
    ensures { result ≡ costs_agree v.now 0 }
{
    let a = gas::words_of(Bytes(u32_at(v, 0)));
    let c = gas::cost_of(a);
    (a.0 == u32_at(v, 4)) & (Wide::from(c.0) == wide_at(v, 8))
}

fn splits_agree(v: &Vector) -> bool
    ensures { result ≡ splits_agree v.now 0 }
{
    let s = gas::split_of(Words(u32_at(v, 0)));
    (Wide::from(s.q2) == wide_at(v, 4)) & (s.e == u8_at(v, 21)) & (s.low == u8_at(v, 22))
}

fn orders_agree(v: &Vector) -> bool
    ensures { result ≡ orders_agree v.now 0 }
{
    let a = wide_at(v, 0);
    let b = wide_at(v, 17);
    (u8::from(a == b) == u8_at(v, 34))
        & (u8::from(a < b) == u8_at(v, 35))
        & (u8::from(in_bounds(a)) == u8_at(v, 36))
}

fn steps_agree(v: &Vector) -> bool
    ensures { result ≡ steps_agree v.now 0 }
{
    let a = wide_at(v, 0);
    let b = wide_at(v, 17);
    let next = u8_at(v, 34);
    (push(b, next) == wide_at(v, 35)) & (u8::from(is_next(a, b, next)) == u8_at(v, 52))
}

fn differences_agree(v: &Vector) -> bool
    ensures { result ≡ differences_agree v.now 0 }
{
    let a = wide_at(v, 0);
    let n = u64::from(u32_at(v, 17));
    (minus(a, n) == wide_at(v, 21)) & (minus_bound(a) == wide_at(v, 38))
}

// Reads the four cells and writes them to out, which they fill.
fn copy_cells(v: &Vector, out: &mut [u8; CELL_BYTES])
    ensures { out.new ≡ sets out.old 0 (encode widths (decode widths v.now 0)) }
{
    cell::write::put_u8(out, 0, u8_at(v, 0));
    cell::write::put_u24(out, 1, u24_at(v, 1));
    cell::write::put_u32(out, 4, u32_at(v, 4));
    cell::write::put_wide(out, 8, wide_at(v, 8));
}

// Whether the four cells, read and written, are the bytes that stand there. By the contracts they are; a run sees whether the
// compiled code keeps to that.
fn copies_back(v: &Vector) -> bool
    ensures { result ≡ true }
{
    let mut out = [0u8; CELL_BYTES];
    copy_cells(v, &mut out);
    check::same(&out, &v[..CELL_BYTES])
}

fn cells_agree(v: &Vector) -> bool
    ensures { result ≡ cells_agree v.now 0 }
{
    copies_back(v) & (u24_at(v, 1) == u32_at(v, 25))
}

// The same for a vector of any kind.
fn agree(kind: Kind, v: &Vector) -> bool
    ensures { result ≡ agrees kind v.now 0 }
{
    match kind {
        Kind::Costs => costs_agree(v),
        Kind::Splits => splits_agree(v),
        Kind::Orders => orders_agree(v),
        Kind::Steps => steps_agree(v),
        Kind::Differences => differences_agree(v),
        Kind::Cells => cells_agree(v),
    }
}

// The whole vectors of a file's bytes.
fn vectors_in(t: &[u8]) -> &[Vector]
    ensures value { result.now ≡ vectors_in t.now }
    ensures count { length result.now ≡ length t.now / vector_bytes }
{
    t.as_chunks().0
}

// How many of the vectors are wrong.
fn wrong_of(kind: Kind, vectors: &[Vector]) -> usize
    ensures { result ≡ wrong_among kind vectors.now }
{
    vectors.iter().filter(|v| !agree(kind, v)).count()
}

// How many vectors t has, and how many of them are wrong.
fn tallied(kind: Kind, t: &[u8]) -> Tally
    ensures { Tallied kind t.now result.vectors result.wrong }
{
    let vectors = vectors_in(t);
    Tally {
        vectors: vectors.len(),
        wrong: wrong_of(kind, vectors),
    }
}

// Prints the words and the cost of an end.
fn show_cost(rt: &HostRuntime, end: Bytes) -> io::Result<()> {
    let a = gas::words_of(end);
    let c = gas::cost_of(a);
    println!(rt; "end={} words={} cost={}", end.0, a.0, c.0)
}

// Prints a line for each vector of a file of costs.
fn show_costs(rt: &HostRuntime, t: &[u8]) -> io::Result<()> {
    for v in vectors_in(t) {
        show_cost(rt, Bytes(u32_at(v, 0)))?;
    }
    Ok(())
}

// Prints the tally of a file, and says so if it cannot be opened.
fn run(rt: &HostRuntime, path: &str, kind: Kind, show: bool) -> io::Result<()> {
    let mut file = match fs::open(rt, path) {
        Ok(file) => file,
        Err(e) => return eprintln!(rt; "{path}: {e}"),
    };
    let mut buffer = [0u8; FILE_BYTES];
    let n = read_full(&mut file, &mut buffer)?;
    let t = &buffer[..n];
    if show {
        show_costs(rt, t)?;
    }
    println!(rt; "{path} {}", tallied(kind, t))
}

fn main(rt: HostRuntime) -> io::Result<()> {
    run(&rt, "costs.bin", Kind::Costs, true)?;
    run(&rt, "costs_wrong.bin", Kind::Costs, false)?;
    run(&rt, "splits.bin", Kind::Splits, false)?;
    run(&rt, "splits_wrong.bin", Kind::Splits, false)?;
    run(&rt, "orders.bin", Kind::Orders, false)?;
    run(&rt, "orders_wrong.bin", Kind::Orders, false)?;
    run(&rt, "steps.bin", Kind::Steps, false)?;
    run(&rt, "steps_wrong.bin", Kind::Steps, false)?;
    run(&rt, "differences.bin", Kind::Differences, false)?;
    run(&rt, "differences_wrong.bin", Kind::Differences, false)?;
    run(&rt, "cells.bin", Kind::Cells, false)?;
    run(&rt, "cells_wrong.bin", Kind::Cells, false)
}
