// Lines of text, put together in a lent buffer or on a page of fixed memory: bytes, numbers in decimal, and names with their numbers.
// A call on a buffer asks that there is room, leaves the rest of the buffer as it was and answers the place after what it put. A page keeps its buffer and that
// place, so that what is put next stands behind; the line of a refusal stands alone.
// A Display would promise its text only where nothing fails; these calls put theirs whatever happens.
// Only crates of this repository make these calls.
#![tactic(auto)]

ghost use Rattle.std.specs.Prelude.{◌≡◌, ◌+◌, ◌≤◌, [], ◌++◌, length};
ghost use Rattle.refusal.specs.Refusals.{number, line};
ghost use Rattle.text.specs.Decimal.{decimal, max_digits};
ghost use Rattle.text.specs.Line.{Put, Front, field, refused_line, max_refused_line};

use refusal::Refusal;
use std::marker::Model;

// The most digits of a u64.
const MAX_DIGITS: usize = 20;

// The bytes s from `at` on.
pub fn put_bytes(buf: &mut [u8], at: usize, s: &[u8]) -> usize
    requires { at + length s.now ≤ length buf.old }
    ensures { Put buf.old at s.now buf.new result }
{
    buf[at..at + s.len()].copy_from_slice(s);
    at + s.len()
}

// The number n in decimal from `at` on.
pub fn put_decimal(buf: &mut [u8], at: usize, n: u64) -> usize
    requires { at + max_digits ≤ length buf.old }
    ensures put { Put buf.old at (decimal n) buf.new result }
    ensures upper_bound { result ≤ at + max_digits }
{
    let mut digits = [0u8; MAX_DIGITS];
    let k = io::decimal(n, &mut digits);
    put_bytes(buf, at, &digits[..k])
}

// The name from `at` on and then n in decimal.
pub fn put_field(buf: &mut [u8], at: usize, name: &[u8], n: u64) -> usize
    requires { at + length name.now + max_digits ≤ length buf.old }
    ensures put { Put buf.old at (field name.now n) buf.new result }
    ensures upper_bound { result ≤ at + length name.now + max_digits }
{
    let next = put_bytes(buf, at, name);
    put_decimal(buf, next, n)
}

// The line of a refusal, which a program prints alone, at the start of the buffer: its number and the line of the list.
pub fn put_refusal(buf: &mut [u8], number: u64, line: u64) -> usize
    requires { max_refused_line ≤ length buf.old }
    ensures { Front buf.old (refused_line number line) buf.new result }
{
    let next = put_field(buf, 0, b"refused=", number);
    let end = put_field(buf, next, b" line=", line);
    put_bytes(buf, end, b"\n")
}

// A page with room for N bytes, and the place after those put so far. A clause sees the bytes put; what stands behind them is never read.
#[derive(Drop)]
pub struct Page<const N: usize> {
    bytes: [u8; N],
    end: usize,
}

impl<const N: usize> Model for Page<N> {
    ghost use Rattle.std.specs.Prelude.{ℕ, ◌≤◌, List, take};

    ghost Value = { List ℕ };

    ghost view = { λ p. take p.end p.bytes };

    ghost invariant = { λ p. p.end ≤ N };
}

impl<const N: usize> Page<N> {
    // Nothing is put.
    pub fn new() -> Self
        ensures { result ≡ [] }
    {
        Page {
            bytes: [0; N],
            end: 0,
        }
    }

    // The bytes put so far.
    pub fn bytes(&self) -> &[u8]
        ensures { result.now ≡ self.now }
    {
        &self.bytes[..self.end]
    }

    // Takes back all that was put.
    pub fn clear(&mut self)
        ensures { self.new ≡ [] }
    {
        self.end = 0;
    }

    // Puts the bytes s.
    pub fn put_bytes(&mut self, s: &[u8])
        requires { length self.old + length s.now ≤ N }
        ensures { self.new ≡ self.old ++ s.now }
    {
        let end = put_bytes(&mut self.bytes, self.end, s);
        self.end = end;
    }

    // Puts the number n in decimal.
    pub fn put_decimal(&mut self, n: u64)
        requires { length self.old + max_digits ≤ N }
        ensures put { self.new ≡ self.old ++ decimal n }
        ensures upper_bound { length self.new ≤ length self.old + max_digits }
    {
        let end = put_decimal(&mut self.bytes, self.end, n);
        self.end = end;
    }

    // Puts the name and then n in decimal.
    pub fn put_field(&mut self, name: &[u8], n: u64)
        requires { length self.old + length name.now + max_digits ≤ N }
        ensures put { self.new ≡ self.old ++ field name.now n }
        ensures upper_bound { length self.new ≤ length self.old + length name.now + max_digits }
    {
        let end = put_field(&mut self.bytes, self.end, name, n);
        self.end = end;
    }

    // The line of a refusal, which a program prints alone, in the place of all that was put: its number and the line of the list.
    pub fn put_refusal(&mut self, number: u64, line: u64)
        requires { max_refused_line ≤ N }
        ensures { self.new ≡ refused_line number line }
    {
        let end = put_refusal(&mut self.bytes, number, line);
        self.end = end;
    }

    // The same of a refusal by its case.
    pub fn put_refused(&mut self, r: Refusal)
        requires { max_refused_line ≤ N }
        ensures { self.new ≡ refused_line (number r) (line r) }
    {
        self.put_refusal(r.number(), r.line());
    }
}
