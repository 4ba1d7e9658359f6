// Texts of a given form, read from a position on: names, and numbers in lower-case hex. Every reader answers on every text and position: the value and the
// place after it, or the place of the first character that cannot go on. Only crates of this repository call these readers. A text and a
// place in it are two parameters, as each reader answers the next place alone: a struct of both would be taken apart at each step. The most digits that a number
// may have come from the list's line, and each reader that is handed them asks that they fit.
#![tactic(auto)]

ghost use Rattle.std.specs.Prelude.{ℕ, ◌≡◌, ◌&&◌, ◌+◌, ◌*◌, ◌-◌, ◌%◌, ◌^◌, ◌≤◌, ◌<◌, eqb, leb, length};
ghost use Rattle.cell.specs.Low.{low_num};
ghost use Rattle.long.specs.Halves.{whole};
ghost use Rattle.form.specs.Plain.{most_digits, matched, digit_run, number};
ghost use Rattle.form.specs.Read.{char_at, read_text, run, last_place, read_digits, read_number};
ghost use Rattle.form.specs.Table.{digit_in};

use cell::read::low64_at;
use long::Long;
use name::Name;

pub mod name;

// What was read, and the place after it.
#[derive(Clone, Copy)]
pub struct Read<T> {
    pub value: T,
    pub next: usize,
}

// The place of the first character that cannot go on.
#[derive(Clone, Copy)]
pub struct Stop(pub usize);

// What each byte counts as a digit, 16 for what is none: one load tells a digit, where comparisons would branch.
static COUNTS: [u8; 256] = [
    16, 16, 16, 16, 16, 16, 16, 16, 16, 16, 16, 16, 16, 16, 16, 16, 16, 16, 16, 16, 16, 16, 16, 16,
    16, 16, 16, 16, 16, 16, 16, 16, 16, 16, 16, 16, 16, 16, 16, 16, 16, 16, 16, 16, 16, 16, 16, 16,
    // `0` to `9`
    0, 1, 2, 3, 4, 5, 6, 7, 8, 9, 16, 16, 16, 16, 16, 16, 16, 16, 16, 16, 16, 16, 16, 16, 16, 16,
    16, 16, 16, 16, 16, 16, 16, 16, 16, 16, 16, 16, 16, 16, 16, 16, 16, 16, 16, 16, 16, 16,
    // `a` to `f`
    16, 10, 11, 12, 13, 14, 15, 16, 16, 16, 16, 16, 16, 16, 16, 16, 16, 16, 16, 16, 16, 16, 16, 16,
    16, 16, 16, 16, 16, 16, 16, 16, 16, 16, 16, 16, 16, 16, 16, 16, 16, 16, 16, 16, 16, 16, 16, 16,
    16, 16, 16, 16, 16, 16, 16, 16, 16, 16, 16, 16, 16, 16, 16, 16, 16, 16, 16, 16, 16, 16, 16, 16,
    16, 16, 16, 16, 16, 16, 16, 16, 16, 16, 16, 16, 16, 16, 16, 16, 16, 16, 16, 16, 16, 16, 16, 16,
    16, 16, 16, 16, 16, 16, 16, 16, 16, 16, 16, 16, 16, 16, 16, 16, 16, 16, 16, 16, 16, 16, 16, 16,
    16, 16, 16, 16, 16, 16, 16, 16, 16, 16, 16, 16, 16, 16, 16, 16, 16, 16, 16, 16, 16, 16, 16, 16,
    16, 16, 16, 16, 16, 16, 16, 16, 16, 16, 16, 16, 16, 16, 16, 16,
];

// What a character counts as a digit, if it is one.
fn digit(c: u8) -> Option<u8>
    ensures { result ≡ digit_in c }
{
    let count = COUNTS[c as usize];
    if count < 16 { Some(count) } else { None }
}

// What the character at p counts as a digit, if there is one that is.
fn digit_at(t: &[u8], p: usize) -> Option<u8>
    ensures { result ≡ digit_in (char_at t.now p) }
{
    if p < t.len() { digit(t[p]) } else { None }
}

// Whether the character at p is there and is this one.
pub fn has_char(t: &[u8], p: usize, c: u8) -> bool
    ensures { result ≡ eqb (char_at t.now p) c }
{
    match t.get(p) {
        Some(x) => *x == c,
        None => false,
    }
}

// Whether eight characters from p on are there and begin with the name's.
fn stands(t: &[u8], p: usize, name: Name) -> bool
    ensures { result ≡ (leb (p + 8) (length t.now) && eqb (low_num t.now p 8 % 256 ^ length name.text.now) name.number) }
{
    if t.len() <= p {
        return false;
    }
    if t.len() - p < 8 {
        return false;
    }
    low64_at(t, p) % (1 << (8 * name.text.len())) == name.number
}

// The characters of a name from p on, one by one. The place goes along, since it is what is answered.
fn walk_name(t: &[u8], p: usize, name: &[u8]) -> Result<usize, Stop>
    ensures { matched result ≡ read_text name.now t.now p }
{
    let mut at = p;
    for c in name {
        if !has_char(t, at, *c) {
            return Err(Stop(at));
        }
        at += 1;
    }
    Ok(at)
}

// The characters of a name from p on: in one comparison where they stand there, else one by one to the first that differs.
pub fn read_name(t: &[u8], p: usize, name: Name) -> Result<usize, Stop>
    ensures { matched result ≡ read_text name.text.now t.now p }
{
    if stands(t, p, name) {
        return Ok(p + name.text.len());
    }
    walk_name(t, p, name.text)
}

// A number that takes more hex digits at its end.
trait Spelled: Copy {
    // The number.
    ghost value: { Self → ℕ };

    // How many digits it may have before one more.
    ghost most: { ℕ };

    // With one digit more.
    fn with_digit(self, d: u8) -> Self
        requires has_room { value self < 16 ^ most }
        requires is_digit { d < 16 }
        ensures { value result ≡ value self * 16 + d };
}

// 16 hex digits fill 64 bits.
impl Spelled for u64 {
    ghost value = { λ n. n };

    ghost most = { 15 };

    fn with_digit(self, d: u8) -> u64 {
        self * 16 + u64::from(d)
    }
}

// And 32 fill 128.
impl Spelled for Long {
    ghost value = { whole };

    ghost most = { 31 };

    fn with_digit(self, d: u8) -> Long {
        self.push(d)
    }
}

// Where a run of at most so many digits from p on ends at the latest.
fn last_place(t: &[u8], p: usize, most: usize) -> usize
    ensures { result ≡ last_place t.now p most }
{
    p.saturating_add(most).min(t.len()).max(p)
}

// The digits from p on, at most so many, after those that spell `start`, which has room for them.
fn run_on<N: Spelled>(t: &[u8], start: N, p: usize, most: usize) -> Read<N>
    requires room { most ≤ N.most + 1 }
    requires small { N.value start < 16 ^ (N.most + 1 - most) }
    ensures run { digit_run N.value result ≡ run most t.now (N.value start) p }
    ensures forward { p ≤ result.next }
{
    let end = last_place(t, p, most);
    let mut value = start;
    for at in p..end {
        let Some(d) = digit(t[at]) else {
            return Read { value, next: at };
        };
        value = value.with_digit(d);
    }
    Read { value, next: end }
}

// The digits from p on, at most so many: 16 of them fill a number of 64 bits, and what comes behind needs a longer one.
fn run_digits(t: &[u8], p: usize, most: usize) -> Read<Long>
    requires { most ≤ most_digits }
    ensures run { digit_run whole result ≡ run most t.now 0 p }
    ensures forward { p ≤ result.next }
{
    let first = run_on(t, 0u64, p, most.min(16));
    let start = Long::from(first.value);
    let next = first.next;
    if next - p < 16 {
        return Read { value: start, next };
    }
    run_on(t, start, next, most - 16)
}

// A number in at least so many digits and at most so many, from p on.
fn read_digits(t: &[u8], p: usize, least: usize, most: usize) -> Result<Read<Long>, Stop>
    requires { most ≤ most_digits }
    ensures { number result ≡ read_digits least most t.now p }
{
    let digits = run_digits(t, p, most);
    if digits.next - p < least {
        return Err(Stop(digits.next));
    }
    Ok(digits)
}

// A number in one to so many digits, without leading zero, zero as `0`, from p on: a zero in front stands alone.
pub fn read_number(t: &[u8], p: usize, most: usize) -> Result<Read<Long>, Stop>
    requires { most ≤ most_digits }
    ensures { number result ≡ read_number most t.now p }
{
    if has_char(t, p, b'0') {
        return Ok(Read {
            value: Long::default(),
            next: p + 1,
        });
    }
    read_digits(t, p, 1, most)
}

// A number in exactly two digits, from p on.
pub fn read_pair(t: &[u8], p: usize) -> Result<Read<Long>, Stop>
    ensures { number result ≡ read_digits 2 2 t.now p }
{
    let Some(a) = digit_at(t, p) else {
        return Err(Stop(p));
    };
    let q = p + 1;
    let Some(b) = digit_at(t, q) else {
        return Err(Stop(q));
    };
    Ok(Read {
        value: Long::from(u64::from(a * 16 + b)),
        next: q + 1,
    })
}
