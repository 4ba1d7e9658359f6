// Values of 17 bytes, the width of END1, END2 and ACC1, as whole numbers.
ghost use Rattle.std.proofs.Common.{rules};
ghost use Rattle.std.specs.Cmp.{partial_order_from_own_ties};
ghost use Rattle.std.specs.Cmp.Rules.{comparing};
ghost use Rattle.std.specs.Ordering.{as_partial_cmp, nat_cmp, on};
ghost use Rattle.std.specs.Prelude.{◌≡◌, ◌+◌, ◌*◌, ◌-◌, ◌^◌, eqb, ltb};
ghost use Rattle.number.specs.Whole.{val, bound};

use std::cmp::Ordering;

// The first byte, the next 8 bytes and the last 8.
#[derive(Clone, Copy)]
pub struct Wide {
    pub top: u8,
    pub hi: u64,
    pub lo: u64,
}

// The first end that is out of bounds, 2^24.
pub const BOUND: u64 = 16777216;

// What the first of eight bytes counts, 2^56: a shift by one byte moves that byte on to the part before.
const FIRST_OF_EIGHT: u64 = 72057594037927936;

// Values are compared as the numbers that they hold. By hand: a derive would tell callers of three parts, and not of the number. Equality tests every part,
// with no branch between.
impl PartialEq for Wide {
    ghost eq = { on val eqb };

    ghost laws = { Prim.search (comparing, rules) };

    fn eq(&self, other: &Wide) -> bool {
        (self.top == other.top) & (self.hi == other.hi) & (self.lo == other.lo)
    }
}

impl Eq for Wide {
    ghost laws = { Prim.search (comparing, rules) };
}

impl Ord for Wide {
    ghost cmp = { on val nat_cmp };

    ghost total = { Prim.search (comparing, rules) };

    ghost matches_partial_cmp = { Prim.search (comparing, rules) };

    ghost matches_eq = { Prim.search (comparing, rules) };

    fn cmp(&self, other: &Wide) -> Ordering {
        order_of(*self, *other)
    }
}

impl PartialOrd for Wide {
    ghost partial_cmp = { as_partial_cmp (on val nat_cmp) };

    ghost laws = { partial_order_from_own_ties (Prim.search (comparing, rules)) (Prim.search (comparing, rules)) };

    fn partial_cmp(&self, other: &Wide) -> Option<Ordering> {
        Some(self.cmp(other))
    }
}

// How a stands to b: the first parts that differ decide.
fn order_of(a: Wide, b: Wide) -> Ordering
    ensures { result ≡ nat_cmp (val a) (val b) }
{
    (a.top, a.hi, a.lo).cmp(&(b.top, b.hi, b.lo))
}

// The 17 bytes of a small number.
impl From<u64> for Wide {
    ghost from_gives = { λ n w. val w ≡ n };

    fn from(n: u64) -> Wide {
        Wide {
            top: 0,
            hi: 0,
            lo: n,
        }
    }
}

// Zero. By hand, as `==` and `cmp` are: a caller learns the number, and not three parts of it.
impl Default for Wide {
    ghost is_default = { λ w. val w ≡ 0 };

    fn default() -> Wide {
        Wide::from(0)
    }
}

// 256 times p, plus the byte b, but for p's first byte, for which there is no room.
pub fn push(p: Wide, b: u8) -> Wide
    ensures { p.top * 256 ^ 17 + val result ≡ 256 * val p + b }
{
    let from_lo = p.lo / FIRST_OF_EIGHT;
    let from_hi = p.hi / FIRST_OF_EIGHT;
    Wide {
        top: from_hi as u8,
        hi: (p.hi % FIRST_OF_EIGHT) * 256 + from_lo,
        lo: (p.lo % FIRST_OF_EIGHT) * 256 + (b as u64),
    }
}

// Whether a is 256 times p, plus the byte b.
pub fn is_next(a: Wide, p: Wide, b: u8) -> bool
    ensures { result ≡ eqb (val a) (256 * val p + b) }
{
    (p.top == 0) & (a == push(p, b))
}

// a less n, and 0 where n is the larger.
pub fn minus(a: Wide, n: u64) -> Wide
    ensures { val result ≡ val a - n }
{
    if n <= a.lo {
        return Wide {
            top: a.top,
            hi: a.hi,
            lo: a.lo - n,
        };
    }
    let lo = u64::MAX - (n - a.lo) + 1;
    if 0 < a.hi {
        return Wide {
            top: a.top,
            hi: a.hi - 1,
            lo,
        };
    }
    if 0 < a.top {
        return Wide {
            top: a.top - 1,
            hi: u64::MAX,
            lo,
        };
    }
    Wide::from(0)
}

// Whether a is in bounds.
pub fn in_bounds(a: Wide) -> bool
    ensures { result ≡ ltb (val a) bound }
{
    a < Wide::from(BOUND)
}

// a less 2^24, and 0 where a is in bounds.
pub fn minus_bound(a: Wide) -> Wide
    ensures { val result ≡ val a - bound }
{
    minus(a, BOUND)
}
