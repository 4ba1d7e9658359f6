// Numbers below 2^128, the offsets and lengths of a list, as two halves of 64 bits. Only crates of this repository call these functions.
#![tactic(auto)]

ghost use Rattle.std.specs.Prelude.{◌≡◌, ◌+◌, ◌*◌, ◌^◌, ◌<◌, eqb};
ghost use Rattle.number.specs.Whole.{wide};
ghost use Rattle.long.specs.Halves.{whole, long};

use number::wide::Wide;

// The first 64 bits and the last 64.
#[derive(Clone, Copy, PartialEq, Eq, Default)]
pub struct Long {
    pub hi: u64,
    pub lo: u64,
}

// What the first hex digit of a half counts, 2^60: one more digit moves that digit on to the half before.
const FIRST_DIGIT: u64 = 1 << 60;

// A number of 64 bits.
impl From<u64> for Long {
    ghost from_gives = { λ n r. r ≡ long n };

    fn from(n: u64) -> Long {
        Long { hi: 0, lo: n }
    }
}

impl Long {
    // Whether it is 0.
    pub fn is_zero(self) -> bool
        ensures { result ≡ eqb (whole self) 0 }
    {
        self == Long::default()
    }

    // With one hex digit more: 16 times it, plus d.
    pub fn push(self, d: u8) -> Long
        requires { (self.hi < 2 ^ 60) × (d < 16) }
        ensures { result ≡ long (whole self * 16 + d) }
    {
        Long {
            hi: self.hi * 16 + self.lo / FIRST_DIGIT,
            lo: (self.lo % FIRST_DIGIT) * 16 + u64::from(d),
        }
    }
}

// The sum of a and b, which has up to 129 bits.
pub fn sum(a: Long, b: Long) -> Wide
    ensures { result ≡ wide (whole a + whole b) }
{
    let (lo, carry) = a.lo.carrying_add(b.lo, false);
    let (hi, top) = a.hi.carrying_add(b.hi, carry);
    Wide {
        top: u8::from(top),
        hi,
        lo,
    }
}
