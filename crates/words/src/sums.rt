// "Sums up X into Y": cells into which the bytes of a cycle sum up, row by row.
ghost use Rattle.std.specs.Prelude.{◌≡◌, ◌+◌, ◌*◌, ℕ, eqb};
ghost use Rattle.number.specs.Whole.{val};
ghost use Rattle.model.specs.Tests as tests;

use crate::{BASE, pick};
use number::wide::{Wide, is_next};

// A cell into which bytes sum up.
pub trait SumCell: Copy {
    // The number that it holds.
    ghost number: { Self → ℕ };

    // Whether it is the byte x.
    fn is_byte(self, x: u8) -> bool
        ensures { result ≡ eqb (number self) x };

    // Whether it is 256 times the cell of the row before, plus the byte x.
    fn goes_on(self, before: Self, x: u8) -> bool
        ensures { result ≡ eqb (number self) (256 * number before + x) };
}

// ACC2, DACC, EACC, Q1ACC and Q2ACC.
impl SumCell for u32 {
    ghost number = { λ n. n };

    fn is_byte(self, x: u8) -> bool {
        self == u32::from(x)
    }

    fn goes_on(self, before: u32, x: u8) -> bool {
        u64::from(self) == BASE * u64::from(before) + u64::from(x)
    }
}

// ACC1.
impl SumCell for Wide {
    ghost number = { val };

    fn is_byte(self, x: u8) -> bool {
        self == Wide::from(u64::from(x))
    }

    fn goes_on(self, before: Wide, x: u8) -> bool {
        is_next(self, before, x)
    }
}

// Whether x sums up into y: y is x where CT=0, else 256 times y of the row before, plus x.
#[tactic(auto, using(crate::proofs::WordLaws::sums_up_picks))]
pub fn sums_up<T: SumCell>(ct: u8, before: T, x: u8, y: T) -> bool
    ensures { result ≡ tests.sums_up ct (T.number before) x (T.number y) }
{
    pick(ct == 0, y.is_byte(x), y.goes_on(before, x))
}
