// The words that the rules are written in: tests and choices, on numbers that are wide enough for every sum; and what the rules ask of cells,
// in these words. Only crates of this repository call these functions.
#![tactic(auto)]

ghost use Rattle.std.specs.Prelude.{◌≡◌, ◌+◌, ◌^◌, ◌<◌, ◌==◌};
ghost use Rattle.number.specs.Whole.{val};
ghost use Rattle.model.specs.Constraints.{last_ct};
ghost use Rattle.model.specs.Tests as tests;

use model::{IN_LAST, OUT_LAST};
use number::wide::Wide;

pub mod amounts;
pub mod steps;
pub mod sums;

// How many values a byte has, with room for sums.
pub(crate) const BASE: u64 = number::BASE as u64;

// The second test has to pass where the first does.
pub fn implies(a: bool, b: bool) -> bool
    ensures { result ≡ tests.implies a b }
{
    !a | b
}

// The first where the test passes, else the second.
pub fn pick<T: Copy>(t: bool, a: T, b: T) -> T
    ensures { result ≡ tests.pick t a b }
{
    if t { a } else { b }
}

// The last CT of a cycle with this OOOB.
#[tactic(auto, unfolding(model::specs::Constraints::last_ct))]
pub fn last_ct(ooob: u8) -> u8
    ensures { result ≡ last_ct ooob }
{
    if ooob == 1 { OUT_LAST } else { IN_LAST }
}

// Whether v is a - b. A difference below 0 equals no cell: the test is made by a sum.
#[tactic(auto, unfolding(model::specs::Tests::is_difference))]
pub(crate) fn is_difference(v: u64, a: u64, b: u64) -> bool
    requires { v + b < 2 ^ 64 }
    ensures { result ≡ tests.is_difference v a b }
{
    v + b == a
}

// Whether a is n + b: the sum's parts, of which each but the last takes on what the part after it carries.
pub(crate) fn is_sum(a: Wide, n: u64, b: Wide) -> bool
    ensures { result ≡ (n + val b == val a) }
{
    let (lo, from_lo) = b.lo.overflowing_add(n);
    let (hi, from_hi) = b.hi.overflowing_add(u64::from(from_lo));
    (lo == a.lo) & (hi == a.hi) & (u64::from(b.top) + u64::from(from_hi) == u64::from(a.top))
}
