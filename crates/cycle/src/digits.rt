// The three digits of a number at base 256, one for each row of an in-bounds cycle, and what the first of them spell.
ghost use Rattle.std.specs.Prelude.{◌≡◌};
ghost use Rattle.number.specs.Sums.{prefix_at, digit_at};
ghost use Rattle.model.specs.Constraints.{in_last};
ghost use Rattle.model.specs.Trace.{in_rows};

use number::BASE;

// What the digits of v up to row i spell.
#[tactic(auto, using(crate::proofs::DigitLaws::prefix_past), unfolding(number::specs::Sums::prefix_at))]
pub(crate) fn prefix(v: u32, i: u8) -> u32
    ensures { result ≡ prefix_at in_last v i }
{
    match i {
        0 => v / (BASE * BASE),
        1 => v / BASE,
        _ => v,
    }
}

// The digit of v in row i.
#[tactic(auto, unfolding(number::specs::Sums::digit_at))]
pub(crate) fn digit(v: u32, i: u8) -> u8
    ensures { result ≡ digit_at in_last v i }
{
    (prefix(v, i) % BASE) as u8
}

// What stands in row i, where a, b and c stand one below the other. An array would ask that i is below 3.
#[tactic(auto, using(crate::proofs::DigitLaws::in_rows_past))]
pub(crate) fn in_rows(a: u8, b: u8, c: u8, i: u8) -> u8
    ensures { result ≡ in_rows a b c i }
{
    match i {
        0 => a,
        1 => b,
        _ => c,
    }
}
