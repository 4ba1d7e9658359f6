// What constraints 16, 19 to 22 and 25 ask of a row's cells, as numbers.
ghost use Rattle.std.specs.Prelude.{◌≡◌, ◌+◌, ◌*◌, ◌^◌, ◌&&◌, ◌==◌, nat_eq, nat_le};
ghost use Rattle.number.specs.Whole.{val, bound};
ghost use Rattle.gas.specs.Gas.{word_bytes, joined};
ghost use Rattle.model.specs.Constraints.{aux_lift};
ghost use Rattle.model.specs.Tests as tests;

use crate::{BASE, is_difference, is_sum, pick};
use gas::{SQUARE_DIVISOR, WORD_BYTES};
use model::AUX_LIFT;
use number::wide::{BOUND, Wide, in_bounds};

// What is added to AUX1, so that only a number below 32 leaves a byte: 256-32.
const LIFT: u64 = AUX_LIFT as u64;

// What the first of four bytes counts, 256^3.
const FIRST_OF_FOUR: u64 = number::FIRST_OF_FOUR as u64;

// ENDMAX is END1 if COMP=1, else END2.
#[tactic(auto, using(crate::proofs::WordLaws::val_pick))]
pub fn is_chosen(comp: u8, end1: Wide, end2: Wide, endmax: u32) -> bool
    ensures { result ≡ (endmax == tests.pick (comp == 1) (val end1) (val end2)) }
{
    Wide::from(u64::from(endmax)) == pick(comp == 1, end1, end2)
}

// DACC = END1-END2 if COMP=1, else END2-END1-1.
pub fn is_gap(comp: u8, dacc: u32, end1: Wide, end2: Wide) -> bool
    ensures { result ≡ tests.pick (comp == 1) (tests.is_difference dacc (val end1) (val end2)) (tests.is_difference dacc (val end2) (val end1 + 1)) }
{
    let gap = u64::from(dacc);
    let first = is_sum(end1, gap, end2);
    let second = is_sum(end2, gap + 1, end1);
    pick(comp == 1, first, second)
}

// EACC = ENDMAX-MEM-1 if FLAG=1, else MEM-ENDMAX.
pub fn is_excess(flag: u8, eacc: u32, endmax: u32, mem: u32) -> bool
    ensures { result ≡ tests.pick (flag == 1) (tests.is_difference eacc endmax (mem + 1)) (tests.is_difference eacc mem endmax) }
{
    let excess = u64::from(eacc);
    let reached = u64::from(endmax);
    let before = u64::from(mem);
    let above = is_difference(excess, reached, before + 1);
    let below = is_difference(excess, before, reached);
    pick(flag == 1, above, below)
}

// Q1ACC=Q1; AUX1 one row before = AUX1+224; ENDMAX-1 = 32*Q1+AUX1.
pub fn is_rounded(q1: u32, q1acc: u32, aux1_before: u8, aux1: u8, endmax: u32) -> bool
    ensures { result ≡ (q1acc == q1 && nat_eq aux1_before (aux1 + aux_lift) && tests.is_difference (word_bytes * q1 + aux1) endmax 1) }
{
    let rest = u64::from(aux1);
    let rounded = u64::from(WORD_BYTES) * u64::from(q1) + rest;
    (q1acc == q1)
        & (u64::from(aux1_before) == rest + LIFT)
        & is_difference(rounded, u64::from(endmax), 1)
}

// Whether v is (1+Q1)^2, which has 65 bits for the largest number of 32 bits alone.
fn is_square(q1: u32, v: u64) -> bool
    ensures { result ≡ ((1 + q1) * (1 + q1) == v) }
{
    let n = 1 + u64::from(q1);
    n.checked_mul(n) == Some(v)
}

// AUX2 two rows before (e) is 0 or 1; Q2 = Q2ACC + 256^3 * (AUX2 one row before); (1+Q1)^2 = 512*Q2 + 256*e + AUX2.
#[tactic(auto, unfolding(gas::specs::Gas::joined))]
pub fn is_split(q1: u32, q2: u32, q2acc: u32, e: u8, aux2_before: u8, aux2: u8) -> bool
    ensures { result ≡ (nat_le e 1 && (q2 == q2acc + 256 ^ 3 * aux2_before)
        && (1 + q1) * (1 + q1) == joined (record { q2 = q2; e = e; low = aux2 })) }
{
    let whole = u64::from(q2);
    let joined = SQUARE_DIVISOR * whole + BASE * u64::from(e) + u64::from(aux2);
    (e <= 1)
        & (whole == u64::from(q2acc) + FIRST_OF_FOUR * u64::from(aux2_before))
        & is_square(q1, joined)
}

// ACC1 = END1-2^24 if END1 is at least 2^24, else END2-2^24.
pub fn is_beyond(end1: Wide, end2: Wide, acc1: Wide) -> bool
    ensures { result ≡ tests.is_difference (val acc1) (tests.pick (nat_le bound (val end1)) (val end1) (val end2)) bound }
{
    let end = pick(in_bounds(end1), end2, end1);
    is_sum(end, BOUND, acc1)
}
