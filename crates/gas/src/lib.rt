// Bytes, EVM words and gas, each a kind of its own: nothing but the functions here turns one into another.
// Every call answers on every input; the crates above use them, an operator calls none of them.
#![tactic(auto)]

ghost use Rattle.std.specs.Prelude.{◌≡◌, ◌*◌, ◌^◌, ◌<◌};
ghost use Rattle.gas.specs.Gas.{words, cost, split};
ghost use Rattle.gas.specs.Plain.{parts};

// The bytes of an EVM word, the gas of a word, and the divisor of the square in the cost.
pub const WORD_BYTES: u32 = 32;

pub const WORD_GAS: u64 = 3;

pub const SQUARE_DIVISOR: u64 = 512;

// A count of bytes of memory.
#[derive(Clone, Copy, Default, PartialEq, Eq, PartialOrd, Ord)]
pub struct Bytes(pub u32);

// A count of EVM words, of 32 bytes each.
#[derive(Clone, Copy, Default, PartialEq, Eq, PartialOrd, Ord)]
pub struct Words(pub u32);

// An amount of gas.
#[derive(Clone, Copy, Default, PartialEq, Eq, PartialOrd, Ord)]
pub struct Gas(pub u64);

// A square in three parts: 512 times q2, 256 times the bit e, and the last byte.
#[derive(Clone, Copy, Default, PartialEq, Eq)]
pub struct Split {
    pub q2: u64,
    pub e: u8,
    pub low: u8,
}

// The words that so many bytes reach into.
pub fn words_of(b: Bytes) -> Words
    ensures { result.0 ≡ words b.0 }
{
    Words(b.0.div_ceil(WORD_BYTES))
}

// What a memory of so many words costs.
pub fn cost_of(a: Words) -> Gas
    ensures { result.0 ≡ cost a.0 }
{
    let n = u64::from(a.0);
    Gas(WORD_GAS * n + square(n) / SQUARE_DIVISOR)
}

// The parts of the square of so many words.
pub fn split_of(a: Words) -> Split
    ensures { parts result ≡ split a.0 }
{
    let s = square(u64::from(a.0));
    Split {
        q2: s / SQUARE_DIVISOR,
        e: (s % SQUARE_DIVISOR / 256) as u8,
        low: (s % 256) as u8,
    }
}

// The square of a number of 32 bits.
fn square(n: u64) -> u64
    requires { n < 2 ^ 32 }
    ensures { (result ≡ n * n) × (result < 2 ^ 64) }
{
    n * n
}
