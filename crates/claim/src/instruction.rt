// The fields of a line, and the instruction that they are.
ghost use Rattle.std.specs.Prelude.{◌≡◌};
ghost use Rattle.long.specs.Halves.{whole};
ghost use Rattle.opcode.specs.Opcodes.{category_number};
ghost use Rattle.claim.specs.Instruction.{one, range, uses, use_of, unused_zero, decode};
ghost use Rattle.claim.specs.Told.{plain_fields, told_use, told_decoded};

use gas::WORD_BYTES;
use long::Long;
use opcode::{Category, category_of};
use refusal::Refusal;
use state::Context;

// The fields of a line, in their order.
#[derive(Clone, Copy)]
pub struct Fields {
    pub cn: u32,
    pub op: u8,
    pub at1: Long,
    pub len1: Long,
    pub at2: Long,
    pub len2: Long,
}

// A range of offset and length, each in two halves of 64 bits.
#[derive(Clone, Copy)]
pub struct Range {
    pub at: Long,
    pub len: Long,
}

// What an instruction touches: document 01 gives the enum its form.
#[derive(Clone, Copy)]
pub enum Touched {
    Nothing,
    One(Range),
    Two(Range, Range),
}

// An instruction: its context, its opcode and what it touches.
#[derive(Clone, Copy)]
pub struct Instruction {
    pub context: Context,
    pub op: u8,
    pub touched: Touched,
}

// How many of at1, len1, at2 and len2 are used, from the first on, and what is touched.
#[derive(Clone, Copy)]
struct Use {
    fields: u8,
    touched: Touched,
}

// One range is touched, by so many fields.
#[tactic(auto, using(long::proofs::LongLaws::long_is))]
fn one_range(fields: u8, at: Long, len: Long) -> Use
    ensures { result ≡ told_use (uses fields (one (range (whole at) (whole len)))) }
{
    Use {
        fields,
        touched: Touched::One(Range { at, len }),
    }
}

// What a category makes of the fields: the one place that says which of them it uses.
#[tactic(auto, using(long::proofs::LongLaws::long_is, long::proofs::LongLaws::whole_long), unfolding(crate::specs::Instruction::use_of))]
fn use_of(category: Category, f: Fields) -> Use
    ensures { result ≡ told_use (use_of (category_number category) (plain_fields f)) }
{
    match category {
        Category::Nothing => Use {
            fields: 0,
            touched: Touched::Nothing,
        },
        Category::Word => one_range(1, f.at1, Long::from(WORD_BYTES as u64)),
        Category::Byte => one_range(1, f.at1, Long::from(1)),
        Category::Range => one_range(2, f.at1, f.len1),
        Category::TwoRanges => {
            let first = Range {
                at: f.at1,
                len: f.len1,
            };
            let second = Range {
                at: f.at2,
                len: f.len2,
            };
            Use {
                fields: 4,
                touched: Touched::Two(first, second),
            }
        }
    }
}

// Whether each of the four numbers is among the first n, or 0.
fn unused_zero(n: u8, f: Fields) -> bool
    ensures { result ≡ unused_zero n (plain_fields f) }
{
    ((0 < n) | f.at1.is_zero())
        & ((1 < n) | f.len1.is_zero())
        & (((2 < n) | f.at2.is_zero()) & ((3 < n) | f.len2.is_zero()))
}

// The instruction of a line with this number, from its fields: refused are cn 0, then an opcode that is not in the table, then an unused field that is
// not 0.
#[tactic(auto, unfolding(crate::specs::Instruction::decode))]
#[inline(always)]
pub fn decode_fields(f: Fields, line: u64) -> Result<Instruction, Refusal>
    ensures { result ≡ told_decoded line (decode (plain_fields f)) }
{
    if f.cn == 0 {
        return Err(Refusal::CnZero { line });
    }
    let category = category_of(f.op).ok_or(Refusal::NotListed { line })?;
    let used = use_of(category, f);
    if !unused_zero(used.fields, f) {
        return Err(Refusal::UnusedField { line });
    }
    Ok(Instruction {
        context: Context { cn: f.cn },
        op: f.op,
        touched: used.touched,
    })
}
