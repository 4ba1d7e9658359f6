// The list reader: from the text of a list to its instructions, line by line.
#![tactic(auto)]

ghost use Rattle.std.specs.Prelude.{◌≡◌};
ghost use Rattle.list.specs.List.{next_line};
ghost use Rattle.list.specs.Told.{told_next};

use claim::instruction::{Instruction, decode_fields};
use form::Stop;
use line::read_line;
use refusal::Refusal;

pub mod line;

// An instruction of a list, and the place after its line.
#[derive(Clone, Copy)]
pub struct Listed {
    pub instruction: Instruction,
    pub next: usize,
}

// Why a line is refused and, where it is not of the form, the place of the first character that cannot continue any line, else 0. Document 01's numbers are
// `next_numbers` of specs/Told.antt.
#[derive(Clone, Copy)]
pub struct Rejected {
    pub why: Refusal,
    pub at: usize,
}

// What a list is refused for keeps the line and drops the place in it.
impl From<Rejected> for Refusal {
    ghost from_gives = { λ r w. w ≡ r.why };

    fn from(r: Rejected) -> Refusal {
        r.why
    }
}

// The instruction that stands in the list t at place p, if the list does not end there; a refusal gets this line number. Every text and place has an answer.
// Only crates of this repository call it. It and what it calls are inlined: a list is read twice, and else each line would go through memory.
#[tactic(auto, using(crate::proofs::PartLaws::made_next, crate::proofs::PartLaws::refused_next), unfolding(crate::specs::List::next_line))]
#[inline(always)]
pub fn next_line(t: &[u8], p: usize, number: u64) -> Result<Option<Listed>, Rejected>
    ensures { result ≡ told_next number (next_line t.now p) }
{
    if t.len() <= p {
        return Ok(None);
    }
    match read_line(t, p) {
        Err(Stop(at)) => Err(Rejected {
            why: Refusal::NotOfForm { line: number },
            at,
        }),
        Ok(line) => match decode_fields(line.value, number) {
            Err(why) => Err(Rejected { why, at: 0 }),
            Ok(instruction) => Ok(Some(Listed {
                instruction,
                next: line.next,
            })),
        },
    }
}
