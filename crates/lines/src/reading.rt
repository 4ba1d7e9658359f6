// The claims of a list, line by line.
ghost use Rattle.std.specs.Prelude.{◌≤◌, length};
ghost use Rattle.lines.specs.Lines.{max_list};

use claim::claim::{Claim, claim_of};
use list::next_line;
use refusal::Refusal;

// A reading of a list: how many lines were read, and the place behind them. It is no Iterator: behind a refused line there is nothing that one could go on
// with, so `next` has the refusal outermost, and callers pass it on by `?`.
#[derive(Drop)]
pub(crate) struct Claims<'a> {
    list: &'a [u8],
    at: usize,
    lines: usize,
    ghost short: { length list.now ≤ max_list },
    ghost inside: { at ≤ length list.now },
    ghost ahead: { lines ≤ at },
}

impl<'a> Claims<'a> {
    ghost use Rattle.std.specs.Prelude.{◌≡◌, ◌+◌};
    ghost use Rattle.list.specs.List.{next_line};
    ghost use Rattle.lines.specs.Reading.{told_claimed, place_after, lines_after};

    // The claims of the list, from its first line on.
    pub(crate) fn of(list: &'a [u8]) -> Claims<'a>
        requires { length list.now ≤ max_list }
        ensures list { result.list.now ≡ list.now }
        ensures at { result.at ≡ 0 }
        ensures lines { result.lines ≡ 0 }
    {
        Claims {
            list,
            at: 0,
            lines: 0,
        }
    }

    // The claim of the next line, if the list has one more, or why that line is refused. Inlined, so that a claim stays in registers.
    #[inline(always)]
    pub(crate) fn next(&mut self) -> Result<Option<Claim>, Refusal>
        ensures value { result ≡ told_claimed (self.old.lines + 1) (next_line self.old.list.now self.old.at) }
        ensures list { self.new.list.now ≡ self.old.list.now }
        ensures at { self.new.at ≡ place_after self.old.at (next_line self.old.list.now self.old.at) }
        ensures lines { self.new.lines ≡ lines_after self.old.lines (next_line self.old.list.now self.old.at) }
    {
        let number = self.lines as u64 + 1;
        let Some(line) = next_line(self.list, self.at, number)? else {
            return Ok(None);
        };
        self.at = line.next;
        self.lines += 1;
        Ok(Some(claim_of(line.instruction)))
    }
}
