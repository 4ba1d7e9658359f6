// Why a call refuses its input: document 01's refusals, each with its number and, where it is of a line of the list, that line.
#![tactic(auto)]

ghost use Rattle.std.specs.Prelude.{◌≡◌};
ghost use Rattle.refusal.specs.Refusals.{number, line};

use std::error::Error;
use std::fmt;

// One case for each refusal; those of a line hold its number, from 1.
#[derive(Clone, Copy, PartialEq, Eq, Debug)]
pub enum Refusal {
    // The list has more bytes than a list may have.
    ListTooLong,
    // No empty row is asked for.
    NoEmptyRow,
    // The line is not of the form.
    NotOfForm { line: u64 },
    // The line's cn is 0.
    CnZero { line: u64 },
    // The line's opcode is not in the table.
    NotListed { line: u64 },
    // A field that the line's opcode has no use for is not 0.
    UnusedField { line: u64 },
    // The list's trace has more rows than a trace may have.
    FillTooLong,
    // The buffer is too short for the list's trace.
    BufferShort,
    // The trace has length 0 or is not a multiple of a row.
    BadLength,
    // The trace has more rows than a trace may have.
    TooManyRows,
    // The trace is not accepted.
    NotAccepted,
    // The trace has no such instruction.
    NoInstruction,
    // The context is 0.
    ContextZero,
    // More cycles are needed than the limit.
    LimitTooLow,
}

impl Refusal {
    // Document 01's number of the refusal.
    pub fn number(self) -> u64
        ensures { result ≡ number self }
    {
        match self {
            Refusal::ListTooLong => 1,
            Refusal::NoEmptyRow => 2,
            Refusal::NotOfForm { line: _ } => 3,
            Refusal::CnZero { line: _ } => 4,
            Refusal::NotListed { line: _ } => 5,
            Refusal::UnusedField { line: _ } => 6,
            Refusal::FillTooLong => 7,
            Refusal::BufferShort => 8,
            Refusal::BadLength => 9,
            Refusal::TooManyRows => 10,
            Refusal::NotAccepted => 11,
            Refusal::NoInstruction => 12,
            Refusal::ContextZero => 13,
            Refusal::LimitTooLow => 14,
        }
    }

    // The line that is refused, from 1; 0, as the numbers for C have it, where the refusal is of no line.
    pub fn line(self) -> u64
        ensures { result ≡ line self }
    {
        match self {
            Refusal::NotOfForm { line } => line,
            Refusal::CnZero { line } => line,
            Refusal::NotListed { line } => line,
            Refusal::UnusedField { line } => line,
            _ => 0,
        }
    }
}

// The line that the programs print, but for its newline.
impl fmt::Display for Refusal {
    ghost use Rattle.std.specs.Prelude.{Some};
    ghost use Rattle.refusal.specs.Refusals.{shown};

    ghost output = { λ r. Some (shown r) };

    fn fmt<W: fmt::Write>(&self, f: &mut fmt::Formatter<W>) -> fmt::Result {
        write!(f, "refused={} line={}", self.number(), self.line())
    }
}

impl Error for Refusal {}
