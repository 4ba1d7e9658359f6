// What is known of the rows before a row of a trace: the latest rows of contexts in a small table, and the lowest and the highest context seen. The state
// of a context before the row is found by them at once, and the look-up back cycle by cycle is left for contexts that share an entry. Only crates of this
// repository call these functions.
#![tactic(auto)]

ghost use Rattle.std.specs.Prelude.{◌≡◌, ◌≢◌, ◌<◌, length, slice_index, MatchOption};
ghost use Rattle.model.specs.Columns.{row_at};
ghost use Rattle.model.specs.Verdict.{max_rows};
ghost use Rattle.state.specs.Plain.{context, state};
ghost use Rattle.recent.specs.Notes.{Recent, nothing_noted, noted, slot_of, plain_span, no_span, outside, wider, noted_in, recalled};

use row::view::RowBytes;
use state::look::state_before;
use state::{Context, State};
use std::marker::Model;

// How many entries the table has. Before the first row each of them is 0, which stands for none: row 0 is always empty, and so an entry takes two bytes.
pub const SLOTS: usize = 1024;

// The contexts from a lowest to a highest.
#[derive(Clone, Copy)]
pub struct Span {
    lowest: Context,
    highest: Context,
}

impl Span {
    // The span of no context: each is outside.
    fn none() -> Self
        ensures { plain_span result ≡ no_span }
    {
        Span {
            lowest: Context { cn: u32::MAX },
            highest: Context { cn: 0 },
        }
    }

    // The span with one context more.
    #[tactic(auto, unfolding(state::specs::Order::lower_context))]
    fn widened(self, x: Context) -> Self
        ensures { plain_span result ≡ wider (plain_span self) (context x) }
    {
        Span {
            lowest: x.min(self.lowest),
            highest: x.max(self.highest),
        }
    }

    // Whether the context is outside of the span.
    #[tactic(auto, unfolding(crate::specs::Notes::outside, state::specs::Order::lower_context))]
    fn is_outside(self, x: Context) -> bool
        ensures { result ≡ outside (plain_span self) (context x) }
    {
        (x < self.lowest) | (self.highest < x)
    }
}

// The entry of a context.
fn slot_of(x: Context) -> usize
    ensures { result ≡ slot_of (context x) }
{
    x.cn as usize % SLOTS
}

// What is known of the rows before a row: the notes, and the span of their contexts.
#[derive(Drop)]
pub struct Recent {
    notes: [u16; SLOTS],
    span: Span,
}

impl Model for Recent {
    ghost Value = { Recent };

    ghost view = { λ a. record { notes = a.notes; span = plain_span a.span } };
}

impl Recent {
    // Nothing is known: no row is in use.
    pub fn new() -> Self
        ensures { result ≡ nothing_noted }
    {
        Recent {
            notes: [0; SLOTS],
            span: Span::none(),
        }
    }

    // Notes this row as the latest of its entry, and x, its context, as one of the span.
    pub fn note(&mut self, x: Context, row: usize)
        requires { row < max_rows }
        ensures { self.new ≡ noted self.old (context x) row }
    {
        self.notes[slot_of(x)] = row as u16;
        self.span = self.span.widened(x);
    }

    // The row that is noted for the entry of the context, if any.
    fn latest(&self, x: Context) -> Option<usize>
        ensures { MatchOption result (slice_index self.now.notes (slot_of (context x)) ≡ 0)
            (λ row. (row ≢ 0) × (row ≡ slice_index self.now.notes (slot_of (context x)))) }
    {
        match self.notes[slot_of(x)] {
            0 => None,
            row => Some(usize::from(row)),
        }
    }

    // The state of the context by what is known of the rows before a row. Where the noted row is of another context it is looked up from there on back: that
    // row is the latest of all contexts with the entry.
    pub fn recall(&self, t: &[u8], x: Context) -> State
        requires { noted_in (length t.now) self.now.notes }
        ensures { state result ≡ recalled (row_at t.now) self.now.notes self.now.span (context x) }
    {
        if self.span.is_outside(x) {
            return State::default();
        }
        let Some(last) = self.latest(x) else {
            return State::default();
        };
        let noted = RowBytes::of_row(t, last);
        if x.is_of(&noted) {
            return State::of_row(&noted);
        }
        let cycles = noted.stamp() as usize;
        state_before(t, last + 1, cycles, x).state
    }
}
