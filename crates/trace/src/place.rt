// Where instruction k of a trace stands, its rows and its claim.
ghost use Rattle.std.specs.Prelude.{◌≡◌};
ghost use Rattle.trace.specs.Asked.{where_is, claim_in};
ghost use Rattle.trace.specs.Told.{told_place, told_rows, told_claimed, rows_now};

use crate::admit::admit;
use claim::claim::{Claim, claim_in};
use part::{is_among, row_after, rows_from};
use refusal::Refusal;
use row::view::RowBytes;
use state::look::cycle_rows;

// Where an instruction stands: its first row, and how many rows it has.
#[derive(Clone, Copy)]
pub struct Place {
    pub first: usize,
    pub rows: usize,
}

// Where instruction k (from 1) stands. Every trace and number has an answer; document 01's numbers for each are `part_numbers` of specs/Told.antt.
pub fn place_of(t: &[u8], k: u64) -> Result<Place, Refusal>
    ensures { result ≡ told_place (where_is t.now k) }
{
    let counts = admit(t)?;
    if !is_among(k, counts.instructions) {
        return Err(Refusal::NoInstruction);
    }
    let first = row_after(t, counts.empty as usize, k - 1);
    let rows = cycle_rows(&RowBytes::of_row(t, first));
    Ok(Place { first, rows })
}

// The rows of instruction k, as a part of the trace itself.
pub fn rows_of<'a>(t: &'a [u8], k: u64) -> Result<&'a [u8], Refusal>
    ensures { rows_now result ≡ told_rows t.now (where_is t.now k) }
{
    let place = place_of(t, k)?;
    Ok(rows_from(t, place.first, place.rows))
}

// The claim of instruction k; document 01's numbers for each answer are `claim_numbers` of specs/Told.antt.
pub fn claim_at(t: &[u8], k: u64) -> Result<Claim, Refusal>
    ensures { result ≡ told_claimed (claim_in (where_is t.now k)) }
{
    let place = place_of(t, k)?;
    Ok(claim_in(&RowBytes::of_row(t, place.first)))
}
