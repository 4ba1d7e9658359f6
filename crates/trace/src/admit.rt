// The refusals that every call over a trace but the checker begins with. Only crates of this repository call this function.
ghost use Rattle.std.specs.Prelude.{◌≡◌};
ghost use Rattle.trace.specs.Asked.{admitted};
ghost use Rattle.trace.specs.Told.{told_admitted};

use checker::{Verdict, check};
use count::Counts;
use refusal::Refusal;

// The counts of an accepted trace, or why the bytes are none.
pub fn admit(t: &[u8]) -> Result<Counts, Refusal>
    ensures { result ≡ told_admitted (admitted t.now) }
{
    match check(t) {
        Verdict::Accepted(counts) => Ok(counts),
        Verdict::Broken { .. } => Err(Refusal::NotAccepted),
        Verdict::Refused(why) => Err(why),
    }
}
