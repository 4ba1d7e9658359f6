// What constraints 3 and 4 ask of STAMP and CT, as numbers: how they follow those of the row before.
ghost use Rattle.std.specs.Prelude.{◌≡◌};
ghost use Rattle.model.specs.Constraints.{last_ct};
ghost use Rattle.model.specs.Steps.{stamp_moves, ct_moves};

use crate::{last_ct, pick};

// After STAMP 0 comes 0 or 1. Otherwise STAMP equals the one before if CT there was not its E, else it is one more.
#[tactic(auto, unfolding(model::specs::Steps::stamp_moves))]
pub fn stamp_follows(before: u32, ct_before: u8, ooob_before: u8, stamp: u32) -> bool
    ensures { result ≡ stamp_moves before ct_before (last_ct ooob_before) stamp }
{
    let same = u64::from(before);
    let ended = ct_before == last_ct(ooob_before);
    let follows = u64::from(stamp) == pick(ended, same + 1, same);
    pick(before == 0, stamp <= 1, follows)
}

// CT is 0 where STAMP is 0 or new; else one more than before.
#[tactic(auto, unfolding(model::specs::Steps::ct_moves))]
pub fn ct_follows(stamp_before: u32, before: u8, stamp: u32, ct: u8) -> bool
    ensures { result ≡ ct_moves stamp_before before stamp ct }
{
    let starts = (stamp == 0) | (stamp != stamp_before);
    u64::from(ct) == pick(starts, 0, u64::from(before) + 1)
}
