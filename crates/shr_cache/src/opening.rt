// SPDX-License-Identifier: GPL-2.0-only
//! What the commands share: the load of the group's word, and finding the cache.

ghost use Rattle.std.specs.Prelude.{◌≡◌, ◌<◌};
ghost use Rattle.shr_seats.specs.Shapes.{groups_in};
ghost use Rattle.shr_core.specs.Seats.{shape_of};
ghost use Rattle.shr_charge.specs.Seat.{uses_of};
ghost use Rattle.shr_walk.specs.Sharing.{IsShared};
ghost use Rattle.shr_walk.specs.State.{IsRested, state_of};
ghost use Rattle.shr_cache.specs.Opening.{FindsAs, OpensAs, IsAfterFinding, IsSameCharge};

use shr_base::replies::{Found, Reply};
use shr_charge::answers::GroupState;
use shr_registry::answers::FindAnswer;
use shr_registry::finding::find;
use shr_walk::seats::{Seats, Shared};
use std::sync::Wait;

/// What came of looking for a command's cache.
#[derive(Drop)]
pub enum Opened {
    /// The cache's id is held.
    Held { found: Found },
    /// The command is refused with this reply, and no id is held.
    Refused { reply: Reply },
}

/// Finds the cache of a declaration, whose id is held then. It refuses if the declaration is not
/// registered and if the lookups of its id are worn out. Our own: in Linux the caller has the
/// cache, and `shrinker_try_get` of include/linux/shrinker.h holds it.
pub fn find_cache<R: Wait>(rt: &R, shared: &Shared, seats: &mut Seats<'_>, decl: u8) -> Opened
    requires shared { IsShared shared.now }
    requires decl { decl < (shape_of shared.now.core).decls }
    requires rested { IsRested shared.now seats.old }
    ensures after { IsAfterFinding shared.now result seats.new }
    ensures found { FindsAs shared.now decl result (state_of seats.old) (state_of seats.new) }
    ensures same { IsSameCharge seats.old seats.new }
{
    match find(rt, &mut seats.cache.core, decl) {
        FindAnswer::Held { id, number, entry } => Opened::Held {
            found: Found { id, number, entry },
        },
        FindAnswer::NoCache { entry } => Opened::Refused {
            reply: Reply::NoCache { entry },
        },
        FindAnswer::Worn { spent } => Opened::Refused {
            reply: Reply::Worn { spent },
        },
    }
}

/// Loads the word of the group, and finds the cache if the group is online; it refuses if the
/// group is offline or isn't made.
pub fn open<R: Wait>(rt: &R, shared: &Shared, seats: &mut Seats<'_>, group: u16, decl: u8) -> Opened
    requires shared { IsShared shared.now }
    requires cache { (group < groups_in (shape_of shared.now.core))
        × (decl < (shape_of shared.now.core).decls) }
    requires rested { IsRested shared.now seats.old }
    ensures after { IsAfterFinding shared.now result seats.new }
    ensures opened { OpensAs shared.now group decl result
        (state_of seats.old) (state_of seats.new) }
    ensures uses { uses_of seats.new.cache.charge ≡ uses_of seats.old.cache.charge }
    ensures notes { seats.new.cache.uses ≡ seats.old.cache.uses }
{
    match seats.cache.charge.state(group) {
        GroupState::Online => find_cache(rt, shared, seats, decl),
        GroupState::Offline { entry } => Opened::Refused {
            reply: Reply::Offline { entry },
        },
        GroupState::NotMade => Opened::Refused {
            reply: Reply::NotMade { group },
        },
    }
}
