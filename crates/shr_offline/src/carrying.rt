// SPDX-License-Identifier: GPL-2.0-only
//! Handing over a group's deferred work.

ghost use Rattle.std.specs.Prelude.{◌≡◌, ◌+◌, ◌<◌, ◌≤◌, [], ◌∷◌, ◌++◌};
ghost use Rattle.shr_seats.specs.Shapes.{groups_in};
ghost use Rattle.shr_core.specs.Seats.{shape_of};
ghost use Rattle.shr_seats.specs.Rows.{IsPlaceOf};
ghost use Rattle.shr_deferred.specs.Seat.{GainsMoves};
ghost use Rattle.shr_walk.specs.Sharing.{IsShared};
ghost use Rattle.shr_offline.specs.Splices.{count_of_places};
ghost use Rattle.shr_offline.specs.Carries.{carry_move, carries_noted, AreCarried};

use shr_base::log::Log;
use shr_base::places::{Place, Serial};
use shr_base::walks::Carry;
use shr_deferred::DeferredSeat;
use shr_walk::seats::Shared;

// Takes what is deferred at a place, gives what is above 0 to the place of the parent group, and
// notes it.
fn carry(
    seat: &mut DeferredSeat<'_>,
    carries: &mut Log<Carry>,
    by: Serial,
    place: Place,
    above: Place,
) -> u64
    requires place { IsPlaceOf seat.old.deferred.sizes place }
    requires above { IsPlaceOf seat.old.deferred.sizes above }
    requires spare { 0 < carries.old.spare }
    ensures gains { GainsMoves seat.old seat.new
        (carry_move above (record { place = place; amount = result })) }
    ensures noted { carries.new.items ≡ carries.old.items ++ carries_noted by
        (record { place = place; amount = result } ∷ []) }
    ensures spare { carries.old.spare ≤ carries.new.spare + 1 }
{
    let amount = seat.take(place);
    if amount > 0 {
        seat.give(above, amount);
        carries.push(Carry { by, place, amount });
    }
    amount
}

/// Carries the deferred work of the group of each id on each node, and gives their sum modulo 2^64.
///
/// Linux: `reparent_shrinker_deferred` in mm/shrinker.c, which reads the group's words and leaves
/// them.
pub(crate) fn carry_all(
    shared: &Shared,
    seat: &mut DeferredSeat<'_>,
    carries: &mut Log<Carry>,
    by: Serial,
    group: u16,
) -> u64
    requires shared { IsShared shared.now }
    requires table { seat.old.deferred ≡ shared.now.deferred }
    requires group { group < groups_in (shape_of shared.now.core) }
    requires spare { count_of_places (shape_of shared.now.core) ≤ carries.old.spare }
    ensures carried { AreCarried (shape_of shared.now.core) by group
        (count_of_places (shape_of shared.now.core)) result seat.old seat.new carries.old.items
        carries.new.items }
{
    let nodes = shared.core.shape().nodes as u32;
    let places = shared.core.shape().ids as u32 * nodes;
    let parent = shared.tree.parent(group);
    let mut sum: u64 = 0;
    for number in 0..places {
        let id = (number / nodes) as u16;
        let node = (number % nodes) as u8;
        let place = Place { id, node, group };
        let above = Place {
            id,
            node,
            group: parent,
        };
        sum = sum.wrapping_add(carry(seat, carries, by, place, above));
    }
    sum
}
