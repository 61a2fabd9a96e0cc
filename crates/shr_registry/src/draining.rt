// SPDX-License-Identifier: GPL-2.0-only
//! Waiting until no seat holds an id, and emptying its lists.

ghost use Rattle.std.specs.Prelude.{◌≡◌, ◌<◌, true, Some};
ghost use Rattle.shr_core.specs.Parts.{no_rooms};
ghost use Rattle.shr_core.specs.Steps.{undrained};
ghost use Rattle.shr_core.specs.Seats.{view_of, shape_of};
ghost use Rattle.shr_registry.specs.Adding.{Loads};
ghost use Rattle.shr_registry.specs.Ending.{EmptyGives};

use shr_base::log::Log;
use shr_base::objects::Object;
use shr_base::places::Serial;
use shr_base::replies::HalfWhy;
use shr_core::seat::Seat;
use shr_node::answers::NodeDrain;
use shr_node::draining::{NodeLists, drain};
use std::sync::Wait;
use std::thread;

/// Waits until a load shows that no seat holds the id that this seat owns.
///
/// Linux: `wait_for_completion(&shrinker->done)` in `shrinker_free` of mm/shrinker.c.
pub(crate) fn settle<R: Wait>(rt: &R, seat: &mut Seat<'_>, id: u16)
    requires id { id < (shape_of seat.old.core).ids }
    requires owns { (view_of seat.old).claims.owner ≡ Some id }
    ensures table { seat.new.core ≡ seat.old.core }
    ensures loads { Loads (view_of seat.old) (view_of seat.new) }
    ensures quiet { (view_of seat.new).claims.quiet ≡ true }
{
    for _ in rt.forever() {
        if seat.word_of(id).refs == 0 {
            return;
        }
        thread::yield_now();
    }
    unreachable!()
}

/// Empties the lists of the id that the seat owns, node after node. The answer is what stopped it.
///
/// Our own: Linux leaves the objects to the cache's owner.
pub(crate) fn empty<R: Wait>(
    rt: &R,
    seat: &mut Seat<'_>,
    id: u16,
    by: Serial,
    objects: &mut Log<Object>,
) -> Option<HalfWhy>
    requires rooms { (view_of seat.old).holding ≡ no_rooms }
    requires id { id < (shape_of seat.old.core).ids }
    requires owns { (view_of seat.old).claims.owner ≡ Some id }
    requires quiet { (view_of seat.old).claims.quiet ≡ true }
    requires fresh { (view_of seat.old).claims.drained ≡ undrained (shape_of seat.old.core) }
    ensures table { seat.new.core ≡ seat.old.core }
    ensures answer { EmptyGives (shape_of seat.old.core) (view_of seat.old) id by objects.old.items
        result objects.new.items (view_of seat.new) }
{
    for node in 0..seat.core().shape().nodes {
        match drain(rt, seat, NodeLists { id, node }, by, objects) {
            NodeDrain::Drained => {}
            NodeDrain::Worn { spent } => return Some(HalfWhy::Worn { spent }),
            NodeDrain::Memory => return Some(HalfWhy::Memory),
        }
    }
    None
}
