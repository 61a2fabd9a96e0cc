// SPDX-License-Identifier: GPL-2.0-only
//! Draining the lists of an id that is dying.

ghost use Rattle.std.specs.Prelude.{◌≡◌, ◌==◌, ◌<◌, ◌≤◌, false, length, true, Some};
ghost use Rattle.shr_core.specs.Parts.{no_rooms};
ghost use Rattle.shr_model.specs.Items.{is_closed};
ghost use Rattle.shr_core.specs.Seats.{IsPlaceOfShape, view_of, shape_of};
ghost use Rattle.shr_node.specs.Draining.{DrainGives, DrawGives};

use crate::answers::NodeDrain;
use crate::rooms::{keep, leave, list_spent};
use shr_base::log::Log;
use shr_base::objects::Object;
use shr_base::places::{Place, Serial};
use shr_core::seat::Seat;
use shr_list::answers::DrainAnswer;
use shr_list::list::List;
use std::sync::Wait;

// Whether a list is empty. One that is closed is.
fn is_empty(list: &List) -> bool
    ensures empty { result ≡ (length list.now.items == 0) }
    ensures opened { result ≡ false → is_closed list.now.entries ≡ false }
{
    // Called for its clause: what the type of a list keeps.
    let _entries = list.entries();
    list.len() == 0
}

// Room for a list's objects behind those that were drained before, if the list has room for its
// Drained. Without that it is worn, and wants none.
fn make_room(into: &mut Log<Object>, list: &List, most_entries: u32) -> bool
    ensures kept { into.new.items ≡ into.old.items }
    ensures room { result ≡ true → length list.now.entries < most_entries
        → length list.now.items ≤ into.new.spare }
    ensures open { result ≡ false → length list.now.entries < most_entries }
{
    if list.entries().len() >= most_entries as usize {
        return true;
    }
    into.reserve(list.len() as usize).is_ok()
}

// Empties one list, if it holds an object. Its room is taken only if its count word shows one; by then
// a splice may have moved the objects on.
fn drain_one<R: Wait>(
    rt: &R,
    seat: &mut Seat<'_>,
    place: Place,
    by: Serial,
    into: &mut Log<Object>,
) -> NodeDrain
    requires rooms { (view_of seat.old).holding ≡ no_rooms }
    requires owns { (view_of seat.old).claims.owner ≡ Some place.id }
    requires quiet { (view_of seat.old).claims.quiet ≡ true }
    requires place { IsPlaceOfShape (shape_of seat.old.core) place }
    ensures table { seat.new.core ≡ seat.old.core }
    ensures answer { DrawGives (shape_of seat.old.core) (view_of seat.old) place by into.old.items
        result into.new.items (view_of seat.new) }
{
    if seat.finds_empty(place) {
        return NodeDrain::Drained;
    }
    let mut room = seat.take_room(rt, place);
    if is_empty(&room.list) {
        leave(seat, room);
        return NodeDrain::Drained;
    }
    let made = make_room(into, &room.list, seat.core().shape().most_entries);
    if !made {
        leave(seat, room);
        return NodeDrain::Memory;
    }
    match room.list.drain(by) {
        DrainAnswer::Drained { objects } => {
            keep(seat, room, false);
            into.append(objects);
            NodeDrain::Drained
        }
        DrainAnswer::Worn { entries, items } => {
            leave(seat, room);
            NodeDrain::Worn {
                spent: list_spent(place, entries, items),
            }
        }
        DrainAnswer::Memory => {
            leave(seat, room);
            NodeDrain::Memory
        }
    }
}

/// The lists of an id on a node, those of each group.
///
/// Linux: `struct list_lru_node` in include/linux/list_lru.h, with the `struct list_lru_one` of each
/// group on that node.
#[derive(Clone, Copy, Debug, PartialEq, Eq)]
pub struct NodeLists {
    pub id: u16,
    pub node: u8,
}

/// Empties each list of an id on a node, groups in falling order. The seat owns the id, a load has
/// shown that no seat holds it, and the seat has no room in hand.
///
/// The objects are appended to `into`, also before `Worn` and `Memory`; the room for a list's
/// objects is made there before that list is emptied. A list without objects gets no entry, and its
/// room isn't taken if its count word shows none.
///
/// Our own: Linux leaves the objects of a freed shrinker to the cache's owner.
pub fn drain<R: Wait>(
    rt: &R,
    seat: &mut Seat<'_>,
    lists: NodeLists,
    by: Serial,
    into: &mut Log<Object>,
) -> NodeDrain
    requires rooms { (view_of seat.old).holding ≡ no_rooms }
    requires owns { (view_of seat.old).claims.owner ≡ Some lists.id }
    requires quiet { (view_of seat.old).claims.quiet ≡ true }
    requires place { (lists.id < (shape_of seat.old.core).ids)
        × (lists.node < (shape_of seat.old.core).nodes) }
    ensures table { seat.new.core ≡ seat.old.core }
    ensures answer { DrainGives (shape_of seat.old.core) (view_of seat.old) lists.id lists.node by
        into.old.items result into.new.items (view_of seat.new) }
{
    let mut group = seat.core().shape().parents.len() as u16;
    'draining: while group > 0 {
        group -= 1;
        let place = Place {
            id: lists.id,
            node: lists.node,
            group,
        };
        match drain_one(rt, seat, place, by, into) {
            NodeDrain::Drained => {}
            NodeDrain::Worn { spent } => return NodeDrain::Worn { spent },
            NodeDrain::Memory => return NodeDrain::Memory,
        }
    }
    NodeDrain::Drained
}
