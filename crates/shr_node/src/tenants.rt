// SPDX-License-Identifier: GPL-2.0-only
//! What a tenant does with one object of a cache, by its birth group and key.
//!
//! Each call acts on the first list, from the birth group up, that is not closed: a closed list's
//! objects are in its parent's. Only the rooms on that way are taken, one after another.

ghost use Rattle.std.specs.Prelude.{◌≡◌, ◌<◌, Some};
ghost use Rattle.shr_core.specs.Parts.{no_rooms};
ghost use Rattle.shr_seats.specs.Shapes.{groups_in};
ghost use Rattle.shr_core.specs.Seats.{view_of, shape_of};
ghost use Rattle.shr_base.specs.declared.replies.Spent.TheVariants as spent;
ghost use Rattle.shr_node.specs.declared.answers.NodeAnswer.TheVariants as answers;
ghost use Rattle.shr_node.specs.Answers.{AddGives, LookGives, DropGives, PinGives};

use crate::answers::NodeAnswer;
use crate::rooms::{before_call, give_back, list_spent, open_room};
use shr_base::journals::DropKind;
use shr_base::objects::Object;
use shr_base::places::{At, Place, Serial};
use shr_base::text::Text;
use shr_core::seat::Seat;
use shr_list::answers::{AddAnswer, DropAnswer, LookAnswer, PinAnswer};
use std::sync::Wait;

/// What a tenant's call is about, but for the key: the id and node of the lists that it may act on,
/// the command that makes it, and the group that its object was born in.
#[derive(Clone, Copy, Debug, PartialEq, Eq)]
pub struct TenantCall {
    pub id: u16,
    pub node: u8,
    pub by: Serial,
    pub birth: u16,
}

// What the list of a place told with an entry.
fn told<T>(place: Place, entry: u32, told: T) -> NodeAnswer<T>
    ensures { result ≡ answers.Told (record { place = place; entry = entry }) told }
{
    NodeAnswer::Told {
        at: At { place, entry },
        told,
    }
}

// The list of a place has no room: it would have had these numbers.
fn worn<T>(place: Place, entries: u32, items: u32) -> NodeAnswer<T>
    ensures { result ≡ answers.Worn (spent.List place entries items) }
{
    NodeAnswer::Worn {
        spent: list_spent(place, entries, items),
    }
}

/// Adds an object at the tail, unmarked and unpinned, if the list has none of its birth group and
/// key, and tells whether it had none. The seat holds the id, and has no room in hand.
///
/// The bit of a place below the root that held no object is set while its room is held. On `Worn`
/// and `Memory` lists, counts and bits are as this seat found them.
///
/// Linux: `list_lru_add` in mm/list_lru.c, which sets the bit of the group that it was handed, even
/// when the object goes to the list of a group above.
pub fn add<R: Wait>(
    rt: &R,
    seat: &mut Seat<'_>,
    id: u16,
    node: u8,
    object: Object,
) -> NodeAnswer<bool>
    requires rooms { (view_of seat.old).holding ≡ no_rooms }
    requires holds { (view_of seat.old).claims.held ≡ Some id }
    requires place { (id < (shape_of seat.old.core).ids) × (node < (shape_of seat.old.core).nodes)
        × (object.birth < groups_in (shape_of seat.old.core)) }
    ensures table { seat.new.core ≡ seat.old.core }
    ensures answer { AddGives (shape_of seat.old.core) (view_of seat.old) id node object result
        (view_of seat.new) }
{
    let mut room = open_room(rt, seat, id, node, object.birth);
    let place = room.place;
    let before = before_call(&room.list);
    let answer = match room.list.add(object) {
        AddAnswer::Added { entry } => told(place, entry, true),
        AddAnswer::Exists { entry } => told(place, entry, false),
        AddAnswer::Closed => unreachable!(),
        AddAnswer::Worn { entries, items } => worn(place, entries, items),
        AddAnswer::Memory { object: _ } => NodeAnswer::Memory,
    };
    give_back(seat, room, before);
    answer
}

/// Looks an object up, marks it and tells its value, or none if the list has no object of this birth
/// group and key. The seat holds the id, and has no room in hand. On `Worn` and `Memory` lists,
/// counts and bits are as this seat found them.
///
/// Our own: Linux's lists have no keys.
pub fn look<R: Wait>(
    rt: &R,
    seat: &mut Seat<'_>,
    call: TenantCall,
    key: &Text,
) -> NodeAnswer<Option<Text>>
    requires rooms { (view_of seat.old).holding ≡ no_rooms }
    requires holds { (view_of seat.old).claims.held ≡ Some call.id }
    requires place { (call.id < (shape_of seat.old.core).ids) × (call.node < (shape_of seat.old.core).nodes)
        × (call.birth < groups_in (shape_of seat.old.core)) }
    ensures table { seat.new.core ≡ seat.old.core }
    ensures answer { LookGives (shape_of seat.old.core) (view_of seat.old) call.id call.node
        call.by call.birth key.now result (view_of seat.new) }
{
    let mut room = open_room(rt, seat, call.id, call.node, call.birth);
    let place = room.place;
    let before = before_call(&room.list);
    let answer = match room.list.look(call.by, call.birth, key) {
        LookAnswer::Hit { entry, value } => told(place, entry, Some(value)),
        LookAnswer::Miss { entry } => told(place, entry, None),
        LookAnswer::Closed => unreachable!(),
        LookAnswer::Worn { entries, items } => worn(place, entries, items),
        LookAnswer::Memory => NodeAnswer::Memory,
    };
    give_back(seat, room, before);
    answer
}

/// Takes an object out if it is there and not pinned, and tells which of the three cases it was. The
/// seat holds the id, and has no room in hand. On `Worn` and `Memory` lists, counts and bits are as
/// this seat found them.
///
/// Linux: `list_lru_del` in mm/list_lru.c, which is handed the object and knows no pin.
pub fn drop_key<R: Wait>(
    rt: &R,
    seat: &mut Seat<'_>,
    call: TenantCall,
    key: &Text,
) -> NodeAnswer<DropKind>
    requires rooms { (view_of seat.old).holding ≡ no_rooms }
    requires holds { (view_of seat.old).claims.held ≡ Some call.id }
    requires place { (call.id < (shape_of seat.old.core).ids) × (call.node < (shape_of seat.old.core).nodes)
        × (call.birth < groups_in (shape_of seat.old.core)) }
    ensures table { seat.new.core ≡ seat.old.core }
    ensures answer { DropGives (shape_of seat.old.core) (view_of seat.old) call.id call.node
        call.by call.birth key.now result (view_of seat.new) }
{
    let mut room = open_room(rt, seat, call.id, call.node, call.birth);
    let place = room.place;
    let before = before_call(&room.list);
    let answer = match room.list.drop_key(call.by, call.birth, key) {
        DropAnswer::Dropped { entry, object: _ } => told(place, entry, DropKind::Dropped),
        DropAnswer::Pinned { entry } => told(place, entry, DropKind::Pinned),
        DropAnswer::Miss { entry } => told(place, entry, DropKind::Miss),
        DropAnswer::Closed => unreachable!(),
        DropAnswer::Worn { entries, items } => worn(place, entries, items),
        DropAnswer::Memory => NodeAnswer::Memory,
    };
    give_back(seat, room, before);
    answer
}

/// Pins an object, or takes its pin away, and tells whether it is there; it may have had the pin
/// before. The seat holds the id, and has no room in hand. On `Worn` and `Memory` lists, counts and
/// bits are as this seat found them.
///
/// Our own: a pin stands for a raised reference count.
pub fn set_pin<R: Wait>(
    rt: &R,
    seat: &mut Seat<'_>,
    call: TenantCall,
    key: &Text,
    pinned: bool,
) -> NodeAnswer<bool>
    requires rooms { (view_of seat.old).holding ≡ no_rooms }
    requires holds { (view_of seat.old).claims.held ≡ Some call.id }
    requires place { (call.id < (shape_of seat.old.core).ids) × (call.node < (shape_of seat.old.core).nodes)
        × (call.birth < groups_in (shape_of seat.old.core)) }
    ensures table { seat.new.core ≡ seat.old.core }
    ensures answer { PinGives (shape_of seat.old.core) (view_of seat.old) call.id call.node
        call.by call.birth key.now pinned result (view_of seat.new) }
{
    let mut room = open_room(rt, seat, call.id, call.node, call.birth);
    let place = room.place;
    let before = before_call(&room.list);
    let answer = match room.list.set_pin(call.by, call.birth, key, pinned) {
        PinAnswer::Done { entry } => told(place, entry, true),
        PinAnswer::Miss { entry } => told(place, entry, false),
        PinAnswer::Closed => unreachable!(),
        PinAnswer::Worn { entries, items } => worn(place, entries, items),
        PinAnswer::Memory => NodeAnswer::Memory,
    };
    give_back(seat, room, before);
    answer
}
