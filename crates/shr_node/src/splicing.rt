// SPDX-License-Identifier: GPL-2.0-only
//! Closing the lists of a group and of those below it, each into its parent's.

ghost use Rattle.std.specs.Prelude.{◌≡◌, ◌==◌, ◌<◌, ◌≤◌, ◌&&◌, ℕ, [], length, nat_lt, slice_index, slice_index_or, true, false};
ghost use Rattle.shr_model.specs.Groups.{is_child};
ghost use Rattle.shr_model.specs.Items.{is_closed};
ghost use Rattle.shr_model.specs.PlaceNumbers.{place_number};
ghost use Rattle.shr_list.specs.Listed.{IsSound};
ghost use Rattle.shr_core.specs.declared.view.View.{View};
ghost use Rattle.shr_core.specs.Parts.{no_rooms};
ghost use Rattle.shr_seats.specs.Shapes.{groups_in};
ghost use Rattle.shr_core.specs.Seats.{IsPlaceOfShape, view_of, shape_of};
ghost use Rattle.shr_node.specs.Gains.{Gains, KnowsClosed};
ghost use Rattle.shr_node.specs.Splicing.{AreChildren, group_place, SpliceGives};
ghost use Rattle.shr_node.specs.Closes.{CloseOneGives};
ghost use Rattle.shr_node.specs.Pairs.{AreBothTaken, with_both_left};
ghost use Rattle.shr_node.specs.Looking.{AreLooked};

use crate::answers::{OneClose, SpliceAnswer};
use crate::rooms::{leave, list_spent, parent, raise};
use shr_base::places::Place;
use shr_core::rooms::Room;
use shr_core::seat::Seat;
use shr_core::table::Core;
use shr_list::answers::CloseAnswer;
use shr_list::list::List;
use std::sync::Wait;

// How many groups a table has at most.
const MOST_GROUPS: usize = 256;

/// The children of a group, found once for the splices of many lists: the first `count` of these
/// numbers, in rising order. Our own: the kernel looks for no children, which went offline before.
#[derive(Drop)]
pub struct Children {
    pub groups: [u16; MOST_GROUPS],
    pub count: usize,
}

/// Finds the children of a group.
pub fn children_of(core: &Core, group: u16) -> Children
    ensures children { AreChildren (shape_of core.now).parents.items group result }
{
    let parents = core.shape().parents.as_slice();
    let mut children = Children {
        groups: [0; MOST_GROUPS],
        count: 0,
    };
    // Each child has a higher number than its parent.
    for at in group as usize + 1..parents.len() {
        if parents[at] != group {
            continue;
        }
        children.groups[children.count] = at as u16;
        children.count += 1;
    }
    children
}

// Whether the list of a place is open. Its room is taken and given back.
#[inline(always)]
fn is_open<R: Wait>(rt: &R, seat: &mut Seat<'_>, place: Place) -> bool
    requires rooms { (view_of seat.old).holding ≡ no_rooms }
    requires place { IsPlaceOfShape (shape_of seat.old.core) place }
    ensures table { seat.new.core ≡ seat.old.core }
    ensures gains { Gains (view_of seat.old) (view_of seat.new) [] [] }
    ensures closed { result ≡ false → KnowsClosed (view_of seat.new) (place_number place) }
{
    let room = seat.take_room(rt, place);
    let opens = !room.list.closed();
    leave(seat, room);
    opens
}

// Whether one of the children's lists is open. Each one's room is taken and given back, up to the
// first that is.
fn has_open<R: Wait>(rt: &R, seat: &mut Seat<'_>, id: u16, node: u8, children: &Children) -> bool
    requires rooms { (view_of seat.old).holding ≡ no_rooms }
    requires place { (id < (shape_of seat.old.core).ids) × (node < (shape_of seat.old.core).nodes) }
    requires few { children.now.count ≤ length children.now.groups }
    requires there { (i : ℕ) → i < children.now.count
        → slice_index children.now.groups i < groups_in (shape_of seat.old.core) }
    ensures table { seat.new.core ≡ seat.old.core }
    ensures gains { Gains (view_of seat.old) (view_of seat.new) [] [] }
    ensures closed { result ≡ false → (i : ℕ) → i < children.now.count → KnowsClosed
        (view_of seat.new) (place_number (group_place id node (slice_index children.now.groups i))) }
{
    for at in 0..children.count {
        let place = Place {
            id,
            node,
            group: children.groups[at],
        };
        if is_open(rt, seat, place) {
            return true;
        }
    }
    false
}

// Which lists below a group are open, each at its group's number; that of the group itself counts as
// open. What is below a closed list is closed and isn't looked at.
fn open_lists<R: Wait>(
    rt: &R,
    seat: &mut Seat<'_>,
    id: u16,
    node: u8,
    group: u16,
) -> [bool; MOST_GROUPS]
    requires rooms { (view_of seat.old).holding ≡ no_rooms }
    requires place { (id < (shape_of seat.old.core).ids) × (node < (shape_of seat.old.core).nodes) }
    requires group { group < groups_in (shape_of seat.old.core) }
    ensures table { seat.new.core ≡ seat.old.core }
    ensures gains { Gains (view_of seat.old) (view_of seat.new) [] [] }
    ensures looked { AreLooked (shape_of seat.old.core) (view_of seat.new) id node group result
        (groups_in (shape_of seat.old.core)) }
    ensures own { slice_index_or result group false ≡ true }
{
    let parents = seat.core().shape().parents.as_slice();
    let mut opens = [false; MOST_GROUPS];
    opens[group as usize] = true;
    // A parent has a lower number than its children, so its list is looked at before theirs.
    for at in group as usize + 1..parents.len() {
        if !opens[parents[at] as usize] {
            continue;
        }
        let place = Place {
            id,
            node,
            group: at as u16,
        };
        opens[at] = is_open(rt, seat, place);
    }
    opens
}

// Whether a list is closed. One that is open has room for the entry that closes it.
fn is_closed_list(list: &List) -> bool
    ensures closed { result ≡ is_closed list.now.entries }
    ensures sound { IsSound list.now }
{
    // Called for its clause: what the type of a list keeps.
    let _entries = list.entries();
    list.closed()
}

// Whether a place's bit is set once its list was given this many objects.
fn is_filled(objects: u32, place: Place) -> bool
    ensures { result ≡ (nat_lt 0 objects && nat_lt 0 place.group) }
{
    objects > 0 && place.group > 0
}

// Gives a child's room and its parent's back, whose lists are as they were.
fn leave_both(seat: &mut Seat<'_>, child: Room, above: Room)
    requires untouched { (before : View) × AreBothTaken (shape_of seat.old.core) before (view_of seat.old)
        child.place above.place child.list above.list }
    ensures left { seat.new ≡ record seat.old { view = with_both_left (view_of seat.old) child above } }
{
    seat.give_room(above);
    seat.give_room(child);
}

/// Closes the list of one group into its parent's: the child's objects stand before the head of
/// the parent's list in their order, and later calls for the group act on the first list above
/// that is not closed. The group is not the root, the seat has no room in hand, and knows that the
/// lists of the group's children are closed.
///
/// `Closed` stores the count of both lists. It sets the parent's bit if an object moved and the
/// parent is not the root, and no other bit. After `WasClosed`, `Worn` and `Memory` both lists and
/// all bits are as before.
///
/// Linux: `memcg_reparent_list_lru_one` in mm/list_lru.c, which cannot fail.
pub fn close_one<R: Wait>(rt: &R, seat: &mut Seat<'_>, id: u16, node: u8, group: u16) -> OneClose
    requires rooms { (view_of seat.old).holding ≡ no_rooms }
    requires place { (id < (shape_of seat.old.core).ids) × (node < (shape_of seat.old.core).nodes) }
    requires group { (0 < group) × (group < groups_in (shape_of seat.old.core)) }
    requires children { (child : ℕ) → is_child (shape_of seat.old.core).parents.items group child ≡ true
        → KnowsClosed (view_of seat.old) (place_number (group_place id node child)) }
    ensures table { seat.new.core ≡ seat.old.core }
    ensures answer { CloseOneGives (shape_of seat.old.core) (view_of seat.old) id node group result
        (view_of seat.new) }
{
    let mut child = seat.take_room(rt, Place { id, node, group });
    if is_closed_list(&child.list) {
        leave(seat, child);
        return OneClose::WasClosed;
    }
    let place = Place {
        id,
        node,
        group: parent(seat.core(), group),
    };
    let mut above = seat.take_room(rt, place);
    match child.list.close_into(&mut above.list, group) {
        CloseAnswer::Moved { objects } => {
            let filled = is_filled(objects, place);
            seat.store_count(above.place, &above.list);
            seat.store_count(child.place, &child.list);
            raise(seat, above.place, filled);
            seat.give_room(above);
            seat.give_room(child);
            OneClose::Closed { objects }
        }
        CloseAnswer::Worn { entries, items } => {
            leave_both(seat, child, above);
            OneClose::Worn {
                spent: list_spent(place, entries, items),
            }
        }
        CloseAnswer::Memory => {
            leave_both(seat, child, above);
            OneClose::Memory
        }
    }
}

// Closes each open list of a group and of those below it, wherever these are.
fn splice_open<R: Wait>(rt: &R, seat: &mut Seat<'_>, id: u16, node: u8, group: u16) -> SpliceAnswer
    requires rooms { (view_of seat.old).holding ≡ no_rooms }
    requires place { (id < (shape_of seat.old.core).ids) × (node < (shape_of seat.old.core).nodes) }
    requires group { (0 < group) × (group < groups_in (shape_of seat.old.core)) }
    ensures table { seat.new.core ≡ seat.old.core }
    ensures answer { SpliceGives (shape_of seat.old.core) (view_of seat.old) id node group result
        (view_of seat.new) }
{
    let opens = open_lists(rt, seat, id, node, group);
    let mut moved = 0;
    let mut at = seat.core().shape().parents.len() as u16;
    'splicing: while at > group {
        at -= 1;
        if !opens[at as usize] {
            continue;
        }
        // The group itself comes last, so that `moved` is left with what its own list gave.
        match close_one(rt, seat, id, node, at) {
            OneClose::Closed { objects } => moved = objects as u64,
            OneClose::WasClosed => moved = 0,
            OneClose::Worn { spent } => return SpliceAnswer::Worn { spent },
            OneClose::Memory => return SpliceAnswer::Memory,
        }
    }
    SpliceAnswer::Spliced { moved }
}

/// Closes each open list of a group and of those below it, the highest number first, each into its
/// parent's: the child's objects stand before the head of the parent's list in their order, and
/// later calls for the group act on the first list above that is not closed. The group is not the
/// root, the seat has no room in hand, and these are the group's children.
///
/// Where a list is closed those below it are, so their rooms are not taken. The bit of a parent below
/// the root that is given an object is set. `moved` counts the objects that the group's own list
/// gave, 0 if it was closed before. After `Worn` and `Memory` the lists closed so far stay closed,
/// and all others are as before.
///
/// Linux: `memcg_reparent_list_lru_node` in mm/list_lru.c for one group. Its children went offline
/// before it, so there no order of groups is needed.
pub fn splice_below<R: Wait>(
    rt: &R,
    seat: &mut Seat<'_>,
    id: u16,
    node: u8,
    group: u16,
    children: &Children,
) -> SpliceAnswer
    requires rooms { (view_of seat.old).holding ≡ no_rooms }
    requires place { (id < (shape_of seat.old.core).ids) × (node < (shape_of seat.old.core).nodes) }
    requires group { (0 < group) × (group < groups_in (shape_of seat.old.core)) }
    requires children { AreChildren (shape_of seat.old.core).parents.items group children.now }
    ensures table { seat.new.core ≡ seat.old.core }
    ensures answer { SpliceGives (shape_of seat.old.core) (view_of seat.old) id node group result
        (view_of seat.new) }
{
    if has_open(rt, seat, id, node, children) {
        return splice_open(rt, seat, id, node, group);
    }
    // What is below the children is closed too, so the group's own list alone may be open.
    match close_one(rt, seat, id, node, group) {
        OneClose::Closed { objects } => SpliceAnswer::Spliced {
            moved: objects as u64,
        },
        OneClose::WasClosed => SpliceAnswer::Spliced { moved: 0 },
        OneClose::Worn { spent } => SpliceAnswer::Worn { spent },
        OneClose::Memory => SpliceAnswer::Memory,
    }
}

/// Closes each open list of a group and of those below it, as `splice_below` does, for a caller that
/// splices one list and finds the children for it alone.
///
/// Linux: `memcg_reparent_list_lru_node` in mm/list_lru.c for one group.
pub fn splice<R: Wait>(rt: &R, seat: &mut Seat<'_>, id: u16, node: u8, group: u16) -> SpliceAnswer
    requires rooms { (view_of seat.old).holding ≡ no_rooms }
    requires place { (id < (shape_of seat.old.core).ids) × (node < (shape_of seat.old.core).nodes) }
    requires group { (0 < group) × (group < groups_in (shape_of seat.old.core)) }
    ensures table { seat.new.core ≡ seat.old.core }
    ensures answer { SpliceGives (shape_of seat.old.core) (view_of seat.old) id node group result
        (view_of seat.new) }
{
    let children = children_of(seat.core(), group);
    splice_below(rt, seat, id, node, group, &children)
}
