// SPDX-License-Identifier: GPL-2.0-only
//! Taking the room of the first open list, and giving a room back with one entry more.

ghost use Rattle.std.specs.Prelude.{◌≡◌, ◌==◌, ◌<◌, ◌≤◌, ◌&&◌, cond, true, length};
ghost use Rattle.shr_base.specs.declared.replies.Spent.TheVariants as spent;
ghost use Rattle.shr_model.specs.PlaceNumbers.{place_number};
ghost use Rattle.shr_model.specs.Groups.{parent_of};
ghost use Rattle.shr_core.specs.Parts.{no_rooms};
ghost use Rattle.shr_seats.specs.Shapes.{groups_in};
ghost use Rattle.shr_core.specs.Seats.{IsPlaceOfShape, view_of, shape_of};
ghost use Rattle.shr_core.specs.Steps.{in_hand, with_set, with_given, last_entry};
ghost use Rattle.shr_node.specs.Gains.{with_kept};
ghost use Rattle.shr_node.specs.Opening.{IsOpened, IsRoomReady, IsUntouched};

use shr_base::places::Place;
use shr_base::replies::Spent;
use shr_core::rooms::Room;
use shr_core::seat::Seat;
use shr_core::table::Core;
use shr_list::list::List;
use std::sync::Wait;

/// The parent of a group.
///
/// Linux: `parent_mem_cgroup` in include/linux/memcontrol.h.
pub(crate) fn parent(core: &Core, group: u16) -> u16
    requires { group < groups_in (shape_of core.now) }
    ensures { result ≡ parent_of (shape_of core.now).parents.items group }
{
    core.shape().parents.as_slice()[group as usize]
}

/// The report of a list without room: it would have had these numbers.
pub(crate) fn list_spent(place: Place, entries: u32, items: u32) -> Spent
    ensures { result ≡ spent.List place entries items }
{
    Spent::List {
        place,
        entries,
        items,
    }
}

/// Takes the room of the first list, from the birth group up, that is not closed. The root's never
/// is.
///
/// Linux: `list_lru_from_memcg_idx` in mm/list_lru.c. It goes by `kmemcg_id`, which becomes the
/// parent's when a group goes offline.
pub(crate) fn open_room<R: Wait>(rt: &R, seat: &mut Seat<'_>, id: u16, node: u8, birth: u16) -> Room
    requires rooms { (view_of seat.old).holding ≡ no_rooms }
    requires place { (id < (shape_of seat.old.core).ids) × (node < (shape_of seat.old.core).nodes)
        × (birth < groups_in (shape_of seat.old.core)) }
    ensures table { seat.new.core ≡ seat.old.core }
    ensures opened { IsOpened (shape_of seat.old.core) (view_of seat.old) (view_of seat.new) id node
        birth result }
{
    let mut group = birth;
    'climbing: loop {
        let room = seat.take_room(rt, Place { id, node, group });
        if !room.list.closed() {
            return room;
        }
        seat.give_room(room);
        group = parent(seat.core(), group);
    }
}

/// Sets the bit of a place whose list was filled.
///
/// Linux: `set_shrinker_bit` in `list_lru_add` of mm/list_lru.c.
pub(crate) fn raise(seat: &mut Seat<'_>, place: Place, raised: bool)
    requires place { IsPlaceOfShape (shape_of seat.old.core) place }
    requires below_root { raised ≡ true → 0 < place.group }
    ensures set { seat.new ≡ record seat.old {
      view = cond raised (with_set (view_of seat.old) (place_number place)) (view_of seat.old);
    } }
{
    if raised {
        seat.set_bit(place);
    }
}

/// Stores the count of a list with one entry more, sets the bit of a place below the root that had
/// no object before and has one now, and gives the room back.
///
/// Linux: the end of `list_lru_add` in mm/list_lru.c, which sets the bit when `nr_items` rises from
/// 0.
pub(crate) fn keep(seat: &mut Seat<'_>, room: Room, was_empty: bool)
    requires ready { IsRoomReady (shape_of seat.old.core) (view_of seat.old) room }
    requires empty { was_empty ≡ (length (in_hand (view_of seat.old)
        (place_number room.place)).items == 0) }
    ensures kept { seat.new ≡ record seat.old {
      view = with_kept (view_of seat.old) (place_number room.place)
          (last_entry room.list.entries) room.list.items;
    } }
{
    seat.store_count(room.place, &room.list);
    let raised = was_empty && room.list.len() > 0 && room.place.group > 0;
    raise(seat, room.place, raised);
    seat.give_room(room);
}

/// Gives a room back whose list is as it was.
#[inline(always)]
pub(crate) fn leave(seat: &mut Seat<'_>, room: Room)
    requires untouched { IsUntouched (shape_of seat.old.core) (view_of seat.old) room }
    ensures left { seat.new ≡ record seat.old {
      view = with_given (view_of seat.old) (place_number room.place);
    } }
{
    seat.give_room(room);
}

/// What a list was before a call acted on it.
#[derive(Clone, Copy)]
pub(crate) struct Before {
    was_empty: bool,
    entries: usize,
}

/// Looks at a list before a call acts on it.
pub(crate) fn before_call(list: &List) -> Before
    ensures empty { result.was_empty ≡ (length list.now.items == 0) }
    ensures entries { result.entries ≡ length list.now.entries }
{
    Before {
        was_empty: list.len() == 0,
        entries: list.entries().len(),
    }
}

/// Gives a room back whose list has one entry more than before, or is as it was.
pub(crate) fn give_back(seat: &mut Seat<'_>, room: Room, before: Before)
    requires ready { before.entries < length room.list.entries → IsRoomReady (shape_of seat.old.core)
        (view_of seat.old) room }
    requires empty { before.entries < length room.list.entries → before.was_empty
        ≡ (length (in_hand (view_of seat.old) (place_number room.place)).items == 0) }
    requires untouched { length room.list.entries ≤ before.entries → IsUntouched
        (shape_of seat.old.core) (view_of seat.old) room }
    ensures table { seat.new.core ≡ seat.old.core }
    ensures kept { before.entries < length room.list.entries → view_of seat.new
        ≡ with_kept (view_of seat.old) (place_number room.place) (last_entry room.list.entries)
        room.list.items }
    ensures left { length room.list.entries ≤ before.entries → view_of seat.new
        ≡ with_given (view_of seat.old) (place_number room.place) }
{
    if room.list.entries().len() > before.entries {
        keep(seat, room, before.was_empty);
    } else {
        leave(seat, room);
    }
}
