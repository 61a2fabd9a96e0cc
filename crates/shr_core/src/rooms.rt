// SPDX-License-Identifier: GPL-2.0-only
//! The rooms of places: taking, giving back, and storing a count.
ghost use Rattle.std.specs.Prelude.{◌≡◌, ◌+◌, ◌*◌, ◌^◌, ◌<◌, ◌≤◌, List, ◌∷◌, MatchBool, false, map, length, Some, None, IfSome};
ghost use Rattle.atomic_table.specs.Table.{rest};
ghost use Rattle.shr_model.specs.PlaceNumbers.{place_number};
ghost use Rattle.shr_core.specs.Layout.{row_in};
ghost use Rattle.shr_seats.specs.Shapes.{sizes_of};
ghost use Rattle.shr_core.specs.Rule.{IsInside, has_room, list_content};
ghost use Rattle.shr_core.specs.Steps.{with_taken, with_try, IsTaken, with_given, with_stored, IsLater, in_hand, last_entry, MayStore, without_room};
ghost use Rattle.shr_core.specs.Moves.{IsHere, IsSameSeat};
ghost use Rattle.shr_core.specs.Tells.{TakesRoom, place_content, PlaceTold, IsBusy, IsInHand};
ghost use Rattle.shr_core.specs.Seats.{IsPlaceOfShape, MayTake, HasFirst, view_of, shape_of, numbers_of, room_numbers, room_rows, slot_numbers};
ghost use Rattle.shr_core.specs.Parts.{Hand};
ghost use Rattle.shr_core.specs.Slots.{Slot as SlotValue};

use crate::counts::number_of;
use crate::seat::{InHand, Seat};
use crate::slot::Slot;
use crate::table::Core;
use crate::view::View;
use crate::words::{ONE_VERSION, count_word, lock_word};
use atomic_table::Seat as Token;
use crossbeam_utils::Backoff;
use shr_base::places::Place;
use shr_list::list::List;
use std::marker::Brand;
use std::sync::Wait;

/// A place's room in hand: its list.
///
/// Linux: what `lock` of `struct list_lru_node` in include/linux/list_lru.h guards. Here each list
/// has a lock of its own.
#[derive(Drop)]
pub struct Room {
    pub place: Place,
    pub list: List,
}

impl Core {
    /// Takes out the content of the slot that was taken last, and leaves none there.
    pub(crate) fn lift(&self, token: &mut Token<Slot, View>, slot: usize) -> Slot
        requires { (token.old.table_id ≡ self.now.table.shared.table_id) × HasFirst token.old.me.1
            slot }
        ensures id { IsSameSeat token.old token.new }
        ensures content { token.old.me.1 ≡ (slot, result) ∷ rest token.old.me.1 }
        ensures left { (left : SlotValue)
            × (token.new.me ≡ (token.old.me.0, (slot, left) ∷ rest token.old.me.1)) }
    {
        self.table
            .shared
            .exchange(token, slot, Slot::nothing(self.alloc))
    }

    // One compare and exchange of a place's lock word.
    fn take_once(&self, token: &mut Token<Slot, View>, room: usize, row: usize) -> bool
        requires seat { IsHere self.now token.old }
        requires room { IsInside (shape_of self.now) room }
        requires row { (row ≡ row_in (sizes_of (shape_of self.now)) room) × (row < 2 ^ 40) }
        ensures id { IsSameSeat token.old token.new }
        ensures took { MatchBool result (TakesRoom token.old.me room row place_content
            (PlaceTold (shape_of self.now) token.old.me.0 room) token.new.me) (token.new.me
            ≡ token.old.me) }
    {
        self.exchange_as::<Brand>(token, lock_word(row), room, row) == 0
    }

    // The same, and a try in vain is noted.
    fn try_once(&self, token: &mut Token<Slot, View>, room: usize, row: usize) -> bool
        requires seat { IsHere self.now token.old }
        requires room { IsInside (shape_of self.now) room }
        requires row { (row ≡ row_in (sizes_of (shape_of self.now)) room) × (row < 2 ^ 40) }
        ensures id { IsSameSeat token.old token.new }
        ensures took { MatchBool result (TakesRoom token.old.me room row place_content
            (PlaceTold (shape_of self.now) token.old.me.0 room) token.new.me) (token.new.me
            ≡ (with_try token.old.me.0 room, token.old.me.1)) }
        ensures busy { result ≡ false → IsBusy token.old.me.0 room }
    {
        self.exchange_as::<Brand>(token, lock_word(row), room, row) == 0
    }

    // Kept apart, since most rooms are free.
    #[inline(never)]
    fn wait_for<R: Wait>(&self, rt: &R, token: &mut Token<Slot, View>, room: usize, row: usize)
        requires seat { IsHere self.now token.old }
        requires room { IsInside (shape_of self.now) room }
        requires row { (row ≡ row_in (sizes_of (shape_of self.now)) room) × (row < 2 ^ 40) }
        ensures id { IsSameSeat token.old token.new }
        ensures took { TakesRoom token.old.me room row place_content (PlaceTold (shape_of self.now)
            token.old.me.0 room) token.new.me }
    {
        let backoff = Backoff::new();
        for _ in rt.forever() {
            if self.take_once(token, room, row) {
                return;
            }
            backoff.snooze();
        }
        unreachable!()
    }

    // Takes a room, and waits where it isn't free.
    #[inline(always)]
    fn take_or_wait<R: Wait>(&self, rt: &R, token: &mut Token<Slot, View>, room: usize, row: usize)
        requires seat { IsHere self.now token.old }
        requires room { IsInside (shape_of self.now) room }
        requires row { (row ≡ row_in (sizes_of (shape_of self.now)) room) × (row < 2 ^ 40) }
        ensures id { IsSameSeat token.old token.new }
        ensures took { TakesRoom token.old.me room row place_content (PlaceTold (shape_of self.now)
            token.old.me.0 room) token.new.me }
    {
        if !self.take_once(token, room, row) {
            self.wait_for(rt, token, room, row);
        }
    }

    /// Brings a room's slot to the front of those that the seat has taken, and gives the rooms
    /// without this one.
    pub(crate) fn to_front(
        &self,
        token: &mut Token<Slot, View>,
        rooms: InHand,
        number: usize,
    ) -> InHand
        requires has { 0 < has_room number token.old.me.0.holding }
        requires rooms { numbers_of rooms ≡ room_numbers token.old.me.0 }
        requires slots { slot_numbers token.old.me.1
            ≡ room_rows (shape_of self.now) token.old.me.0 }
        ensures id { IsSameSeat token.old token.new }
        ensures same { token.new.me.0 ≡ token.old.me.0 }
        ensures front { HasFirst token.new.me.1 (row_in (sizes_of (shape_of self.now)) number) }
        ensures others { slot_numbers (rest token.new.me.1)
            ≡ map (row_in (sizes_of (shape_of self.now))) (numbers_of result) }
        ensures rooms { numbers_of result ≡ map (λ (h : Hand). h.room)
            (without_room number token.old.me.0.holding.hands) }
    {
        match rooms {
            InHand::Nothing => InHand::Nothing,
            InHand::One { room: _ } => InHand::Nothing,
            InHand::Two { last, first } => {
                if last == number {
                    return InHand::One { room: first };
                }
                token.turn();
                InHand::One { room: last }
            }
        }
    }

    // The list of the room that was taken last goes back into its slot, and the lock word is freed.
    fn give_front(&self, token: &mut Token<Slot, View>, number: usize, row: usize, slot: Slot)
        requires seat { IsHere self.now token.old }
        requires room { IsInside (shape_of self.now) number }
        requires row { (row ≡ row_in (sizes_of (shape_of self.now)) number) × (row < 2 ^ 40) }
        requires front { HasFirst token.old.me.1 row }
        requires has { 0 < has_room number token.old.me.0.holding }
        requires whole { token.old.me.0.holding.half ≡ None }
        requires same { IsInHand slot.list (in_hand token.old.me.0 number) }
        ensures given { token.new ≡ record token.old { me = (with_given token.old.me.0 number, rest token.old.me.1) } }
    {
        self.table.shared.exchange(token, row, slot);
        self.free_as::<Brand>(token, lock_word(row), number);
    }
}

impl<'a> Seat<'a> {
    /// Takes a place's room, and waits for it. The seat has no room in hand, or only that of a
    /// child of the place's group.
    ///
    /// Linux: `spin_lock(&nlru->lock)` in mm/list_lru.c.
    #[inline(always)]
    pub fn take_room<R: Wait>(&mut self, rt: &R, place: Place) -> Room
        requires place { IsPlaceOfShape (shape_of self.old.core) place }
        requires rooms { MayTake (shape_of self.old.core) (view_of self.old) place }
        ensures place { result.place ≡ place }
        ensures taken { self.new ≡ record self.old {
          view = with_taken (view_of self.old) (place_number place)
              (list_content result.list);
        } }
        ensures told { IsTaken (shape_of self.old.core) (view_of self.old) (place_number place)
            (list_content result.list) }
    {
        let number = number_of(place);
        let row = self.core.row(place);
        self.core.take_or_wait(rt, &mut self.token, number, row);
        let list = self.core.lift(&mut self.token, row).into_list();
        self.rooms = one_more(self.rooms, number);
        Room { place, list }
    }

    /// Tries once to take a place's room. `None` means that it was taken; the failed try is
    /// recorded in the seat's view. A seat that is alone fails only if it has the room itself.
    ///
    /// Linux: `spin_trylock`, which mm/list_lru.c doesn't use.
    pub fn try_room(&mut self, place: Place) -> Option<Room>
        requires place { IsPlaceOfShape (shape_of self.old.core) place }
        requires rooms { MayTake (shape_of self.old.core) (view_of self.old) place }
        ensures missed { result ≡ None → self.new ≡ record self.old {
          view = with_try (view_of self.old)
              (place_number place);
        } }
        ensures busy { result ≡ None → IsBusy (view_of self.old) (place_number place) }
        ensures place { IfSome result (λ room. room.place ≡ place) }
        ensures taken { IfSome result (λ room. self.new ≡ record self.old {
          view = with_taken (view_of self.old)
              (place_number place) (list_content room.list);
        }) }
        ensures told { IfSome result (λ room. IsTaken (shape_of self.old.core) (view_of self.old)
            (place_number place) (list_content room.list)) }
    {
        let number = number_of(place);
        let row = self.core.row(place);
        if self.core.try_once(&mut self.token, number, row) {
            let list = self.core.lift(&mut self.token, row).into_list();
            self.rooms = one_more(self.rooms, number);
            return Some(Room { place, list });
        }
        None
    }

    /// Stores the list's length and number of entries in the count word of its place. The list is
    /// the one in hand with one legal entry more.
    ///
    /// Linux: `nr_items` in `list_lru_add`, `list_lru_del` and `list_lru_isolate` of mm/list_lru.c,
    /// changed under the lock. The number of entries is our own.
    pub fn store_count(&mut self, place: Place, list: &List)
        requires place { IsPlaceOfShape (shape_of self.old.core) place }
        requires may { MayStore (shape_of self.old.core) (view_of self.old) (place_number place)
            list.now }
        ensures stored { self.new ≡ record self.old {
          view = with_stored (view_of self.old) (place_number place)
              (last_entry list.now.entries) list.now.items;
        } }
        ensures later { IsLater (view_of self.old) (place_number place) }
    {
        let number = number_of(place);
        let new = list.entries().len() as u64 * ONE_VERSION + list.len() as u64;
        let word = count_word(self.core.row(place));
        self.core
            .store_as::<Brand>(&mut self.token, word, new, number, list);
    }

    /// Gives a room back. Its list is the one that was taken, with the entries appended whose
    /// counts are stored, and no splice is in progress.
    ///
    /// Linux: `spin_unlock(&nlru->lock)` in mm/list_lru.c.
    #[inline(always)]
    pub fn give_room(&mut self, room: Room)
        requires place { IsPlaceOfShape (shape_of self.old.core) room.place }
        requires has { 0 < has_room (place_number room.place) (view_of self.old).holding }
        requires same { IsInHand room.list (in_hand (view_of self.old) (place_number room.place)) }
        requires whole { (view_of self.old).holding.half ≡ None }
        ensures given { self.new ≡ record self.old { view = with_given (view_of self.old) (place_number room.place) } }
    {
        let Room { place, list } = room;
        let number = number_of(place);
        let row = self.core.row(place);
        self.rooms = self.core.to_front(&mut self.token, self.rooms, number);
        let slot = Slot::of_list(self.core.alloc, list);
        self.core.give_front(&mut self.token, number, row, slot);
    }
}

/// One room more in hand.
pub(crate) fn one_more(rooms: InHand, number: usize) -> InHand
    requires { length (numbers_of rooms) ≤ 1 }
    ensures { numbers_of result ≡ number ∷ numbers_of rooms }
{
    match rooms {
        InHand::Nothing => InHand::One { room: number },
        InHand::One { room } => InHand::Two {
            last: number,
            first: room,
        },
        InHand::Two { last, first } => InHand::Two { last, first },
    }
}
