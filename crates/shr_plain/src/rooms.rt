// SPDX-License-Identifier: GPL-2.0-only
//! The rooms: counting, taking one, putting an entry into its journal, and giving it back.

ghost use Rattle.std.specs.Prelude.{◌≡◌, ◌+◌, ◌*◌, ◌<◌, ◌≤◌, ◌%◌, ◌/◌, ◌^◌, true, [], ◌∷◌, ◌++◌, length, MatchBool};
ghost use Rattle.shr_model.specs.Units.{IsPlainEntry, free_of};
ghost use Rattle.shr_seats.specs.RoomViews.{with_room_stored, with_room_given};
ghost use Rattle.shr_seats.specs.Rows.{row_count};
ghost use Rattle.shr_seats.specs.Standing.{IsSeatOf};
ghost use Rattle.shr_plain.specs.declared.slot.Slot.{Slot as Kept};
ghost use Rattle.shr_plain.specs.Rule.{with_part, part_of};
ghost use Rattle.shr_plain.specs.Seat.{IsUnitSeatOf};
ghost use Rattle.shr_plain.specs.Taking.{Changes, TakesUnitsRoom, HoldsUnitsRoom, Counts};

use crate::slot::Slot;
use crate::steps::WORDS_A_ROOM;
use crate::table::{Pools, UnitSeat};
use crossbeam_utils::Backoff;
use shr_base::journals::PlainEntry;
use shr_base::log::Log;
use std::marker::Brand;
use std::sync::Wait;

// How many units are free once this entry is behind the others.
fn free_with(slot: &Slot, entry: PlainEntry) -> u32
    requires { IsPlainEntry slot.now.journal.items entry }
    ensures free { result ≡ free_of (slot.now.journal.items ++ entry ∷ []) }
    ensures low { result ≤ 20000 }
{
    let Slot { journal: _, free } = slot;
    match entry {
        PlainEntry::Release { by: _, units } => *free + units,
        PlainEntry::Grab { by: _, got } => *free - got as u32,
        PlainEntry::Reclaim {
            worker: _,
            walk: _,
            asked: _,
            freed,
        } => *free - freed,
    }
}

// What a room holds with one entry more.
fn with_entry(slot: Slot, entry: PlainEntry) -> Slot
    requires spare { 0 < slot.journal.spare }
    requires may { IsPlainEntry slot.journal.items entry }
    ensures { result.journal.items ≡ slot.journal.items ++ entry ∷ [] }
{
    let free = free_with(&slot, entry);
    let Slot {
        mut journal,
        free: _,
    } = slot;
    journal.push(entry);
    Slot { journal, free }
}

impl Pools {
    // One compare and exchange of a room's lock word.
    fn try_take(&self, seat: &mut UnitSeat, room: usize) -> bool
        requires seat { IsUnitSeatOf self.now seat.old }
        requires room { room < row_count self.now.sizes }
        ensures taken { MatchBool result (Changes (TakesUnitsRoom room) seat.old seat.new)
            (seat.new ≡ seat.old) }
    {
        self.lock_as::<Brand>(seat, WORDS_A_ROOM * room, room) == 0
    }

    /// Waits for a room, and takes what it holds out of it.
    pub(crate) fn take<R: Wait>(&self, rt: &R, seat: &mut UnitSeat, room: usize) -> Slot
        requires seat { IsUnitSeatOf self.now seat.old }
        requires room { room < row_count self.now.sizes }
        ensures taken { Changes (λ m r. HoldsUnitsRoom room m r result.journal.items) seat.old
            seat.new }
    {
        let backoff = Backoff::new();
        for _turn in rt.forever() {
            if self.try_take(seat, room) {
                return self.table.shared.exchange(
                    seat,
                    room,
                    Slot {
                        journal: Log::new(self.alloc),
                        free: 0,
                    },
                );
            }
            backoff.snooze();
        }
        unreachable!()
    }

    // Stores the count of a room that is in hand, with one entry more.
    fn store(&self, seat: &mut UnitSeat, room: usize, slot: &Slot, entry: PlainEntry)
        requires seat { IsSeatOf self.now.table.shared.table_id seat.old.table_id
            seat.old.me.0.standing }
        requires hand { (part_of seat.old.me.0 room).in_hand ≡ true }
        requires more { slot.now.journal.items ≡ (part_of seat.old.me.0 room).hand ++ entry ∷ [] }
        requires may { IsPlainEntry (part_of seat.old.me.0 room).hand entry }
        requires few { length slot.now.journal.items ≤ 2147483648 }
        requires room { room < row_count self.now.sizes }
        ensures stored { seat.new ≡ record seat.old {
          me = (
            with_part seat.old.me.0 room (with_room_stored (part_of
                seat.old.me.0 room) entry),
            seat.old.me.1,
          );
        } }
    {
        let new = slot.journal.len() as u64 * (1 << 32) + slot.free as u64;
        self.store_as::<Brand>(seat, WORDS_A_ROOM * room + 1, new, room, entry);
    }

    /// Gives a room back with what it holds.
    pub(crate) fn give(&self, seat: &mut UnitSeat, room: usize, slot: Slot)
        requires seat { IsSeatOf self.now.table.shared.table_id seat.old.table_id
            seat.old.me.0.standing }
        requires hand { (part_of seat.old.me.0 room).in_hand ≡ true }
        requires taken { (left : Kept) × (seat.old.me.1 ≡ (room, left) ∷ []) }
        requires same { slot.journal.items ≡ (part_of seat.old.me.0 room).hand }
        requires room { room < row_count self.now.sizes }
        ensures given { seat.new ≡ record seat.old {
          me = (
            with_part seat.old.me.0 room (with_room_given (part_of
                seat.old.me.0 room)),
            [],
          );
        } }
    {
        self.table.shared.exchange(seat, room, slot);
        self.free_as::<Brand>(seat, WORDS_A_ROOM * room, room);
    }

    /// Gives a room back with one entry more, whose memory was made, and stores its count before.
    pub(crate) fn put(&self, seat: &mut UnitSeat, room: usize, slot: Slot, entry: PlainEntry)
        requires seat { IsSeatOf self.now.table.shared.table_id seat.old.table_id
            seat.old.me.0.standing }
        requires hand { (part_of seat.old.me.0 room).in_hand ≡ true }
        requires taken { (left : Kept) × (seat.old.me.1 ≡ (room, left) ∷ []) }
        requires same { slot.journal.items ≡ (part_of seat.old.me.0 room).hand }
        requires spare { 0 < slot.journal.spare }
        requires may { IsPlainEntry slot.journal.items entry }
        requires few { length slot.journal.items < 2147483648 }
        requires room { room < row_count self.now.sizes }
        ensures put { seat.new ≡ record seat.old {
          me = (
            with_part seat.old.me.0 room (with_room_given (with_room_stored (part_of
                seat.old.me.0 room) entry)),
            [],
          );
        } }
    {
        let slot = with_entry(slot, entry);
        self.store(seat, room, &slot, entry);
        self.give(seat, room, slot);
    }

    /// How many units are free in a room, and after how many entries, by one load of its count word.
    pub(crate) fn count(&self, seat: &mut UnitSeat, room: usize) -> (u32, u32)
        requires seat { IsUnitSeatOf self.now seat.old }
        requires room { room < row_count self.now.sizes }
        ensures counted { Changes (λ m r. Counts room m r result.0 result.1) seat.old seat.new }
    {
        let word = self.load_as::<Brand>(seat, WORDS_A_ROOM * room + 1, room);
        ((word % (1 << 32)) as u32, (word / (1 << 32)) as u32)
    }
}
