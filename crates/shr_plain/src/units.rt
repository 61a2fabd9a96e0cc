// SPDX-License-Identifier: GPL-2.0-only
//! A pool on a node, as a shrinker.

ghost use Rattle.std.specs.Prelude.{◌<◌, ◌≤◌, None};
ghost use Rattle.shr_seats.specs.Rows.{row_count};
ghost use Rattle.shr_plain.specs.Counting.{counts_seen, scans_of, KeepsUnits, TellsUnits, ReclaimGives};
ghost use Rattle.shr_plain.specs.Rule.{part_of};
ghost use Rattle.shr_plain.specs.Seat.{IsUnitSeatOf};
ghost use Rattle.shr_plain.specs.Taking.{Changes};
ghost use Rattle.shr_plain.specs.Keeping.{keeps_refl, keeps_trans, seat_stays, units_tells_stay};

use crate::releasing::MOST_ENTRIES;
use crate::table::{Pools, UnitSeat};
use shr_base::journals::PlainEntry;
use shr_base::places::Place;
use shr_base::replies::Spent;
use shr_pass::answers::{Count, ScanAnswer};
use shr_pass::shrinker::Shrinker;
use std::sync::Wait;

/// A pool on a node, as a walk counts and scans it.
///
/// Linux: a shrinker of one's own, as `count_objects` and `scan_objects` of `struct shrinker` in
/// include/linux/shrinker.h.
#[derive(Drop)]
pub struct Units<'a, R: Wait> {
    pub(crate) rt: &'a R,
    pub(crate) pools: &'a Pools,
    pub(crate) place: Place,
    // The room of the place.
    pub(crate) room: usize,
    // A count up to this many units is skipped.
    pub(crate) floor: u32,
    pub(crate) worker: u16,
    // The walk's number among those of its worker.
    pub(crate) walk: u32,
    // How many scans were called, modulo 2^64.
    pub(crate) calls: u64,
    // What the last scan answered.
    pub(crate) last: Option<ScanAnswer>,
}

impl<'a, R: Wait> Shrinker for Units<'a, R> {
    type Seat = UnitSeat;

    // It has no bit, so none is owed.
    ghost serves = { λ x. None };

    ghost owes = { λ x s. ⊥ };

    ghost counts = { λ x s. counts_seen x.floor (part_of s.me.0 x.room) };

    ghost scans = { λ x s. scans_of x.worker x.walk (part_of s.me.0 x.room).made };

    ghost ready = { λ x s. IsUnitSeatOf x.pools.now s × (x.room < row_count x.pools.now.sizes) };

    ghost kept = { λ x s t. KeepsUnits x.room x.worker x.walk s t };

    ghost calls = { λ x. x.calls };

    ghost closes = { λ x. 0 };

    ghost last = { λ x. x.last };

    ghost told = { λ x a s. TellsUnits x.place a (part_of s.me.0 x.room) };

    fn count(&mut self, seat: &mut UnitSeat) -> Count {
        let (len, version) = self.pools.count(seat, self.room);
        if len == 0 {
            Count::Empty { version }
        } else if len <= self.floor {
            Count::Skip { len, version }
        } else {
            Count::Many { len, version }
        }
    }

    fn scan(&mut self, seat: &mut UnitSeat, asked: u32) -> ScanAnswer {
        self.calls = self.calls.wrapping_add(1);
        let answer = self.reclaim(seat, asked);
        self.last = Some(answer);
        answer
    }

    ghost kept_refl = { λ x s. keeps_refl x.room x.worker x.walk s };

    ghost kept_trans = { λ x s t u a b. keeps_trans x.room x.worker x.walk s t u a b };

    ghost ready_stays = { λ x s t a b. (seat_stays x.pools.now x.room x.worker x.walk s t a.0 b, a.1) };

    ghost told_stays = { λ x a s t b c. units_tells_stay x.place x.room x.worker x.walk a s t b c };
}

impl<'a, R: Wait> Units<'a, R> {
    // One scan: it frees what is asked or what is free, whichever is less, and makes an entry of it,
    // also where that is 0.
    fn reclaim(&self, seat: &mut UnitSeat, asked: u32) -> ScanAnswer
        requires seat { IsUnitSeatOf self.now.pools.now seat.old }
        requires room { self.now.room < row_count self.now.pools.now.sizes }
        ensures reclaimed { Changes (ReclaimGives self.now.place self.now.room self.now.worker
            self.now.walk asked result) seat.old seat.new }
    {
        let mut slot = self.pools.take(self.rt, seat, self.room);
        let entries = slot.journal.len() as u32;
        let free = slot.free;
        if entries >= MOST_ENTRIES {
            self.pools.give(seat, self.room, slot);
            return ScanAnswer::Worn {
                spent: Spent::List {
                    place: self.place,
                    entries,
                    items: free,
                },
            };
        }
        if slot.journal.reserve(1).is_err() {
            self.pools.give(seat, self.room, slot);
            return ScanAnswer::NoRoom;
        }
        let freed = asked.min(free);
        let entry = PlainEntry::Reclaim {
            worker: self.worker,
            walk: self.walk,
            asked,
            freed,
        };
        self.pools.put(seat, self.room, slot, entry);
        ScanAnswer::Freed { objects: freed }
    }
}
