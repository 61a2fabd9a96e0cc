// SPDX-License-Identifier: GPL-2.0-only
//! Grabbing a unit of a pool.

ghost use Rattle.shr_plain.specs.Answers.{GrabGives};
ghost use Rattle.shr_plain.specs.Seat.{ActsPlain};
ghost use Rattle.shr_plain.specs.Settings.{IsPoolOf, home_place, room_of};

use crate::answers::GrabAnswer;
use crate::releasing::MOST_ENTRIES;
use crate::table::PlainSeat;
use shr_base::journals::PlainEntry;
use shr_base::places::Serial;
use shr_base::replies::Spent;
use std::sync::Wait;

impl<'a> PlainSeat<'a> {
    /// Takes a free unit of a pool, if there is one, or tells that none is. Both are entries.
    ///
    /// It waits for the room, and takes memory for the entry. After `Worn` and `Memory` the pool is
    /// as it was. Our own; the user of a shrinker's objects takes them as it likes.
    pub fn grab<R: Wait>(&mut self, rt: &R, by: Serial, pool: u8, node: u8) -> GrabAnswer
        requires pool { IsPoolOf self.old.pools.settings.items self.old.pools.sizes pool node }
        ensures grabbed { ActsPlain (GrabGives (home_place self.old.pools.settings.items pool node)
            (room_of self.old.pools.settings.items self.old.pools.sizes pool node) by result)
            self.old self.new }
    {
        let pools = self.pools;
        let place = pools.place(pool, node);
        let room = pools.sizes.row(place);
        let mut slot = pools.take(rt, &mut self.units, room);
        let entry = slot.journal.len() as u32;
        let free = slot.free;
        if entry >= MOST_ENTRIES {
            pools.give(&mut self.units, room, slot);
            return GrabAnswer::Worn {
                spent: Spent::List {
                    place,
                    entries: entry,
                    items: free,
                },
            };
        }
        if slot.journal.reserve(1).is_err() {
            pools.give(&mut self.units, room, slot);
            return GrabAnswer::Memory;
        }
        let got = free > 0;
        pools.put(&mut self.units, room, slot, PlainEntry::Grab { by, got });
        if got {
            return GrabAnswer::Grabbed { entry };
        }
        GrabAnswer::Bare { entry }
    }
}
