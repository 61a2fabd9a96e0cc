// SPDX-License-Identifier: GPL-2.0-only
//! Releasing units to a pool.

ghost use Rattle.std.specs.Prelude.{◌≤◌};
ghost use Rattle.shr_plain.specs.Answers.{ReleaseGives};
ghost use Rattle.shr_plain.specs.Seat.{ActsPlain};
ghost use Rattle.shr_plain.specs.Settings.{IsPoolOf, home_place, room_of};

use crate::answers::ReleaseAnswer;
use crate::table::PlainSeat;
use shr_base::journals::PlainEntry;
use shr_base::places::Serial;
use shr_base::replies::Spent;
use std::sync::Wait;

/// The most units that may be free in a pool on a node.
pub const MOST_FREE: u32 = 20_000;

/// The most entries of the journal of a pool on a node.
pub const MOST_ENTRIES: u32 = 1 << 31;

impl<'a> PlainSeat<'a> {
    /// Makes 1 to 20,000 units free in a pool, or tells why not. All units of a flat pool are at
    /// node 0.
    ///
    /// It waits for the room, and takes memory for the entry. After `Full`, `Worn` and `Memory` the
    /// pool is as it was. Our own; a shrinker's objects come to be freeable as its owner likes.
    pub fn release<R: Wait>(
        &mut self,
        rt: &R,
        by: Serial,
        pool: u8,
        node: u8,
        units: u32,
    ) -> ReleaseAnswer
        requires pool { IsPoolOf self.old.pools.settings.items self.old.pools.sizes pool node }
        requires units { (1 ≤ units) × (units ≤ 20000) }
        ensures released { ActsPlain (ReleaseGives
            (home_place self.old.pools.settings.items pool node)
            (room_of self.old.pools.settings.items self.old.pools.sizes pool node) by units
            result) self.old self.new }
    {
        let pools = self.pools;
        let place = pools.place(pool, node);
        let room = pools.sizes.row(place);
        let mut slot = pools.take(rt, &mut self.units, room);
        let entries = slot.journal.len() as u32;
        let free = slot.free;
        if free + units > MOST_FREE {
            pools.give(&mut self.units, room, slot);
            return ReleaseAnswer::Full { entries, free };
        }
        if entries >= MOST_ENTRIES {
            pools.give(&mut self.units, room, slot);
            return ReleaseAnswer::Worn {
                spent: Spent::List {
                    place,
                    entries,
                    items: free,
                },
            };
        }
        if slot.journal.reserve(1).is_err() {
            pools.give(&mut self.units, room, slot);
            return ReleaseAnswer::Memory;
        }
        pools.put(
            &mut self.units,
            room,
            slot,
            PlainEntry::Release { by, units },
        );
        ReleaseAnswer::Released { entry: entries }
    }
}
