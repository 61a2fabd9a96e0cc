// SPDX-License-Identifier: GPL-2.0-only
//! What lies in a slot of the table.

ghost use Rattle.std.specs.Prelude.{◌≡◌, []};
ghost use Rattle.shr_core.specs.Slots.{no_list, no_pool};

use shr_base::journals::PoolEntry;
use shr_base::log::Log;
use shr_list::list::List;
use std::alloc::Global;
use std::marker::Model;

/// One of the two, or neither while a seat has the room in hand.
#[derive(Drop)]
enum Lodged {
    Nothing,
    Place { list: List },
    Pool { pool: Log<PoolEntry> },
}

/// The content of a room: the list of a place, or the pool's journal. Contracts see both, and the
/// other of the two as empty.
#[derive(Drop)]
pub struct Slot {
    lodged: Lodged,
    alloc: Global,
}

impl Model for Slot {
    ghost use Rattle.shr_core.specs.Slots.{Slot, slot_of};

    ghost Value = { Slot };

    ghost view = { λ s. slot_of s.lodged };
}

impl Slot {
    /// A slot with neither.
    pub fn nothing(alloc: Global) -> Slot
        ensures list { result.list ≡ no_list }
        ensures pool { result.pool ≡ no_pool }
    {
        Slot {
            lodged: Lodged::Nothing,
            alloc,
        }
    }

    /// A slot with the list of a place.
    pub fn of_list(alloc: Global, list: List) -> Slot
        ensures list { result.list ≡ list }
        ensures pool { result.pool.items ≡ [] }
    {
        Slot {
            lodged: Lodged::Place { list },
            alloc,
        }
    }

    /// A slot with the pool's journal.
    pub fn of_pool(alloc: Global, pool: Log<PoolEntry>) -> Slot
        ensures { result.pool ≡ pool }
    {
        Slot {
            lodged: Lodged::Pool { pool },
            alloc,
        }
    }

    /// The list.
    pub fn into_list(self) -> List
        ensures { result ≡ self.list }
    {
        let Slot { lodged, alloc } = self;
        match lodged {
            Lodged::Place { list } => list,
            _ => List::new(alloc, 0, 0),
        }
    }

    /// The pool's journal.
    pub fn into_pool(self) -> Log<PoolEntry>
        ensures { result ≡ self.pool }
    {
        let Slot { lodged, alloc } = self;
        match lodged {
            Lodged::Pool { pool } => pool,
            _ => Log::new(alloc),
        }
    }
}
