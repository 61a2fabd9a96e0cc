// SPDX-License-Identifier: GPL-2.0-only
//! The tables at the end.

ghost use Rattle.std.specs.Prelude.{◌≡◌, ℕ, ◌<◌, ◌≤◌, ◌++◌, map, true, false, IfOk, OnOk, slice_index_or};
ghost use Rattle.std.specs.Mem.Slots.{slots_items, slots_filled, slots_len};
ghost use Rattle.std.specs.Mem.Slots.Ownership.{Filled};
ghost use Rattle.shr_seats.specs.Rows.{row_count};
ghost use Rattle.shr_plain.specs.Ending.{IsPoolsEnd, units_end_value, units_ends, units_ends_below, entries_at};
ghost use Rattle.shr_plain.specs.Seat.{IsFirstPlainOf, IsLastSeat, first_plain, first_plain_standing};

use crate::slot::Slot;
use crate::table::{FirstPlainSeat, Pools};
use atomic_table::Closed;
use shr_base::ends::{PlaceAmount, UnitsEnd};
use shr_base::log::Log;
use shr_base::memory::Memory;
use shr_base::places::Place;
use shr_seats::rows::Sizes;
use std::alloc::Global;

/// What the tables leave: each pool and node with a journal, by pool and node, and the deferred
/// amounts that aren't 0, whose places have the pool as id and group 0.
#[derive(Drop)]
pub struct PoolsEnd {
    pub units: Log<UnitsEnd>,
    pub pool_deferred: Log<PlaceAmount>,
}

// One pool and node more, if it has a journal.
fn add_end(ends: &mut Log<UnitsEnd>, place: Place, slot: Slot) -> Result<(), Memory>
    requires { place.id < 256 }
    ensures { OnOk result (map units_end_value ends.new.items ≡ map units_end_value ends.old.items
        ++ units_ends place slot.journal.items) }
{
    let Slot { journal, free } = slot;
    if journal.len() == 0 {
        return Ok(());
    }
    ends.add(UnitsEnd {
        pool: place.id as u8,
        node: place.node,
        entries: journal,
        free,
    })
}

// One pool and node more, if none before it was lost.
fn add_where(ends: &mut Log<UnitsEnd>, place: Place, slot: Slot, whole: bool) -> bool
    requires { place.id < 256 }
    ensures whole { result ≡ true → whole ≡ true }
    ensures added { result ≡ true → map units_end_value ends.new.items
        ≡ map units_end_value ends.old.items ++ units_ends place slot.journal.items }
{
    whole && add_end(ends, place, slot).is_ok()
}

// Empties the rooms, and gives what they had. Once memory has run out, the rooms after that are
// emptied too.
fn take_ends(
    alloc: Global,
    closed: &mut Closed<Slot, Global>,
    sizes: Sizes,
) -> Result<Log<UnitsEnd>, Memory>
    requires some { (0 < sizes.nodes) × (0 < sizes.groups) }
    requires few { sizes.ids ≤ 64 }
    requires rooms { row_count sizes ≡ slots_len closed.old.slots }
    requires full { Filled (slots_filled closed.old.slots) 0 (slots_len closed.old.slots) }
    ensures len { slots_len closed.new.slots ≡ slots_len closed.old.slots }
    ensures taken { (k : ℕ) → k < row_count sizes
        → slice_index_or (slots_filled closed.new.slots) k false ≡ false }
    ensures ends { IfOk result (λ ends. map units_end_value ends.items
        ≡ units_ends_below sizes (row_count sizes) (entries_at (slots_items closed.old.slots))) }
{
    let mut ends = Log::new(alloc);
    let mut whole = true;
    for row in 0..sizes.rows() {
        let slot = closed.take(row);
        whole = add_where(&mut ends, sizes.place(row), slot, whole);
    }
    if whole { Ok(ends) } else { Err(Memory) }
}

impl Pools {
    /// Ends both tables, and gives each journal with its free units, and what is still deferred. By
    /// then all other seats were joined into the first one, whose view has each entry. On `Memory`
    /// the tables are gone too.
    pub fn finish(self, first: FirstPlainSeat) -> Result<PoolsEnd, Memory>
        requires first { IsFirstPlainOf self first }
        requires whole { IsLastSeat (first_plain_standing first) }
        ensures { IfOk result (IsPoolsEnd self.sizes (first_plain first)) }
    {
        let Pools {
            table,
            deferred,
            settings: _,
            sizes,
            alloc,
        } = self;
        let FirstPlainSeat {
            units,
            deferred: moving,
            walks: _,
        } = first;
        let mut closed = table.close_with(units);
        let units = take_ends(alloc, &mut closed, sizes);
        closed.free();
        let pool_deferred = deferred.finish(alloc, moving)?;
        Ok(PoolsEnd {
            units: units?,
            pool_deferred,
        })
    }
}
