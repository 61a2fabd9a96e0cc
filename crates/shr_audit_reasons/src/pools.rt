// SPDX-License-Identifier: GPL-2.0-only
//! Journals of pools that were found used up.

ghost use Rattle.std.specs.Prelude.{◌≡◌, ◌+◌, ◌^◌, ◌<◌, ◌≤◌, length, slice_get};
ghost use Rattle.std.specs.Bool.{Decides};
ghost use Rattle.shr_model.specs.Places.{is_place};
ghost use Rattle.shr_model.specs.Units.{free_after, free_of};
ghost use Rattle.shr_laws.specs.Causes.{IsPoolSpent};
ghost use Rattle.shr_laws.specs.UnitParts.{home_in, pool_place, units_journal};
ghost use Rattle.shr_laws.specs.WellFormed.{units_place};

use shr_base::ends::UnitsEnd;
use shr_base::journals::PlainEntry;
use shr_base::places::Place;
use shr_base::replies::Spent;
use shr_base::scripts::Script;
use shr_laws::report::Report;

// Whether a pool's journal is that of a place.
fn is_of_place(units: &UnitsEnd, place: Place) -> bool
    ensures { result ≡ is_place (units_place units.now) place }
{
    units.pool as u16 == place.id && units.node == place.node && place.group == 0
}

// The journal of a pool at a place; one that isn't printed is empty.
fn units_at(report: &Report, place: Place) -> &[PlainEntry]
    ensures { result.now ≡ units_journal report.now place }
{
    for units in report.units.as_slice() {
        if is_of_place(units, place) {
            return units.entries.as_slice();
        }
    }
    &[]
}

// How many units are free after one entry more.
fn free_after(free: u64, entry: &PlainEntry) -> u64
    requires { free < 2 ^ 63 }
    ensures free { result ≡ free_after free entry.now }
    ensures small { result ≤ free + 2 ^ 32 }
{
    match entry {
        PlainEntry::Release { units, .. } => free + *units as u64,
        PlainEntry::Grab { got, .. } => { if *got { free.saturating_sub(1) } else { free } }
        PlainEntry::Reclaim { freed, .. } => free.saturating_sub(*freed as u64),
    }
}

// How many a journal leaves free.
fn free_of(entries: &[PlainEntry]) -> u64
    requires { length entries.now ≤ 2 ^ 31 }
    ensures { result ≡ free_of entries.now }
{
    let mut free = 0;
    for entry in entries {
        free = free_after(free, entry);
    }
    free
}

// The node at which a pool keeps the units of a node.
fn home_in(script: &Script, pool: usize, node: u8) -> u8
    ensures { result ≡ home_in (slice_get script.now.pools.items pool) node }
{
    match script.pools.get(pool) {
        Some(decl) => { if decl.flat { 0 } else { node } }
        None => node,
    }
}

// Whether a place is that of a pool on a node.
fn is_pool_place(script: &Script, pool: usize, node: u8, place: Place) -> bool
    ensures { Decides result (place ≡ pool_place script.now pool node) }
{
    place.id as usize == pool && place.node == home_in(script, pool, node) && place.group == 0
}

// Whether the journal of a place has 2^31 entries, which leave so many units free.
fn is_full_at(report: &Report, place: Place, free: u32) -> bool
    ensures { Decides result ((length (units_journal report.now place) ≡ 2 ^ 31) ×
        (free ≡ free_of (units_journal report.now place))) }
{
    let units = units_at(report, place);
    units.len() == 0x8000_0000 && free as u64 == free_of(units)
}

/// Whether the journal of a pool on a node was found used up with these numbers.
pub fn is_pool_spent(script: &Script, report: &Report, pool: usize, node: u8, spent: Spent) -> bool
    ensures { Decides result (IsPoolSpent report.now (pool_place script.now pool node) spent) }
{
    match spent {
        Spent::List {
            place,
            entries,
            items,
        } => {
            is_pool_place(script, pool, node, place)
                && entries == 0x8000_0000
                && is_full_at(report, place, items)
        }
        _ => false,
    }
}
