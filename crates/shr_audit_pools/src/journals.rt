// SPDX-License-Identifier: GPL-2.0-only
//! The journals of the pools.

ghost use Rattle.std.specs.Prelude.{◌≡◌, ◌≢◌, ◌≤◌, List, IfSome, IfNone, MatchOption};
ghost use Rattle.std.specs.Bool.{Decides};
ghost use Rattle.shr_base.specs.declared.journals.PlainEntry.{PlainEntry};
ghost use Rattle.shr_audit_formed.specs.Each.{EachItem};
ghost use Rattle.shr_model.specs.Units.{IsPlainEntry, IsPlainJournal, free_after, free_of};
ghost use Rattle.shr_laws.specs.Pools.{AreUnitsRight};
ghost use Rattle.shr_laws.specs.WellFormed.{IsWellFormed, units_place};
ghost use Rattle.shr_audit_pools.specs.Journals.{AreApart, AreJournalsRight, IsPoolHome, Leaves};

use shr_base::ends::UnitsEnd;
use shr_base::journals::PlainEntry;
use shr_base::scripts::Script;
use shr_laws::report::Report;

/// How many units are free after an entry, if it has the outcome that so many before it leave it.
pub(crate) fn free_after(free: u32, entry: &PlainEntry) -> Option<u32>
    requires { free ≤ 20000 }
    ensures few { IfSome result (λ next. next ≤ 20000) }
    ensures right { (before : List PlainEntry) → free ≡ free_of before
        → MatchOption result (IsPlainEntry before entry.now → ⊥)
        (λ next. IsPlainEntry before entry.now × (next ≡ free_after free entry.now)) }
{
    match *entry {
        PlainEntry::Release { units, .. } => {
            if units > 20_000 - free {
                return None;
            }
            Some(free + units)
        }
        PlainEntry::Grab { got, .. } => {
            if got != (free >= 1) {
                return None;
            }
            Some(if got { free - 1 } else { free })
        }
        PlainEntry::Reclaim { asked, freed, .. } => {
            if freed != asked.min(free) {
                return None;
            }
            Some(free - freed)
        }
    }
}

// How many units a journal leaves free, if each entry has the outcome that those before it leave it.
fn free_of(entries: &[PlainEntry]) -> Option<u32>
    ensures some { IfSome result (λ free. IsPlainJournal entries.now
        × (free ≡ free_of entries.now)) }
    ensures none { IfNone result (IsPlainJournal entries.now → ⊥) }
{
    let mut free = 0;
    for entry in entries {
        match free_after(free, entry) {
            Some(next) => free = next,
            None => return None,
        }
    }
    Some(free)
}

// Whether a journal leaves so many units free, and each entry has its outcome.
fn leaves(entries: &[PlainEntry], free: u32) -> bool
    ensures { Decides result (Leaves entries.now free) }
{
    match free_of(entries) {
        Some(left) => left == free,
        None => false,
    }
}

// Whether there is a pool with this number, of which this node is a home.
fn is_home(script: &Script, pool: u8, node: u8) -> bool
    ensures { Decides result (IsPoolHome script.now pool node) }
{
    match script.pools.get(pool as usize) {
        Some(decl) => node < script.nodes && (!decl.flat || node == 0),
        None => false,
    }
}

// Whether a journal that is printed is of a pool at its home, with the outcomes and the free units
// that it leaves.
fn are_units_right(script: &Script, units: &UnitsEnd) -> bool
    ensures { Decides result (AreUnitsRight script.now units.now) }
{
    is_home(script, units.pool, units.node) && leaves(units.entries.as_slice(), units.free)
}

// Whether each journal is.
fn are_all_right(script: &Script, ends: &[UnitsEnd]) -> bool
    ensures { Decides result (EachItem (AreUnitsRight script.now) ends.now) }
{
    for units in ends {
        if !are_units_right(script, units) {
            return false;
        }
    }
    true
}

// Whether two journals that stand next to one another are of two places.
fn are_apart(units: &UnitsEnd, next: &UnitsEnd) -> bool
    ensures { Decides result (units_place units.now ≢ units_place next.now) }
{
    units.pool != next.pool || units.node != next.node
}

// Whether each two that stand next to one another are.
fn are_all_apart(ends: &[UnitsEnd]) -> bool
    ensures { Decides result (AreApart ends.now) }
{
    for i in 1..ends.len() {
        if !are_apart(&ends[i - 1], &ends[i]) {
            return false;
        }
    }
    true
}

/// Whether each journal of a pool is printed once, is of a pool at its home, has the outcomes that
/// follow from those before, and leaves the free units that are printed.
pub fn are_journals_right(script: &Script, report: &Report) -> bool
    requires { IsWellFormed report.now }
    ensures { Decides result (AreJournalsRight script.now report.now) }
{
    let ends = report.units.as_slice();
    are_all_right(script, ends) && are_all_apart(ends)
}
