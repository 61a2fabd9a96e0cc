// SPDX-License-Identifier: GPL-2.0-only
//! The entries of pools' journals: each is cited by the reply to its command, or is of a pass of the
//! walk that it names.

ghost use Rattle.std.specs.Prelude.{◌≡◌, ℕ, ◌<◌, ⊤, Some, option_copied, length, slice_get};
ghost use Rattle.std.specs.Bool.{Decides};
ghost use Rattle.std.specs.Option.{IsSomeAnd, IsSome};
ghost use Rattle.shr_audit_formed.specs.Each.{EachItem};
ghost use Rattle.shr_laws.specs.UnitParts.{EachUnits, pass_at, plain_at};
ghost use Rattle.shr_laws.specs.WellFormed.{units_place};
ghost use Rattle.shr_audit_pools.specs.Cited.{AreEntriesRight, IsEntryRight};
ghost use Rattle.shr_audit_pools.specs.Places.{AreKept, named_place};

use crate::cites::is_cited;
use crate::places::{PoolPlace, home_of};
use shr_base::ends::UnitsEnd;
use shr_base::journals::PlainEntry;
use shr_base::scripts::Script;
use shr_base::walks::{PlainTry, PlainWalk};
use shr_laws::report::Report;

// A walk of the pools by the number of its worker and its own.
fn plain_at(report: &Report, worker: u16, walk: u32) -> Option<&PlainWalk>
    ensures { option_copied result ≡ plain_at report.now worker walk }
{
    match report.workers.get(worker as usize) {
        Some(part) => part.plain.get(walk as usize),
        None => None,
    }
}

// Whether a walk of the pools ran a pass at this place.
fn has_passed(script: &Script, place: PoolPlace, walk: &PlainWalk) -> bool
    ensures { Decides result (IsSomeAnd (pass_at script.now (named_place place) walk.now)
        (λ p. ⊤)) }
{
    place == home_of(script, place.pool, walk.node)
        && matches!(
            walk.tries.get(place.pool as usize),
            Some(PlainTry::Ran { .. })
        )
}

// Whether there is a walk of the pools with these numbers, and it did.
fn is_passed(script: &Script, report: &Report, place: PoolPlace, worker: u16, walk: u32) -> bool
    ensures { Decides result (IsSomeAnd (plain_at report.now worker walk)
        (λ w. IsSomeAnd (pass_at script.now (named_place place) w) (λ p. ⊤))) }
{
    match plain_at(report, worker, walk) {
        Some(walk) => has_passed(script, place, walk),
        None => false,
    }
}

// Whether an entry of a pool on a node is cited, or is of a pass.
fn is_entry_right(
    script: &Script,
    report: &Report,
    place: PoolPlace,
    number: usize,
    entry: &PlainEntry,
) -> bool
    ensures { Decides result (IsEntryRight script.now report.now (named_place place) number
        entry.now) }
{
    match *entry {
        PlainEntry::Release { by, .. } => is_cited(report, by, place, number),
        PlainEntry::Grab { by, .. } => is_cited(report, by, place, number),
        PlainEntry::Reclaim { worker, walk, .. } => {
            is_passed(script, report, place, worker, walk)
        }
    }
}

// Whether each entry of a journal is.
fn are_entries_right(script: &Script, report: &Report, units: &UnitsEnd) -> bool
    ensures { Decides result (AreEntriesRight script.now report.now units.now) }
{
    let place = PoolPlace {
        pool: units.pool,
        node: units.node,
    };
    let entries = units.entries.as_slice();
    for number in 0..entries.len() {
        if !is_entry_right(script, report, place, number, &entries[number]) {
            return false;
        }
    }
    true
}

/// Whether each entry of each journal of a pool is cited by the reply to its command, or is of a pass
/// of the walk that it names.
pub(crate) fn are_all_entries_right(script: &Script, report: &Report) -> bool
    requires { AreKept report.now }
    ensures { Decides result (EachUnits report.now (IsEntryRight script.now report.now)) }
{
    for units in report.units.as_slice() {
        if !are_entries_right(script, report, units) {
            return false;
        }
    }
    true
}
