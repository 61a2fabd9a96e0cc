// SPDX-License-Identifier: GPL-2.0-only
//! The places whose bits some walk of a report cleared.

ghost use Rattle.std.specs.Prelude.{◌≡◌, flat_map, OnOk, IfOk};
ghost use Rattle.shr_model.specs.Attempts.{is_clearing};
ghost use Rattle.shr_model.specs.Walks.{clearings_of};
ghost use Rattle.shr_laws.specs.WalksLawful.{was_cleared};
ghost use Rattle.shr_audit_walks.specs.Cleared.{Clears, HasCleared, cleared_by};

use crate::version_table::place_key;
use crate::version_walks::place_in;
use shr_base::attempts::Attempt;
use shr_base::memory::Memory;
use shr_base::places::Place;
use shr_base::walks::{GoneThen, Outcome, WalkRecord};
use shr_laws::report::Report;
use std::alloc::Global;
use std::collections::HashSet;

// Whether an attempt cleared the bit of its place, whatever it did after.
fn is_clearing(outcome: &Outcome) -> bool
    ensures { result ≡ is_clearing outcome.now }
{
    match outcome {
        Outcome::Gone { then, .. } => match then {
            GoneThen::Set => true,
            GoneThen::Clear => true,
            GoneThen::Root => false,
        },
        Outcome::Cleared { .. } => true,
        Outcome::RestoredSkip { .. } => true,
        Outcome::RestoredRan { .. } => true,
        _ => false,
    }
}

// Notes the place of an attempt of a walk, if it cleared the bit.
fn note_attempt(
    cleared: &mut HashSet<u64>,
    walk: &WalkRecord,
    attempt: &Attempt,
) -> Result<(), Memory>
    ensures { OnOk result (Clears cleared.old cleared.new (cleared_by walk.now attempt.now)) }
{
    if !is_clearing(&attempt.outcome()) {
        return Ok(());
    }
    let place = place_in(walk, attempt.id);
    let key = place_key(place);
    cleared.insert(key)?;
    Ok(())
}

/// Notes the places whose bits a walk cleared.
pub(crate) fn note_walk(cleared: &mut HashSet<u64>, walk: &WalkRecord) -> Result<(), Memory>
    ensures { OnOk result (Clears cleared.old cleared.new (clearings_of walk.now)) }
{
    for attempt in walk.attempts() {
        note_attempt(cleared, walk, attempt)?;
    }
    Ok(())
}

// Notes those that these walks did.
fn note_walks(cleared: &mut HashSet<u64>, walks: &[WalkRecord]) -> Result<(), Memory>
    ensures { OnOk result (Clears cleared.old cleared.new (flat_map clearings_of walks.now)) }
{
    for n in 0..walks.len() {
        note_walk(cleared, &walks[n])?;
    }
    Ok(())
}

/// The places whose bits some walk of a report cleared.
pub(crate) fn cleared_in(alloc: Global, report: &Report) -> Result<HashSet<u64>, Memory>
    ensures { IfOk result (λ cleared. HasCleared report.now cleared) }
{
    let mut cleared = HashSet::new(alloc);
    let parts = report.workers.as_slice();
    for worker in 0..parts.len() {
        let walks = parts[worker].walks.as_slice();
        note_walks(&mut cleared, walks)?;
    }
    Ok(cleared)
}

/// Whether some walk of the report cleared the bit of a place.
pub(crate) fn was_cleared(report: &Report, cleared: &HashSet<u64>, place: Place) -> bool
    requires { HasCleared report.now cleared.now }
    ensures { result ≡ was_cleared report.now place }
{
    let key = place_key(place);
    cleared.contains(&key)
}
