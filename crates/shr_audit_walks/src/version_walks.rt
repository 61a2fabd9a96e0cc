// SPDX-License-Identifier: GPL-2.0-only
//! The versions of the counts of walks.

ghost use Rattle.std.specs.Prelude.{◌≡◌, flat_map, map, IfOk};
ghost use Rattle.std.specs.Bool.{Decides};
ghost use Rattle.shr_base.specs.declared.places.Place.{Place};
ghost use Rattle.shr_model.specs.Attempts.{counts_of};
ghost use Rattle.shr_model.specs.Walks.{place_in, versions_at};
ghost use Rattle.shr_laws.specs.WellFormed.{AreNotFalling};
ghost use Rattle.shr_audit_walks.specs.VersionTable.{if_here, Notes};

use crate::version_table::{no_versions, note, note_two};
use shr_base::memory::Memory;
use shr_base::places::Place;
use shr_base::walks::{Outcome, WalkRecord};
use std::alloc::Global;
use std::collections::HashMap;

/// The place of an id on the walk's node and in its group.
pub fn place_in(walk: &WalkRecord, id: u16) -> Place
    ensures { result ≡ place_in walk.now id }
{
    Place {
        id,
        node: walk.node,
        group: walk.group,
    }
}

// Notes the versions of the counts of an attempt at a place.
fn note_outcome(
    versions: &mut HashMap<u64, u32>,
    place: Place,
    outcome: &Outcome,
) -> Result<bool, Memory>
    ensures { IfOk result (λ b. Notes versions.old versions.new b
        (if_here place (map (λ c. c.version) (counts_of outcome.now)))) }
{
    match *outcome {
        Outcome::Worn { .. } => Ok(true),
        Outcome::Gone { .. } => Ok(true),
        Outcome::Skip { version, .. } => note(versions, place, version),
        Outcome::Ran { pass, .. } => note(versions, place, pass.version),
        Outcome::Empty { version, .. } => note(versions, place, version),
        Outcome::Cleared { first, second, .. } => note_two(versions, place, first, second),
        Outcome::RestoredSkip { first, version, .. } => note_two(versions, place, first, version),
        Outcome::RestoredRan { first, pass, .. } => note_two(versions, place, first, pass.version),
    }
}

// Notes the versions of the counts of a walk.
fn note_walk(versions: &mut HashMap<u64, u32>, walk: &WalkRecord) -> Result<bool, Memory>
    ensures { IfOk result (λ b. Notes versions.old versions.new b
        (λ place. versions_at place walk.now)) }
{
    for attempt in walk.attempts() {
        let place = place_in(walk, attempt.id);
        if !note_outcome(versions, place, &attempt.outcome())? {
            return Ok(false);
        }
    }
    Ok(true)
}

/// Whether the versions that these walks read at each place never fall.
pub fn walks_never_fall(alloc: Global, walks: &[WalkRecord]) -> Result<bool, Memory>
    ensures { IfOk result (λ b. Decides b ((place : Place)
        → AreNotFalling (flat_map (versions_at place) walks.now))) }
{
    let mut versions = no_versions(alloc);
    for k in 0..walks.len() {
        let walk = &walks[k];
        if !note_walk(&mut versions, walk)? {
            return Ok(false);
        }
    }
    Ok(true)
}
