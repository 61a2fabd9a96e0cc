// SPDX-License-Identifier: GPL-2.0-only
//! Whether the versions that walks read are above what their worker's earlier replies cite.

ghost use Rattle.std.specs.Prelude.{◌≡◌, ℕ, ◌<◌, length, Some, IfOk};
ghost use Rattle.std.specs.Bool.{Decides};
ghost use Rattle.std.specs.List.{AllByRecursion};
ghost use Rattle.shr_base.specs.declared.places.Place.{Place};
ghost use Rattle.shr_model.specs.Walks.{versions_at};
ghost use Rattle.shr_laws.specs.Parts.{at, cited_at, serial_of, EachWalk};
ghost use Rattle.shr_laws.specs.WellFormed.{IsWellFormed};
ghost use Rattle.shr_audit_walks.specs.Cited.{AreBothAbove, IsOutcomeAbove, IsPartLater, IsWalkAbove};
ghost use Rattle.shr_audit_walks.specs.LaterWalks.{AreOfAnswers};

use crate::cited::{is_above_highest, none_cited, note_answers};
use crate::version_walks::place_in;
use shr_base::ends::WorkerPart;
use shr_base::memory::Memory;
use shr_base::places::Place;
use shr_base::walks::{Outcome, WalkRecord};
use shr_laws::report::Report;
use std::alloc::Global;
use std::collections::HashMap;

// Whether each version that an attempt at a place read is above what was cited there.
fn is_outcome_above(cited: &HashMap<u64, u32>, place: Place, outcome: &Outcome) -> bool
    ensures { Decides result (IsOutcomeAbove cited.now place outcome.now) }
{
    match *outcome {
        Outcome::Worn { .. } => true,
        Outcome::Gone { .. } => true,
        Outcome::Skip { version, .. } => is_above_highest(cited, place, version),
        Outcome::Ran { pass, .. } => is_above_highest(cited, place, pass.version),
        Outcome::Empty { version, .. } => is_above_highest(cited, place, version),
        Outcome::Cleared { first, second, .. } => are_both_above(cited, place, first, second),
        Outcome::RestoredSkip { first, version, .. } => {
            are_both_above(cited, place, first, version)
        }
        Outcome::RestoredRan { first, pass, .. } => {
            are_both_above(cited, place, first, pass.version)
        }
    }
}

// Whether both of two versions are.
fn are_both_above(cited: &HashMap<u64, u32>, place: Place, first: u32, second: u32) -> bool
    ensures { Decides result (AreBothAbove cited.now place first second) }
{
    let above = is_above_highest(cited, place, first);
    let also = is_above_highest(cited, place, second);
    above && also
}

// Whether each version that a walk read is.
fn is_walk_above(cited: &HashMap<u64, u32>, walk: &WalkRecord) -> bool
    ensures { Decides result (IsWalkAbove cited.now walk.now) }
{
    for attempt in walk.attempts() {
        let place = place_in(walk, attempt.id);
        if !is_outcome_above(cited, place, &attempt.outcome()) {
            return false;
        }
    }
    true
}

// Whether the versions of each walk of a worker are above what its earlier answers cite.
fn are_later_in(alloc: Global, part: &WorkerPart) -> Result<bool, Memory>
    requires { AreOfAnswers (length part.now.answers.items) part.now.walks.items }
    ensures { IfOk result (λ b. Decides b (IsPartLater part.now)) }
{
    let answers = part.answers.as_slice();
    let walks = part.walks.as_slice();
    let mut cited = none_cited(alloc);
    let mut noted = 0;
    for n in 0..walks.len() {
        let walk = &walks[n];
        let command = walk.by.command as usize;
        note_answers(&mut cited, answers, noted, command)?;
        noted = command;
        if !is_walk_above(&cited, walk) {
            return Ok(false);
        }
    }
    Ok(true)
}

/// Whether the counts of each walk have versions above every entry that an earlier reply of its
/// worker cites at the place.
pub fn are_versions_later(alloc: Global, report: &Report) -> Result<bool, Memory>
    requires { IsWellFormed report.now }
    ensures { IfOk result (λ b. Decides b (EachWalk report.now (λ worker n w.
        (k entry : ℕ) (place : Place) → k < w.by.command
        → cited_at report.now (serial_of worker k) ≡ Some (at place entry)
        → AllByRecursion (λ version. entry < version) (versions_at place w)))) }
{
    let parts = report.workers.as_slice();
    for worker in 0..parts.len() {
        if !are_later_in(alloc, &parts[worker])? {
            return Ok(false);
        }
    }
    Ok(true)
}
