// SPDX-License-Identifier: GPL-2.0-only
//! Whether the maps of walks have the bits of what their worker's earlier replies filled.

ghost use Rattle.std.specs.Prelude.{◌≡◌, ℕ, ◌<◌, true, false, length, slice_get, Some, IfOk};
ghost use Rattle.std.specs.Bool.{Decides};
ghost use Rattle.shr_base.specs.declared.places.Place.{Place};
ghost use Rattle.shr_base.specs.declared.walks.MapSeen.{MapSeen};
ghost use Rattle.shr_audit_case.specs.Lists.{IsCaseOf, IsReplayOf};
ghost use Rattle.shr_model.specs.Bits.{is_set};
ghost use Rattle.shr_model.specs.Places.{bit_of};
ghost use Rattle.shr_laws.specs.Parts.{serial_of, EachWalk};
ghost use Rattle.shr_laws.specs.WalksLawful.{Covers, FillsPlace, was_cleared};
ghost use Rattle.shr_laws.specs.WellFormed.{IsWellFormed};
ghost use Rattle.shr_audit_walks.specs.Cleared.{HasCleared};
ghost use Rattle.shr_audit_walks.specs.Filled.{IsPartFilled, IsWalkFull};
ghost use Rattle.shr_audit_walks.specs.LaterWalks.{AreOfAnswers};

use crate::cleared::cleared_in;
use crate::filled::{is_map_full, none_filled, note_fillings};
use shr_audit_case::case::Case;
use shr_base::ends::WorkerPart;
use shr_base::memory::Memory;
use shr_base::scripts::Script;
use shr_base::walks::WalkRecord;
use shr_laws::report::Report;
use std::alloc::Global;
use std::collections::{HashMap, HashSet};

// Whether each map of a walk has the bits of these places that it is of.
fn is_walk_full(filled: &HashMap<u64, u64>, walk: &WalkRecord) -> bool
    ensures { Decides result (IsWalkFull filled.now walk.now) }
{
    for map in walk.maps() {
        if !is_map_full(filled, walk, map) {
            return false;
        }
    }
    true
}

// Whether the maps of each walk of a worker have the bits of what its earlier answers filled.
fn are_bits_seen_in(
    alloc: Global,
    report: &Report,
    case: &Case,
    cleared: &HashSet<u64>,
    part: &WorkerPart,
) -> Result<bool, Memory>
    requires replayed { IsReplayOf report.now case.now }
    requires cleared { HasCleared report.now cleared.now }
    requires stand { AreOfAnswers (length part.now.answers.items) part.now.walks.items }
    ensures { IfOk result (λ b. Decides b
        (IsPartFilled case.now.parents.items report.now part.now)) }
{
    let answers = part.answers.as_slice();
    let walks = part.walks.as_slice();
    let mut filled = none_filled(alloc);
    let mut noted = 0;
    for n in 0..walks.len() {
        let walk = &walks[n];
        let command = walk.by.command as usize;
        note_fillings(&mut filled, report, case, cleared, answers, noted..command)?;
        noted = command;
        if !is_walk_full(&filled, walk) {
            return Ok(false);
        }
    }
    Ok(true)
}

/// Whether the maps of each walk have the bit of each place that an earlier reply of its worker
/// filled, unless some walk cleared it.
pub fn are_bits_seen(
    alloc: Global,
    script: &Script,
    report: &Report,
    case: &Case,
) -> Result<bool, Memory>
    requires case { IsCaseOf script.now report.now case.now }
    requires well { IsWellFormed report.now }
    ensures { IfOk result (λ b. Decides b (EachWalk report.now (λ worker n w.
        (i k : ℕ) (m : MapSeen) (place : Place) → slice_get w.maps.items i ≡ Some m
        → Covers w m place → k < w.by.command
        → FillsPlace script.now report.now (serial_of worker k) place
        → was_cleared report.now place ≡ false
        → is_set m.bits (bit_of place.id) ≡ true))) }
{
    let cleared = cleared_in(alloc, report)?;
    let parts = report.workers.as_slice();
    for worker in 0..parts.len() {
        if !are_bits_seen_in(alloc, report, case, &cleared, &parts[worker])? {
            return Ok(false);
        }
    }
    Ok(true)
}
