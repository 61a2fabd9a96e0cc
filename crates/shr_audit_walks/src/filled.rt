// SPDX-License-Identifier: GPL-2.0-only
//! The places that a worker's answers filled, as words of bits by node, group and unit.

ghost use Rattle.std.specs.Prelude.{◌≡◌, ◌≤◌, Some, length, IfOk, OnOk};
ghost use Rattle.std.specs.Bool.{Decides};
ghost use Rattle.shr_base.specs.declared.places.Place.{Place};
ghost use Rattle.shr_audit_case.specs.Lists.{IsReplayOf};
ghost use Rattle.shr_audit_walks.specs.Cleared.{HasCleared};
ghost use Rattle.shr_audit_walks.specs.Filled.{AreFilled, IsMapFull, IsNoWord, NotesFilled, filled_by, is_filling, word_by_key};

use crate::cleared::was_cleared;
use shr_audit_case::case::Case;
use shr_audit_lists::words::word_key;
use shr_base::memory::Memory;
use shr_base::places::{At, Place};
use shr_base::replies::{Answered, Reply};
use shr_base::walks::{MapSeen, WalkRecord};
use shr_laws::report::Report;
use std::alloc::Global;
use std::collections::{HashMap, HashSet};
use std::ops::Range;

/// A table of words without a bit.
pub(crate) fn none_filled(alloc: Global) -> HashMap<u64, u64>
    ensures { IsNoWord result }
{
    HashMap::new(alloc)
}

// The word with this number, 0 where there is none.
fn word_in(filled: &HashMap<u64, u64>, key: u64) -> u64
    ensures { result ≡ word_by_key filled.now key }
{
    match filled.get(&key) {
        None => 0,
        Some(word) => *word,
    }
}

/// Sets the bit of a place.
pub(crate) fn set_bit(filled: &mut HashMap<u64, u64>, place: Place) -> Result<(), Memory>
    ensures { OnOk result (NotesFilled filled.old filled.new (Some place)) }
{
    let key = word_key(place.node, place.group, place.id / 64);
    let bit = place.id % 64;
    let old = word_in(filled, key);
    let word = old | (1 << bit);
    filled.insert(key, word)?;
    Ok(())
}

// Sets the bit of a place, if one was filled.
fn note_filled(filled: &mut HashMap<u64, u64>, place: Option<Place>) -> Result<(), Memory>
    ensures { OnOk result (NotesFilled filled.old filled.new place) }
{
    match place {
        Some(place) => set_bit(filled, place),
        None => Ok(()),
    }
}

// Whether a place had nothing before an entry, and no walk cleared its bit.
fn is_filling(report: &Report, case: &Case, cleared: &HashSet<u64>, at: At) -> bool
    requires replayed { IsReplayOf report.now case.now }
    requires cleared { HasCleared report.now cleared.now }
    ensures { result ≡ is_filling case.now.parents.items report.now at }
{
    let objects = case.count_after(report, at.place, at.entry as usize);
    let cleared = was_cleared(report, cleared, at.place);
    objects == 0 && !cleared
}

// The place that a reply filled and whose bit no walk cleared.
fn filled_by(report: &Report, case: &Case, cleared: &HashSet<u64>, reply: &Reply) -> Option<Place>
    requires replayed { IsReplayOf report.now case.now }
    requires cleared { HasCleared report.now cleared.now }
    ensures { result ≡ filled_by case.now.parents.items report.now reply.now }
{
    match reply {
        Reply::Added { at } => {
            if is_filling(report, case, cleared, *at) {
                Some(at.place)
            } else {
                None
            }
        }
        _ => None,
    }
}

/// Notes the places that the answers to these commands filled.
pub(crate) fn note_fillings(
    filled: &mut HashMap<u64, u64>,
    report: &Report,
    case: &Case,
    cleared: &HashSet<u64>,
    answers: &[Answered],
    commands: Range<usize>,
) -> Result<(), Memory>
    requires replayed { IsReplayOf report.now case.now }
    requires cleared { HasCleared report.now cleared.now }
    requires before { AreFilled case.now.parents.items report.now answers.now commands.start
        filled.old }
    requires rising { commands.start ≤ commands.end }
    requires there { commands.end ≤ length answers.now }
    ensures { OnOk result
        (AreFilled case.now.parents.items report.now answers.now commands.end
        filled.new) }
{
    for k in commands.start..commands.end {
        let place = filled_by(report, case, cleared, &answers[k].reply);
        note_filled(filled, place)?;
    }
    Ok(())
}

/// Whether a map of a walk has the bit of each of these places that it is of.
pub(crate) fn is_map_full(filled: &HashMap<u64, u64>, walk: &WalkRecord, map: &MapSeen) -> bool
    ensures { Decides result (IsMapFull filled.now walk.now map.now) }
{
    let key = word_key(walk.node, walk.group, map.unit as u16);
    let word = word_in(filled, key);
    word & map.bits == word
}
