// SPDX-License-Identifier: GPL-2.0-only
//! The highest entry that was cited at each place.

ghost use Rattle.std.specs.Prelude.{◌≡◌, ◌+◌, ◌<◌, ◌≤◌, length, map, IfOk, OnOk};
ghost use Rattle.std.specs.Bool.{Decides};
ghost use Rattle.std.specs.List.{AllByRecursion};
ghost use Rattle.shr_base.specs.declared.places.Place.{Place};
ghost use Rattle.shr_base.specs.declared.replies.Answered.{Answered};
ghost use Rattle.shr_laws.specs.Parts.{at};
ghost use Rattle.shr_audit_walks.specs.Cited.{AreHighestCited, IsAboveHighest, NotesCited, NotesReply};
ghost use Rattle.shr_audit_walks.specs.VersionTable.{IsBlank};

use crate::version_table::place_key;
use shr_base::memory::Memory;
use shr_base::places::{At, Place};
use shr_base::replies::{Answered, Reply};
use std::alloc::Global;
use std::collections::HashMap;

/// A table of no entries.
pub(crate) fn none_cited(alloc: Global) -> HashMap<u64, u32>
    ensures { IsBlank result }
{
    HashMap::new(alloc)
}

/// Whether a version is above the highest entry that was cited at a place.
pub(crate) fn is_above_highest(cited: &HashMap<u64, u32>, place: Place, version: u32) -> bool
    ensures { Decides result (IsAboveHighest cited.now place version) }
{
    let key = place_key(place);
    match cited.get(&key) {
        None => true,
        Some(highest) => *highest < version,
    }
}

// Notes that an entry was cited.
fn note_cited(cited: &mut HashMap<u64, u32>, at: At) -> Result<(), Memory>
    ensures { OnOk result (NotesCited cited.old cited.new at) }
{
    let key = place_key(at.place);
    if !is_above_highest(cited, at.place, at.entry) {
        return Ok(());
    }
    cited.insert(key, at.entry)?;
    Ok(())
}

// Notes the entry that a reply cites, if it does.
fn note_reply(cited: &mut HashMap<u64, u32>, reply: &Reply) -> Result<(), Memory>
    ensures { OnOk result (NotesReply cited.old cited.new reply.now) }
{
    match reply {
        Reply::Added { at } => note_cited(cited, *at),
        Reply::Exists { at } => note_cited(cited, *at),
        Reply::Hit { at, .. } => note_cited(cited, *at),
        Reply::Miss { at } => note_cited(cited, *at),
        Reply::Dropped { at } => note_cited(cited, *at),
        Reply::Pinned { at } => note_cited(cited, *at),
        Reply::Done { at } => note_cited(cited, *at),
        _ => Ok(()),
    }
}

/// Notes the entries that the answers from one to another cite.
pub(crate) fn note_answers(
    cited: &mut HashMap<u64, u32>,
    answers: &[Answered],
    from: usize,
    until: usize,
) -> Result<(), Memory>
    requires before { AreHighestCited answers.now from cited.old }
    requires rising { from ≤ until }
    requires there { until ≤ length answers.now }
    ensures { OnOk result (AreHighestCited answers.now until cited.new) }
{
    for k in from..until {
        note_reply(cited, &answers[k].reply)?;
    }
    Ok(())
}
