// SPDX-License-Identifier: GPL-2.0-only
//! Entries that may stand where they do.

ghost use Rattle.std.specs.Prelude.{◌≡◌, ◌≢◌, ◌<◌, true, List, [], ◌∷◌, ◌++◌, Some, length, slice_get, Contains, IfOk};
ghost use Rattle.std.specs.Bool.{Decides};
ghost use Rattle.shr_base.specs.declared.ends.PlaceEnd.{PlaceEnd};
ghost use Rattle.shr_base.specs.declared.journals.Entry.{Entry};
ghost use Rattle.shr_base.specs.declared.places.Place.{Place};
ghost use Rattle.shr_model.specs.Families.{AreChildrenMovedIn, IsAllowed, IsBornAt, MayStand, child_of, moved_in};
ghost use Rattle.shr_model.specs.Trees.{IsTree};
ghost use Rattle.shr_model.specs.Groups.{is_child};
ghost use Rattle.shr_model.specs.Items.{is_closed};
ghost use Rattle.shr_audit_case.specs.Each.{EachFirst};
ghost use Rattle.shr_audit_case.specs.Places.{AreInOrder, IsFirst};
ghost use Rattle.shr_audit_lists.specs.Standing.{AreMovesTold, AreStanding, IsMovedChild, IsPlaceStanding};

use crate::done::is_closing;
use shr_audit_case::places::{is_first, journal_at};
use shr_base::journals::Entry;
use shr_base::memory::Memory;
use shr_base::places::Place;
use shr_laws::report::Report;
use std::alloc::Global;

// Whether a group that is a child of this one was moved in, where it is told of each group whether
// its list was.
fn is_moved_child(parents: &[u16], group: u16, moved: &[bool], child: usize) -> bool
    requires each { length moved.now ≡ length parents.now }
    requires there { child < length parents.now }
    ensures { (before : List Entry) → AreMovesTold before moved.now
        → Decides result (IsMovedChild parents.now group before child) }
{
    let above = parents[child];
    if above != group {
        return true;
    }
    moved[child]
}

// Whether an entry of this birth group may stand in a journal of this group. Along the path from the
// birth group up, only the last one before the group is a child of it.
fn is_born_at(parents: &[u16], group: u16, moved: &[bool], birth: u16) -> bool
    requires tree { IsTree parents.now }
    requires each { length moved.now ≡ length parents.now }
    requires there { group < length parents.now }
    ensures { (before : List Entry) → AreMovesTold before moved.now
        → Decides result (IsBornAt parents.now group before birth) }
{
    if birth as usize >= parents.len() {
        return false;
    }
    let mut at = birth;
    while group < at {
        if !is_moved_child(parents, group, moved, at as usize) {
            return false;
        }
        at = parents[at as usize];
    }
    at == group
}

// Whether the list of each child of a group was moved in.
fn are_children_moved(parents: &[u16], group: u16, moved: &[bool]) -> bool
    requires { length moved.now ≡ length parents.now }
    ensures { (before : List Entry) → AreMovesTold before moved.now
        → Decides result (AreChildrenMovedIn parents.now group before) }
{
    for child in 1..parents.len() {
        if !is_moved_child(parents, group, moved, child) {
            return false;
        }
    }
    true
}

// Whether one group is a child of another.
fn is_child(parents: &[u16], group: u16, child: u16) -> bool
    ensures { result ≡ is_child parents.now group child }
{
    0 < child && (child as usize) < parents.len() && parents[child as usize] == group
}

// Whether a child's list may be moved in.
fn may_move_in(parents: &[u16], group: u16, moved: &[bool], child: u16) -> bool
    requires { length moved.now ≡ length parents.now }
    ensures { (before : List Entry) → AreMovesTold before moved.now
        → Decides result ((is_child parents.now group child ≡ true)
        × (Contains (moved_in before) child → ⊥)) }
{
    if !is_child(parents, group, child) {
        return false;
    }
    !moved[child as usize]
}

// Whether a list of this group may be closed.
fn may_close(parents: &[u16], group: u16, moved: &[bool]) -> bool
    requires { length moved.now ≡ length parents.now }
    ensures { (before : List Entry) → AreMovesTold before moved.now
        → Decides result ((group ≢ 0) × AreChildrenMovedIn parents.now group before) }
{
    if group == 0 {
        return false;
    }
    let moved = are_children_moved(parents, group, moved);
    moved
}

// Whether an entry is allowed behind those before it.
fn is_allowed(parents: &[u16], group: u16, moved: &[bool], entry: &Entry) -> bool
    requires tree { IsTree parents.now }
    requires each { length moved.now ≡ length parents.now }
    requires there { group < length parents.now }
    ensures { (before : List Entry) → AreMovesTold before moved.now
        → Decides result (IsAllowed parents.now group before entry.now) }
{
    match entry {
        Entry::Add { birth, .. } => is_born_at(parents, group, moved, *birth),
        Entry::Look { birth, .. } => is_born_at(parents, group, moved, *birth),
        Entry::Drop { birth, .. } => is_born_at(parents, group, moved, *birth),
        Entry::Pin { birth, .. } => is_born_at(parents, group, moved, *birth),
        Entry::Scan { .. } => true,
        Entry::MovedIn { child, .. } => may_move_in(parents, group, moved, *child),
        Entry::Closed => may_close(parents, group, moved),
        Entry::Drained { objects, .. } => 0 < *objects,
    }
}

// Whether an entry may stand behind those before it.
fn may_stand(parents: &[u16], group: u16, moved: &[bool], closed: bool, entry: &Entry) -> bool
    requires tree { IsTree parents.now }
    requires each { length moved.now ≡ length parents.now }
    requires there { group < length parents.now }
    ensures { (before : List Entry) → AreMovesTold before moved.now → closed ≡ is_closed before
        → Decides result (MayStand parents.now group before entry.now) }
{
    if closed {
        return false;
    }
    let allowed = is_allowed(parents, group, moved, entry);
    allowed
}

// The child whose list an entry moves in.
fn child_of(entry: &Entry) -> Option<u16>
    ensures { result ≡ child_of entry.now }
{
    match entry {
        Entry::MovedIn { child, .. } => Some(*child),
        _ => None,
    }
}

// Notes the list that an entry moved in.
fn note_moved(moved: &mut Vec<bool>, entry: &Entry)
    ensures many { length moved.new.items ≡ length moved.old.items }
    ensures noted { (before : List Entry) → AreMovesTold before moved.old.items
        → AreMovesTold (before ++ entry.now ∷ []) moved.new.items }
{
    let Some(child) = child_of(entry) else {
        return;
    };
    if (child as usize) < moved.len() {
        moved[child as usize] = true;
    }
}

// Nothing was moved in.
fn none_moved(alloc: Global, count: usize) -> Result<Vec<bool>, Memory>
    ensures count { IfOk result (λ moved. length moved.items ≡ count) }
    ensures none { IfOk result (λ moved. AreMovesTold [] moved.items) }
{
    let mut moved = Vec::new(alloc);
    for _group in 0..count {
        moved.push(false)?;
    }
    Ok(moved)
}

// Whether each entry of a journal may stand where it does.
fn are_standing(
    alloc: Global,
    parents: &[u16],
    group: u16,
    entries: &[Entry],
) -> Result<bool, Memory>
    requires tree { IsTree parents.now }
    requires there { group < length parents.now }
    ensures { IfOk result (λ b. Decides b (AreStanding parents.now group entries.now)) }
{
    let mut moved = none_moved(alloc, parents.len())?;
    let mut closed = false;
    for entry in entries {
        if !may_stand(parents, group, moved.as_slice(), closed, entry) {
            return Ok(false);
        }
        note_moved(&mut moved, entry);
        closed = is_closing(entry);
    }
    Ok(true)
}

// The same of the journal of a place, which is one of the tree if there are any.
fn is_place_standing(
    alloc: Global,
    parents: &[u16],
    report: &Report,
    place: Place,
) -> Result<bool, Memory>
    requires tree { IsTree parents.now }
    requires order { AreInOrder report.now.places.items }
    ensures { IfOk result (λ b. Decides b (IsPlaceStanding parents.now report.now place)) }
{
    let entries = journal_at(report, place);
    if entries.is_empty() {
        return Ok(true);
    }
    if place.group as usize >= parents.len() {
        return Ok(false);
    }
    let standing = are_standing(alloc, parents, place.group, entries)?;
    Ok(standing)
}

// The same of a list, if it is the first one of its place.
fn is_list_standing(
    alloc: Global,
    parents: &[u16],
    report: &Report,
    k: usize,
) -> Result<bool, Memory>
    requires tree { IsTree parents.now }
    requires order { AreInOrder report.now.places.items }
    requires there { k < length report.now.places.items }
    ensures { IfOk result (λ b. (end : PlaceEnd) → slice_get report.now.places.items k ≡ Some end
        → Decides b (IsFirst report.now.places.items k end.place
        → IsPlaceStanding parents.now report.now end.place)) }
{
    let ends = report.places.as_slice();
    if !is_first(ends, k) {
        return Ok(true);
    }
    let standing = is_place_standing(alloc, parents, report, ends[k].place)?;
    Ok(standing)
}

// The same of each such list.
fn are_lists_standing(alloc: Global, parents: &[u16], report: &Report) -> Result<bool, Memory>
    requires tree { IsTree parents.now }
    requires order { AreInOrder report.now.places.items }
    ensures { IfOk result (λ b. Decides b (EachFirst report.now.places.items
        (λ end. IsPlaceStanding parents.now report.now end.place))) }
{
    for k in 0..report.places.len() {
        let standing = is_list_standing(alloc, parents, report, k)?;
        if !standing {
            return Ok(false);
        }
    }
    Ok(true)
}

/// Whether journals have entries only at groups of the tree, and each entry may stand where it does.
pub fn are_entries_standing(alloc: Global, parents: &[u16], report: &Report) -> Result<bool, Memory>
    requires tree { IsTree parents.now }
    requires order { AreInOrder report.now.places.items }
    ensures { IfOk result (λ b. Decides b ((place : Place)
        → IsPlaceStanding parents.now report.now place)) }
{
    let standing = are_lists_standing(alloc, parents, report)?;
    Ok(standing)
}
