// SPDX-License-Identifier: GPL-2.0-only
//! A child's list that is closed, and the entry of its parent's that moved it in.

ghost use Rattle.std.specs.Prelude.{◌≡◌, ◌<◌, ◌≤◌, true, Some, length, slice_get, Contains};
ghost use Rattle.std.specs.Bool.{Decides};
ghost use Rattle.std.specs.List.{list_any};
ghost use Rattle.shr_base.specs.declared.ends.PlaceEnd.{PlaceEnd};
ghost use Rattle.shr_model.specs.Families.{IsPaired, IsPairedAt, moved_in};
ghost use Rattle.shr_model.specs.Groups.{is_child};
ghost use Rattle.shr_model.specs.Places.{at_group};
ghost use Rattle.shr_laws.specs.Parts.{journals_of};
ghost use Rattle.shr_audit_case.specs.Each.{EachFirst};
ghost use Rattle.shr_audit_case.specs.Places.{AreInOrder, IsFirst};
ghost use Rattle.shr_audit_lists.specs.Paired.{AreChildrenPaired, IsOwnPaired, IsPairedAround, moves};

use crate::done::is_closed;
use shr_audit_case::places::{is_first, journal_at};
use shr_base::journals::Entry;
use shr_base::places::Place;
use shr_laws::report::Report;

// Whether an entry moved a child's list in.
fn moves(child: u16, entry: &Entry) -> bool
    ensures { result ≡ moves child entry.now }
{
    match entry {
        Entry::MovedIn { child: moved, .. } => *moved == child,
        _ => false,
    }
}

// Whether one of these entries did.
fn any_moves(entries: &[Entry], child: u16) -> bool
    ensures { result ≡ list_any (moves child) entries.now }
{
    for entry in entries {
        if moves(child, entry) {
            return true;
        }
    }
    false
}

// Whether the list of a child was moved in by these entries.
fn is_moved_in(entries: &[Entry], child: u16) -> bool
    ensures { Decides result (Contains (moved_in entries.now) child) }
{
    let moved = any_moves(entries, child);
    moved
}

// Whether the list of a group at an id and node is closed just where its parent's moved it in.
fn is_paired_at(report: &Report, parents: &[u16], place: Place) -> bool
    requires order { AreInOrder report.now.places.items }
    requires there { place.group < length parents.now }
    ensures { Decides result (IsPairedAt parents.now (journals_of report.now) place) }
{
    let above = Place {
        id: place.id,
        node: place.node,
        group: parents[place.group as usize],
    };
    let moved = is_moved_in(journal_at(report, above), place.group);
    if is_closed(journal_at(report, place)) {
        moved
    } else {
        !moved
    }
}

// The same of the group of a place, if it is one below the root.
fn is_own_paired(report: &Report, parents: &[u16], place: Place) -> bool
    requires { AreInOrder report.now.places.items }
    ensures { Decides result (IsOwnPaired parents.now report.now place) }
{
    if place.group == 0 || place.group as usize >= parents.len() {
        return true;
    }
    let paired = is_paired_at(report, parents, place);
    paired
}

// The same of one group, if it is a child of that of a place.
fn is_child_paired(report: &Report, parents: &[u16], place: Place, child: usize) -> bool
    requires order { AreInOrder report.now.places.items }
    requires there { child < length parents.now }
    requires few { length parents.now ≤ 65536 }
    ensures { Decides result (is_child parents.now place.group child ≡ true
        → IsPairedAt parents.now (journals_of report.now) (at_group place child)) }
{
    if child == 0 || parents[child] != place.group {
        return true;
    }
    let below = Place {
        id: place.id,
        node: place.node,
        group: child as u16,
    };
    let paired = is_paired_at(report, parents, below);
    paired
}

// The same of each child.
fn are_children_paired(report: &Report, parents: &[u16], place: Place) -> bool
    requires order { AreInOrder report.now.places.items }
    requires few { length parents.now ≤ 65536 }
    ensures { Decides result (AreChildrenPaired parents.now report.now place) }
{
    for child in 0..parents.len() {
        if !is_child_paired(report, parents, place, child) {
            return false;
        }
    }
    true
}

// The same of a list's own group and its children, if it is the first one of its place.
fn is_list_paired(report: &Report, parents: &[u16], k: usize) -> bool
    requires order { AreInOrder report.now.places.items }
    requires few { length parents.now ≤ 65536 }
    requires there { k < length report.now.places.items }
    ensures { (end : PlaceEnd) → slice_get report.now.places.items k ≡ Some end
        → Decides result (IsFirst report.now.places.items k end.place
        → IsPairedAround parents.now report.now end.place) }
{
    let ends = report.places.as_slice();
    if !is_first(ends, k) {
        return true;
    }
    let so = is_paired_around(report, parents, ends[k].place);
    so
}

// The same of a place.
fn is_paired_around(report: &Report, parents: &[u16], place: Place) -> bool
    requires order { AreInOrder report.now.places.items }
    requires few { length parents.now ≤ 65536 }
    ensures { Decides result (IsPairedAround parents.now report.now place) }
{
    if !is_own_paired(report, parents, place) {
        return false;
    }
    let children = are_children_paired(report, parents, place);
    children
}

// The same of each list that is printed.
fn are_lists_paired(report: &Report, parents: &[u16]) -> bool
    requires order { AreInOrder report.now.places.items }
    requires few { length parents.now ≤ 65536 }
    ensures { Decides result (EachFirst report.now.places.items
        (λ end. IsPairedAround parents.now report.now end.place)) }
{
    for k in 0..report.places.len() {
        if !is_list_paired(report, parents, k) {
            return false;
        }
    }
    true
}

/// Whether a list below the root is closed if and only if that of its parent group moved it in.
pub fn are_journals_paired(report: &Report, parents: &[u16]) -> bool
    requires order { AreInOrder report.now.places.items }
    requires few { length parents.now ≤ 65536 }
    ensures { Decides result (IsPaired parents.now (journals_of report.now)) }
{
    let paired = are_lists_paired(report, parents);
    paired
}
