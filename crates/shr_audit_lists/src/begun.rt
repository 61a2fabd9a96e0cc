// SPDX-License-Identifier: GPL-2.0-only
//! Lists that are closed only where a group at or above their own began to go offline.

ghost use Rattle.std.specs.Prelude.{◌≡◌, ℕ, ◌<◌, List, Some, length, slice_get, Contains, IfOk};
ghost use Rattle.std.specs.Bool.{Decides};
ghost use Rattle.shr_base.specs.declared.ends.PlaceEnd.{PlaceEnd};
ghost use Rattle.shr_base.specs.declared.journals.TreeEntry.TheVariants.{Begin};
ghost use Rattle.shr_model.specs.Trees.{IsTree};
ghost use Rattle.shr_audit_case.specs.Each.{EachFirst};
ghost use Rattle.shr_audit_case.specs.Places.{AreInOrder, IsFirst};
ghost use Rattle.shr_audit_lists.specs.Begun.{AreBegun, AreBegunIfClosed, HaveGroups, HasBegunAbove, IsBegunIfClosed};

use crate::done::is_closed;
use shr_audit_case::places::{is_first, journal_at};
use shr_base::journals::TreeEntry;
use shr_base::memory::Memory;
use shr_base::places::Place;
use shr_laws::report::Report;
use std::alloc::Global;

// Whether a group began to go offline.
fn is_begin(tree: &[TreeEntry], group: usize) -> bool
    ensures { Decides result (Contains tree.now (Begin group)) }
{
    for entry in tree {
        if let TreeEntry::Begin { group: begun } = entry
            && *begun as usize == group
        {
            return true;
        }
    }
    false
}

// Whether a group or one above it did, where it is told for the groups before.
fn is_begun(parents: &[u16], tree: &[TreeEntry], begun: &[bool]) -> bool
    requires tree { IsTree parents.now }
    requires there { length begun.now < length parents.now }
    requires before { AreBegun parents.now tree.now begun.now }
    ensures { Decides result (HasBegunAbove parents.now tree.now (length begun.now)) }
{
    let group = begun.len();
    if is_begin(tree, group) {
        return true;
    }
    if group == 0 {
        return false;
    }
    begun[parents[group] as usize]
}

// The same of each group.
fn begun_groups(alloc: Global, parents: &[u16], tree: &[TreeEntry]) -> Result<Vec<bool>, Memory>
    requires { IsTree parents.now }
    ensures many { IfOk result (λ begun. length begun.items ≡ length parents.now) }
    ensures each { IfOk result (λ begun. AreBegun parents.now tree.now begun.items) }
{
    let mut begun = Vec::new(alloc);
    for _group in 0..parents.len() {
        let here = is_begun(parents, tree, begun.as_slice());
        begun.push(here)?;
    }
    Ok(begun)
}

// Whether a place, if its list is closed, is of such a group.
fn is_place_begun(report: &Report, begun: &[bool], place: Place) -> bool
    requires order { AreInOrder report.now.places.items }
    requires there { place.group < length begun.now }
    ensures { (parents : List ℕ) → AreBegun parents report.now.tree.items begun.now
        → Decides result (IsBegunIfClosed parents report.now place) }
{
    if !is_closed(journal_at(report, place)) {
        return true;
    }
    begun[place.group as usize]
}

// The same of a list, if it is the first one of its place.
fn is_list_begun(report: &Report, begun: &[bool], k: usize) -> bool
    requires order { AreInOrder report.now.places.items }
    requires there { k < length report.now.places.items }
    requires groups { HaveGroups (length begun.now) report.now.places.items }
    ensures { (parents : List ℕ) → AreBegun parents report.now.tree.items begun.now
        → (end : PlaceEnd) → slice_get report.now.places.items k ≡ Some end
        → Decides result (IsFirst report.now.places.items k end.place
        → IsBegunIfClosed parents report.now end.place) }
{
    let ends = report.places.as_slice();
    if !is_first(ends, k) {
        return true;
    }
    let so = is_place_begun(report, begun, ends[k].place);
    so
}

// The same of each such list.
fn are_lists_begun(report: &Report, begun: &[bool]) -> bool
    requires order { AreInOrder report.now.places.items }
    requires groups { HaveGroups (length begun.now) report.now.places.items }
    ensures { (parents : List ℕ) → AreBegun parents report.now.tree.items begun.now
        → Decides result (EachFirst report.now.places.items
        (λ end. IsBegunIfClosed parents report.now end.place)) }
{
    for k in 0..report.places.len() {
        if !is_list_begun(report, begun, k) {
            return false;
        }
    }
    true
}

/// Whether each list that is closed is of a group that began to go offline, or one above which did.
/// It wants places of groups that are there.
pub fn are_closed_begun(alloc: Global, parents: &[u16], report: &Report) -> Result<bool, Memory>
    requires tree { IsTree parents.now }
    requires order { AreInOrder report.now.places.items }
    requires groups { HaveGroups (length parents.now) report.now.places.items }
    ensures { IfOk result (λ b. Decides b (AreBegunIfClosed parents.now report.now)) }
{
    let begun = begun_groups(alloc, parents, report.tree.as_slice())?;
    let so = are_lists_begun(report, begun.as_slice());
    Ok(so)
}
