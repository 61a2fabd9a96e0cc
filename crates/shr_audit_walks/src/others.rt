// SPDX-License-Identifier: GPL-2.0-only
//! Whether each Scan entry of a report is of a pass.

ghost use Rattle.std.specs.Prelude.{◌≡◌, ◌<◌, length, slice_get, Some, IfOk};
ghost use Rattle.std.specs.Bool.{Decides};
ghost use Rattle.shr_base.specs.declared.ends.PlaceEnd.{PlaceEnd};
ghost use Rattle.shr_audit_case.specs.Places.{AreInOrder, IsFirst};
ghost use Rattle.shr_laws.specs.Numbers.{HasNumbers};
ghost use Rattle.shr_laws.specs.Parts.{EachEntry};
ghost use Rattle.shr_laws.specs.WalksLawful.{IsOfPass};
ghost use Rattle.shr_laws.specs.declared.report.Report.{Report};
ghost use Rattle.shr_audit_walks.specs.Others.{AreOfPasses, IsEntryOfPass};
ghost use Rattle.shr_audit_walks.specs.Passes.{ArePassesOf};

use crate::passes::Passes;
use shr_audit_case::places::is_first;
use shr_base::ends::PlaceEnd;
use shr_base::journals::Entry;
use shr_base::memory::Memory;
use shr_base::places::Place;
use shr_laws::report::Report;
use std::alloc::Global;

// Whether an entry of a place is of a pass there, if it is a Scan of a walk.
fn is_of_pass(passes: &Passes, place: Place, entry: &Entry) -> bool
    ensures { (r : Report) → ArePassesOf r passes.now
        → Decides result (IsEntryOfPass r place entry.now) }
{
    match entry {
        Entry::Scan { worker, walk, .. } => {
            *walk >= 0x8000_0000_0000_0000 || passes.has(*worker, *walk, place)
        }
        _ => true,
    }
}

// Whether each entry of a place is.
fn are_of_passes(passes: &Passes, place: Place, entries: &[Entry]) -> bool
    ensures { (r : Report) → ArePassesOf r passes.now
        → Decides result (AreOfPasses r place entries.now) }
{
    for entry in entries {
        if !is_of_pass(passes, place, entry) {
            return false;
        }
    }
    true
}

// Whether each entry of a list is, if the list is the first one of its place.
fn is_list_of_passes(passes: &Passes, ends: &[PlaceEnd], k: usize) -> bool
    requires order { AreInOrder ends.now }
    requires there { k < length ends.now }
    ensures { (r : Report) (end : PlaceEnd) → ArePassesOf r passes.now
        → slice_get ends.now k ≡ Some end → Decides result
        (IsFirst ends.now k end.place → AreOfPasses r end.place end.entries.items) }
{
    if !is_first(ends, k) {
        return true;
    }
    let of_passes = are_of_passes(passes, ends[k].place, ends[k].entries.as_slice());
    of_passes
}

/// Whether there is no Scan entry of a walk but those of passes, in a report with lists in the order
/// of their places and numbers in the ranges of their types.
pub fn are_no_others(alloc: Global, report: &Report) -> Result<bool, Memory>
    requires order { AreInOrder report.now.places.items }
    requires numbers { HasNumbers report.now }
    ensures { IfOk result (λ b. Decides b (EachEntry report.now
        (λ place n e. IsOfPass report.now place e))) }
{
    let passes = Passes::of(alloc, report)?;
    let ends = report.places.as_slice();
    for k in 0..ends.len() {
        if !is_list_of_passes(&passes, ends, k) {
            return Ok(false);
        }
    }
    Ok(true)
}
