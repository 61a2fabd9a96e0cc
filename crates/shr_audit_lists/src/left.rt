// SPDX-License-Identifier: GPL-2.0-only
//! The objects that are printed, against those that journals leave.

ghost use Rattle.std.specs.Prelude.{◌≡◌, ◌<◌, Some, length, slice_get};
ghost use Rattle.std.specs.Bool.{Decides};
ghost use Rattle.shr_base.specs.declared.ends.PlaceEnd.{PlaceEnd};
ghost use Rattle.shr_audit_case.specs.Lists.{IsReplayOf};
ghost use Rattle.shr_audit_lists.specs.Fields.{AreItemsLeft, ArePlacesOnce, IsItemsLeft};

use shr_audit_case::case::Case;
use shr_laws::report::Report;

// Whether the objects of a list are those that its journal leaves, where no place is printed twice.
fn is_list_left(report: &Report, case: &Case, k: usize) -> bool
    requires replayed { IsReplayOf report.now case.now }
    requires once { ArePlacesOnce report.now }
    requires there { k < length report.now.places.items }
    ensures { (end : PlaceEnd) → slice_get report.now.places.items k ≡ Some end
        → Decides result (IsItemsLeft case.now.parents.items report.now end) }
{
    let ends = report.places.as_slice();
    let left = case.items_are_left(report, ends[k].place);
    left
}

/// Whether the objects that are printed are those that the journals leave. It wants places of which
/// none is printed twice.
pub fn are_items_left(report: &Report, case: &Case) -> bool
    requires replayed { IsReplayOf report.now case.now }
    requires once { ArePlacesOnce report.now }
    ensures { Decides result (AreItemsLeft case.now.parents.items report.now) }
{
    for k in 0..report.places.len() {
        if !is_list_left(report, case, k) {
            return false;
        }
    }
    true
}
