// SPDX-License-Identifier: GPL-2.0-only
//! The places that are printed, and the outcomes of their journals.

ghost use Rattle.std.specs.Prelude.{◌≡◌, ℕ, ◌<◌, Some, length, slice_get};
ghost use Rattle.std.specs.Bool.{Decides};
ghost use Rattle.shr_base.specs.declared.ends.PlaceEnd.{PlaceEnd};
ghost use Rattle.shr_laws.specs.Parts.{IsThere};
ghost use Rattle.shr_audit_case.specs.Each.{EachFirst};
ghost use Rattle.shr_audit_case.specs.Lists.{IsReplayOf};
ghost use Rattle.shr_audit_case.specs.Places.{AreInOrder, IsFirst};
ghost use Rattle.shr_audit_lists.specs.Fields.{ArePrintedOnce, AreOutcomesSo, ArePlacesOnce, ArePlacesThere, IsOutcomeSo};

use shr_audit_case::case::Case;
use shr_audit_case::places::is_first;
use shr_base::ends::PlaceEnd;
use shr_base::places::Place;
use shr_base::scripts::Script;
use shr_laws::report::Report;

// Whether a place is one of the tables and the tree of a script.
fn is_there(script: &Script, place: Place) -> bool
    ensures { Decides result (IsThere script.now place) }
{
    place.id < script.ids
        && place.node < script.nodes
        && place.group as usize <= script.groups.len()
}

/// Whether each place that is printed is one of the script.
pub fn are_places_there(script: &Script, report: &Report) -> bool
    ensures { Decides result (ArePlacesThere script.now report.now) }
{
    for end in report.places.as_slice() {
        if !is_there(script, end.place) {
            return false;
        }
    }
    true
}

// Whether each list is the first one of its place.
fn are_firsts(ends: &[PlaceEnd]) -> bool
    requires { AreInOrder ends.now }
    ensures { Decides result (ArePrintedOnce ends.now) }
{
    for k in 0..ends.len() {
        if !is_first(ends, k) {
            return false;
        }
    }
    true
}

/// Whether no place is printed twice.
pub fn are_places_once(report: &Report) -> bool
    requires { AreInOrder report.now.places.items }
    ensures { Decides result (ArePlacesOnce report.now) }
{
    let once = are_firsts(report.places.as_slice());
    once
}

// Whether each entry of a list says of its outcome what is so, if the list is the first one of its
// place.
fn is_outcome_so(report: &Report, case: &Case, k: usize) -> bool
    requires replayed { IsReplayOf report.now case.now }
    requires there { k < length report.now.places.items }
    ensures { (end : PlaceEnd) → slice_get report.now.places.items k ≡ Some end
        → Decides result (IsFirst report.now.places.items k end.place
        → IsOutcomeSo case.now.parents.items report.now end.place) }
{
    let ends = report.places.as_slice();
    if !is_first(ends, k) {
        return true;
    }
    let so = case.outcomes_are_so(report, ends[k].place);
    so
}

// Whether it does so in each such list.
fn are_outcomes_printed(report: &Report, case: &Case) -> bool
    requires { IsReplayOf report.now case.now }
    ensures { Decides result (EachFirst report.now.places.items
        (λ end. IsOutcomeSo case.now.parents.items report.now end.place)) }
{
    for k in 0..report.places.len() {
        if !is_outcome_so(report, case, k) {
            return false;
        }
    }
    true
}

/// Whether each entry of each journal says of its outcome what is so.
pub fn are_outcomes_so(report: &Report, case: &Case) -> bool
    requires { IsReplayOf report.now case.now }
    ensures { Decides result (AreOutcomesSo case.now.parents.items report.now) }
{
    let so = are_outcomes_printed(report, case);
    so
}
