// SPDX-License-Identifier: GPL-2.0-only
//! The counts of the attempts of a walk.

ghost use Rattle.std.specs.Prelude.{◌≡◌};
ghost use Rattle.std.specs.Bool.{Decides};
ghost use Rattle.std.specs.List.{AllByRecursion};
ghost use Rattle.shr_base.specs.declared.scripts.Script.{Script};
ghost use Rattle.shr_model.specs.Attempts.{as_count, counts_of};
ghost use Rattle.shr_model.specs.Walks.{place_in};
ghost use Rattle.shr_audit_case.specs.Lists.{IsCaseOf, IsReplayOf};
ghost use Rattle.shr_audit_formed.specs.Each.{EachItem};
ghost use Rattle.shr_audit_passes.specs.Counts.{AreCountsAt, AreCountsIn, IsCountIn};

use shr_audit_case::case::Case;
use shr_audit_case::places::journal_at;
use shr_base::places::Place;
use shr_base::walks::{Outcome, WalkRecord};
use shr_laws::report::Report;

// The place of an id on the walk's node and in its group.
fn place_in(walk: &WalkRecord, id: u16) -> Place
    ensures { result ≡ place_in walk.now id }
{
    Place {
        id,
        node: walk.node,
        group: walk.group,
    }
}

// Whether a count of a place is right.
fn is_count(case: &Case, report: &Report, place: Place, len: u32, version: u32) -> bool
    requires { IsReplayOf report.now case.now }
    ensures { Decides result (IsCountIn case.now.parents.items report.now place
        (as_count len version)) }
{
    if version as usize > journal_at(report, place).len() {
        return false;
    }
    case.count_after(report, place, version as usize) == len as usize
}

// Whether each count of an attempt at a place is.
fn are_right(case: &Case, report: &Report, place: Place, outcome: &Outcome) -> bool
    requires { IsReplayOf report.now case.now }
    ensures { Decides result (AllByRecursion (IsCountIn case.now.parents.items report.now place)
        (counts_of outcome.now)) }
{
    match *outcome {
        Outcome::Worn { .. } => true,
        Outcome::Gone { .. } => true,
        Outcome::Skip { len, version, .. } => is_count(case, report, place, len, version),
        Outcome::Ran { pass, .. } => is_count(case, report, place, pass.len, pass.version),
        Outcome::Empty { version, .. } => is_count(case, report, place, 0, version),
        Outcome::Cleared { first, second, .. } => {
            is_count(case, report, place, 0, first) && is_count(case, report, place, 0, second)
        }
        Outcome::RestoredSkip {
            first,
            len,
            version,
            ..
        } => is_count(case, report, place, 0, first) && is_count(case, report, place, len, version),
        Outcome::RestoredRan { first, pass, .. } => {
            is_count(case, report, place, 0, first)
                && is_count(case, report, place, pass.len, pass.version)
        }
    }
}

// Whether each count of a walk is, in the tree of the case.
fn are_all_right(case: &Case, report: &Report, walk: &WalkRecord) -> bool
    requires { IsReplayOf report.now case.now }
    ensures { Decides result (EachItem (AreCountsIn case.now.parents.items report.now walk.now)
        walk.now.attempts.items) }
{
    for attempt in walk.attempts() {
        let place = place_in(walk, attempt.id);
        if !are_right(case, report, place, &attempt.outcome()) {
            return false;
        }
    }
    true
}

/// Whether each count of a walk is right: that many objects were there after that many entries. The
/// case is that of the report.
pub fn are_counts(case: &Case, report: &Report, walk: &WalkRecord) -> bool
    requires { IsReplayOf report.now case.now }
    ensures { (s : Script) → IsCaseOf s report.now case.now
        → Decides result (EachItem (AreCountsAt s report.now walk.now) walk.now.attempts.items) }
{
    let right = are_all_right(case, report, walk);
    right
}
