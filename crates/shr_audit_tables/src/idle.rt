// SPDX-License-Identifier: GPL-2.0-only
//! Ids that are idle at the end: whether their lists are empty.

ghost use Rattle.std.specs.Prelude.{length};
ghost use Rattle.std.specs.Bool.{Decides};
ghost use Rattle.shr_base.specs.declared.ends.PlaceEnd.{PlaceEnd};
ghost use Rattle.shr_audit_case.specs.Lists.{IsReplayOf};
ghost use Rattle.shr_audit_formed.specs.Each.{EachItem};
ghost use Rattle.shr_audit_tables.specs.Idle.{AreIdleEmpty, IsEmptyAt, IsEmptyIfIdle, IsIdleIn, NonePast};
ghost use Rattle.shr_audit_tables.specs.Registrations.{AreStates};

use crate::registrations::IdState;
use shr_audit_case::case::Case;
use shr_base::ends::PlaceEnd;
use shr_base::places::Place;
use shr_laws::report::Report;

// Whether an id is idle.
fn is_idle(states: &[IdState], id: u16) -> bool
    ensures { Decides result (IsIdleIn states.now id) }
{
    if id as usize >= states.len() {
        return true;
    }
    states[id as usize].phase % 3 == 0
}

// Whether a list has nothing left.
fn is_empty_at(case: &Case, report: &Report, place: Place) -> bool
    requires { IsReplayOf report.now case.now }
    ensures { Decides result (IsEmptyAt case.now.parents.items report.now place) }
{
    case.left(report, place).is_empty()
}

// Whether it has not if its id is idle.
fn is_empty_if_idle(case: &Case, report: &Report, states: &[IdState], place: Place) -> bool
    requires { IsReplayOf report.now case.now }
    ensures { Decides result (IsEmptyIfIdle case.now.parents.items report.now states.now place) }
{
    if !is_idle(states, place.id) {
        return true;
    }
    let empty = is_empty_at(case, report, place);
    empty
}

// Whether each of these lists has not if its id is idle.
fn are_empty_if_idle(case: &Case, report: &Report, states: &[IdState], ends: &[PlaceEnd]) -> bool
    requires { IsReplayOf report.now case.now }
    ensures { Decides result (EachItem (λ (end : PlaceEnd).
        IsEmptyIfIdle case.now.parents.items report.now states.now end.place) ends.now) }
{
    for end in ends {
        if !is_empty_if_idle(case, report, states, end.place) {
            return false;
        }
    }
    true
}

/// Whether the lists of each id that is idle at the end are empty. `states` are those of the ids at
/// the end.
pub fn are_idle_empty(case: &Case, report: &Report, states: &[IdState]) -> bool
    requires replay { IsReplayOf report.now case.now }
    requires states { AreStates report.now.pool.items states.now }
    requires none_past { NonePast (length states.now) report.now.pool.items }
    ensures { Decides result (AreIdleEmpty case.now.parents.items report.now) }
{
    let empty = are_empty_if_idle(case, report, states, report.places.as_slice());
    empty
}
