// SPDX-License-Identifier: GPL-2.0-only
//! The held attempts of a walk, against the declarations of their caches.

ghost use Rattle.std.specs.Prelude.{◌≡◌};
ghost use Rattle.std.specs.Bool.{Decides};
ghost use Rattle.shr_audit_formed.specs.Each.{EachItem};
ghost use Rattle.shr_audit_passes.specs.Kinds.{IsKindAt, IsStopAt};
ghost use Rattle.shr_audit_case.specs.Met.{IsMetIn};

use crate::alone::pass_of;
use crate::met::{cache_of, is_held};
use crate::passes::{is_outcome_of, is_stopped};
use shr_audit_case::met::Met;
use shr_base::attempts::Attempt;
use shr_base::scripts::Script;
use shr_base::walks::WalkRecord;
use shr_laws::report::Report;

// Whether an attempt, if it was held, has an outcome of its cache.
fn is_kind_at(script: &Script, report: &Report, met: &Met, priority: u8, attempt: &Attempt) -> bool
    requires { IsMetIn report.now.pool.items met.now }
    ensures { Decides result (IsKindAt script.now report.now priority attempt.now) }
{
    if !is_held(&attempt.outcome()) {
        return true;
    }
    match cache_of(script, report, met, attempt) {
        Some(decl) => is_outcome_of(priority, decl, &attempt.outcome()),
        None => false,
    }
}

// Whether the pass of an attempt, if one ran, stopped if and only if it had to.
fn is_stop_at(
    script: &Script,
    report: &Report,
    met: &Met,
    walk: &WalkRecord,
    attempt: &Attempt,
) -> bool
    requires { IsMetIn report.now.pool.items met.now }
    ensures { Decides result (IsStopAt script.now report.now walk.now attempt.now) }
{
    let Some(pass) = pass_of(&attempt.outcome()) else {
        return true;
    };
    match cache_of(script, report, met, attempt) {
        Some(decl) => is_stopped(walk, decl, &pass),
        None => true,
    }
}

// Whether each held attempt of these has an outcome of its cache, in a walk of this priority.
fn are_kinds_at(
    script: &Script,
    report: &Report,
    met: &Met,
    priority: u8,
    attempts: &[Attempt],
) -> bool
    requires { IsMetIn report.now.pool.items met.now }
    ensures { Decides result (EachItem (IsKindAt script.now report.now priority) attempts.now) }
{
    for attempt in attempts {
        if !is_kind_at(script, report, met, priority, attempt) {
            return false;
        }
    }
    true
}

/// Whether each held attempt of a walk has an outcome of its cache. What each lookup met is known
/// (`Met`).
pub fn are_kinds(script: &Script, report: &Report, met: &Met, walk: &WalkRecord) -> bool
    requires { IsMetIn report.now.pool.items met.now }
    ensures { Decides result (EachItem (IsKindAt script.now report.now walk.now.priority)
        walk.now.attempts.items) }
{
    let kinds = are_kinds_at(script, report, met, walk.priority, walk.attempts());
    kinds
}

/// Whether each pass of a walk stopped if and only if an ask was due and the walk can't scan its
/// cache. What each lookup met is known (`Met`).
pub fn are_stops(script: &Script, report: &Report, met: &Met, walk: &WalkRecord) -> bool
    requires { IsMetIn report.now.pool.items met.now }
    ensures { Decides result (EachItem (IsStopAt script.now report.now walk.now)
        walk.now.attempts.items) }
{
    for attempt in walk.attempts() {
        if !is_stop_at(script, report, met, walk, attempt) {
            return false;
        }
    }
    true
}
