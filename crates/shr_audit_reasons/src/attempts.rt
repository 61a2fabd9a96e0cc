// SPDX-License-Identifier: GPL-2.0-only
//! Attempts that found the lookups of an id used up.

ghost use Rattle.std.specs.Prelude.{◌≡◌, ℕ, Some, slice_get};
ghost use Rattle.std.specs.Bool.{Decides};
ghost use Rattle.shr_base.specs.declared.ends.WorkerPart.{WorkerPart};
ghost use Rattle.shr_base.specs.declared.replies.Spent.TheVariants.{Lookups};
ghost use Rattle.shr_base.specs.Walks.{WalkRecord};
ghost use Rattle.shr_audit_formed.specs.Each.{EachItem};
ghost use Rattle.shr_laws.specs.Causes.{IsSpent};
ghost use Rattle.shr_laws.specs.Parts.{EachAttempt, EachWalk, lookups_at};
ghost use Rattle.shr_audit_reasons.specs.Walks.{IsAttemptCaused, IsWornRightly};

use shr_base::attempts::Attempt;
use shr_base::ends::WorkerPart;
use shr_base::scripts::Script;
use shr_base::walks::{Outcome, WalkRecord};
use shr_laws::report::Report;

// The printed lookups of an id.
fn lookups_at(report: &Report, id: u16) -> u32
    ensures { result ≡ lookups_at report.now id }
{
    match report.lookups.get(id as usize) {
        Some(lookups) => *lookups,
        None => 0,
    }
}

/// Whether so many lookups of an id are as many as use it up, and were printed.
pub fn are_lookups_spent(
    script: &Script,
    report: &Report,
    worker: usize,
    id: u16,
    seen: u32,
) -> bool
    ensures { Decides result (IsSpent script.now report.now worker (Lookups id seen)) }
{
    seen >= u32::MAX - 255 && seen <= lookups_at(report, id)
}

// Whether an attempt is worn only by lookups that were used up.
fn is_worn_rightly(script: &Script, report: &Report, worker: usize, attempt: &Attempt) -> bool
    ensures { Decides result (IsAttemptCaused script.now report.now worker attempt.now) }
{
    match attempt.outcome() {
        Outcome::Worn { seen } => are_lookups_spent(script, report, worker, attempt.id, seen),
        _ => true,
    }
}

// Whether each of these attempts is.
fn attempts_are_worn(script: &Script, report: &Report, worker: usize, attempts: &[Attempt]) -> bool
    ensures { Decides result (EachItem
        (λ a. IsAttemptCaused script.now report.now worker a) attempts.now) }
{
    for attempt in attempts {
        if !is_worn_rightly(script, report, worker, attempt) {
            return false;
        }
    }
    true
}

// Whether each attempt of these walks is.
fn walks_are_worn(script: &Script, report: &Report, worker: usize, walks: &[WalkRecord]) -> bool
    ensures { Decides result (EachItem (λ w. EachAttempt w
        (λ a. IsAttemptCaused script.now report.now worker a)) walks.now) }
{
    for walk in walks {
        if !attempts_are_worn(script, report, worker, walk.attempts()) {
            return false;
        }
    }
    true
}

// Whether each attempt of each walk of these parts is.
fn parts_are_worn(script: &Script, report: &Report, parts: &[WorkerPart]) -> bool
    ensures { Decides result ((worker : ℕ) (part : WorkerPart)
        → slice_get parts.now worker ≡ Some part
        → EachItem (λ w. EachAttempt w
        (λ a. IsAttemptCaused script.now report.now worker a)) part.walks.items) }
{
    for worker in 0..parts.len() {
        if !walks_are_worn(script, report, worker, parts[worker].walks.as_slice()) {
            return false;
        }
    }
    true
}

/// Whether each attempt is worn only by lookups that were used up.
pub fn are_attempts_caused(script: &Script, report: &Report) -> bool
    ensures { Decides result (EachWalk report.now (λ worker n w. EachAttempt w
        (λ a. IsWornRightly script.now report.now worker a))) }
{
    let all = parts_are_worn(script, report, report.workers.as_slice());
    all
}
