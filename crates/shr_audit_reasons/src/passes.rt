// SPDX-License-Identifier: GPL-2.0-only
//! Passes over the caches of a group.

ghost use Rattle.std.specs.Prelude.{◌≡◌, ℕ, ◌<◌, Some, length, slice_get};
ghost use Rattle.std.specs.Bool.{Decides};
ghost use Rattle.shr_base.specs.declared.ends.WorkerPart.{WorkerPart};
ghost use Rattle.shr_base.specs.Walks.{WalkRecord};
ghost use Rattle.shr_audit_formed.specs.Each.{EachItem};
ghost use Rattle.shr_model.specs.Attempts.{pass_of};
ghost use Rattle.shr_laws.specs.Causes.{IsPassCaused};
ghost use Rattle.shr_laws.specs.Parts.{EachAttempt};
ghost use Rattle.shr_audit_case.specs.Places.{AreInOrder};
ghost use Rattle.shr_audit_reasons.specs.Counted.{IsCountOf};
ghost use Rattle.shr_audit_reasons.specs.Passes.{ArePassesCaused, IsRunCaused};

use crate::counted::Counted;
use crate::spent::{is_closed_at, is_ending_right};
use shr_base::attempts::Attempt;
use shr_base::ends::WorkerPart;
use shr_base::places::Place;
use shr_base::scripts::Script;
use shr_base::walks::{Outcome, PassRecord, WalkRecord};
use shr_laws::report::Report;

// The pass that an attempt ran to its end, if it did.
fn pass_of(outcome: &Outcome) -> Option<PassRecord>
    ensures { result ≡ pass_of outcome.now }
{
    match outcome {
        Outcome::Ran { pass, .. } => Some(*pass),
        Outcome::RestoredRan { pass, .. } => Some(*pass),
        _ => None,
    }
}

// Whether a pass at a place has its cause.
fn is_pass_caused(
    script: &Script,
    report: &Report,
    counted: &Counted,
    worker: usize,
    place: Place,
    pass: &PassRecord,
) -> bool
    requires order { AreInOrder report.now.places.items }
    requires counted { IsCountOf script.now report.now counted.now }
    requires there { worker < length report.now.workers.items }
    ensures { Decides result (IsPassCaused script.now report.now worker place pass.now) }
{
    if pass.closed > 0 && !is_closed_at(script, report, counted, place) {
        return false;
    }
    is_ending_right(script, report, counted, worker, pass.ending)
}

// Whether that of an attempt has.
fn is_run_caused(
    script: &Script,
    report: &Report,
    counted: &Counted,
    worker: usize,
    walk: &WalkRecord,
    attempt: &Attempt,
) -> bool
    requires order { AreInOrder report.now.places.items }
    requires counted { IsCountOf script.now report.now counted.now }
    requires there { worker < length report.now.workers.items }
    ensures { Decides result (IsRunCaused script.now report.now worker walk.now attempt.now) }
{
    let place = Place {
        id: attempt.id,
        node: walk.node,
        group: walk.group,
    };
    match pass_of(&attempt.outcome()) {
        Some(pass) => is_pass_caused(script, report, counted, worker, place, &pass),
        None => true,
    }
}

// Whether each pass of a walk has.
fn are_runs_caused(
    script: &Script,
    report: &Report,
    counted: &Counted,
    worker: usize,
    walk: &WalkRecord,
) -> bool
    requires order { AreInOrder report.now.places.items }
    requires counted { IsCountOf script.now report.now counted.now }
    requires there { worker < length report.now.workers.items }
    ensures { Decides result (EachAttempt walk.now
        (λ a. IsRunCaused script.now report.now worker walk.now a)) }
{
    for attempt in walk.attempts() {
        if !is_run_caused(script, report, counted, worker, walk, attempt) {
            return false;
        }
    }
    true
}

// Whether each pass of these walks has.
fn are_walks_caused(
    script: &Script,
    report: &Report,
    counted: &Counted,
    worker: usize,
    walks: &[WalkRecord],
) -> bool
    requires order { AreInOrder report.now.places.items }
    requires counted { IsCountOf script.now report.now counted.now }
    requires there { worker < length report.now.workers.items }
    ensures { Decides result (EachItem (λ w. EachAttempt w
        (λ a. IsRunCaused script.now report.now worker w a)) walks.now) }
{
    for walk in walks {
        if !are_runs_caused(script, report, counted, worker, walk) {
            return false;
        }
    }
    true
}

// Whether each pass of these parts has.
fn are_parts_caused(
    script: &Script,
    report: &Report,
    counted: &Counted,
    parts: &[WorkerPart],
) -> bool
    requires order { AreInOrder report.now.places.items }
    requires counted { IsCountOf script.now report.now counted.now }
    requires whole { parts.now ≡ report.now.workers.items }
    ensures { Decides result ((worker : ℕ) (part : WorkerPart)
        → slice_get parts.now worker ≡ Some part
        → EachItem (λ w. EachAttempt w
        (λ a. IsRunCaused script.now report.now worker w a)) part.walks.items) }
{
    for worker in 0..parts.len() {
        if !are_walks_caused(
            script,
            report,
            counted,
            worker,
            parts[worker].walks.as_slice(),
        ) {
            return false;
        }
    }
    true
}

/// Whether each pass found its list closed only where it is closed, and is worn only by a counter
/// that was used up.
pub fn are_passes_caused(script: &Script, report: &Report, counted: &Counted) -> bool
    requires order { AreInOrder report.now.places.items }
    requires counted { IsCountOf script.now report.now counted.now }
    ensures { Decides result (ArePassesCaused script.now report.now) }
{
    let all = are_parts_caused(script, report, counted, report.workers.as_slice());
    all
}
