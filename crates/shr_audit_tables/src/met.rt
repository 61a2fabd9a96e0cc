// SPDX-License-Identifier: GPL-2.0-only
//! What attempts met.

ghost use Rattle.std.specs.Prelude.{◌≡◌, ℕ, Some, is_some, slice_get, IfOk};
ghost use Rattle.std.specs.Bool.{Decides};
ghost use Rattle.shr_base.specs.declared.ends.WorkerPart.{WorkerPart};
ghost use Rattle.shr_audit_formed.specs.Each.{EachItem};
ghost use Rattle.shr_model.specs.Attempts.{is_held, number_of};
ghost use Rattle.shr_laws.specs.Parts.{EachAttempt, lookups_at};
ghost use Rattle.shr_model.specs.Pool.{attempt_at, decl_at, registrations};
ghost use Rattle.shr_audit_case.specs.Met.{IsMetIn};
ghost use Rattle.shr_audit_tables.specs.Met.{AreMetRight, IsMetRight};

use shr_audit_case::met::Met;
use shr_base::attempts::Attempt;
use shr_base::ends::WorkerPart;
use shr_base::memory::Memory;
use shr_base::walks::{Outcome, WalkRecord};
use shr_laws::report::Report;
use std::alloc::Global;

// The number of the lookup, where there was one.
fn number_of(outcome: &Outcome) -> Option<u32>
    ensures { result ≡ number_of outcome.now }
{
    match *outcome {
        Outcome::Worn { .. } => None,
        Outcome::Gone { number, .. } => Some(number),
        Outcome::Skip { number, .. } => Some(number),
        Outcome::Ran { number, .. } => Some(number),
        Outcome::Empty { number, .. } => Some(number),
        Outcome::Cleared { number, .. } => Some(number),
        Outcome::RestoredSkip { number, .. } => Some(number),
        Outcome::RestoredRan { number, .. } => Some(number),
    }
}

// Whether the attempt held its cache.
fn is_held(outcome: &Outcome) -> bool
    ensures { result ≡ is_held outcome.now }
{
    match outcome {
        Outcome::Worn { .. } => false,
        Outcome::Gone { .. } => false,
        _ => true,
    }
}

// The printed lookups of an id; none of one that isn't there.
fn lookups_at(report: &Report, id: u16) -> u32
    ensures { result ≡ lookups_at report.now id }
{
    let lookups = report.lookups.as_slice();
    if (id as usize) < lookups.len() {
        lookups[id as usize]
    } else {
        0
    }
}

// The declaration in whose registration the lookup of an id lies.
fn decl_met(report: &Report, met: &Met, id: u16, number: u32) -> Option<u8>
    requires { IsMetIn report.now.pool.items met.now }
    ensures { result ≡ decl_at number (registrations id report.now.pool.items) }
{
    met.decl(id, number)
}

// Whether the lookup of an id with this number was made, and met a registration.
fn is_met(report: &Report, met: &Met, id: u16, number: u32) -> bool
    requires { IsMetIn report.now.pool.items met.now }
    ensures { result ≡ is_some (attempt_at id number (lookups_at report.now id)
        report.now.pool.items) }
{
    if number >= lookups_at(report, id) {
        return false;
    }
    decl_met(report, met, id, number).is_some()
}

// Whether an attempt with a number was held if and only if its lookup met a registration.
fn is_met_right(report: &Report, met: &Met, attempt: &Attempt) -> bool
    requires { IsMetIn report.now.pool.items met.now }
    ensures { Decides result (IsMetRight report.now attempt.now) }
{
    match number_of(&attempt.outcome()) {
        Some(number) => {
            let there = is_met(report, met, attempt.id, number);
            let held = is_held(&attempt.outcome());
            held == there
        }
        None => true,
    }
}

// Whether each attempt of a walk was.
fn are_attempts_right(report: &Report, met: &Met, walk: &WalkRecord) -> bool
    requires { IsMetIn report.now.pool.items met.now }
    ensures { Decides result (EachAttempt walk.now (IsMetRight report.now)) }
{
    for attempt in walk.attempts() {
        if !is_met_right(report, met, attempt) {
            return false;
        }
    }
    true
}

// Whether each of these walks was.
fn are_walks_right(report: &Report, met: &Met, walks: &[WalkRecord]) -> bool
    requires { IsMetIn report.now.pool.items met.now }
    ensures { Decides result (EachItem (λ w. EachAttempt w (IsMetRight report.now)) walks.now) }
{
    for walk in walks {
        if !are_attempts_right(report, met, walk) {
            return false;
        }
    }
    true
}

// Whether each of these parts was.
fn are_parts_right(report: &Report, met: &Met, parts: &[WorkerPart]) -> bool
    requires { IsMetIn report.now.pool.items met.now }
    ensures { Decides result ((worker : ℕ) (part : WorkerPart)
        → slice_get parts.now worker ≡ Some part
        → EachItem (λ w. EachAttempt w (IsMetRight report.now)) part.walks.items) }
{
    for worker in 0..parts.len() {
        if !are_walks_right(report, met, parts[worker].walks.as_slice()) {
            return false;
        }
    }
    true
}

/// Whether each attempt that made a lookup was held if and only if the lookup's number lies in a
/// registration of its id. `Memory` is want of it alone.
pub fn are_met_right(alloc: Global, report: &Report) -> Result<bool, Memory>
    ensures { IfOk result (λ b. Decides b (AreMetRight report.now)) }
{
    let met = Met::of(alloc, report.pool.as_slice())?;
    let right = are_parts_right(report, &met, report.workers.as_slice());
    Ok(right)
}
