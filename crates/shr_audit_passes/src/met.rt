// SPDX-License-Identifier: GPL-2.0-only
//! The caches that attempts met.

ghost use Rattle.std.specs.Prelude.{◌≡◌, option_copied};
ghost use Rattle.shr_model.specs.Attempts.{is_held, number_of};
ghost use Rattle.shr_model.specs.Pool.{decl_at, registrations};
ghost use Rattle.shr_laws.specs.LawfulWalk.{cache_of};
ghost use Rattle.shr_laws.specs.Parts.{lookups_at};
ghost use Rattle.shr_audit_case.specs.Met.{IsMetIn};

use shr_audit_case::met::Met;
use shr_base::attempts::Attempt;
use shr_base::scripts::{CacheDecl, Script};
use shr_base::walks::Outcome;
use shr_laws::report::Report;

/// The number of an attempt's lookup, if there was one.
pub fn number_of(outcome: &Outcome) -> Option<u32>
    ensures { result ≡ number_of outcome.now }
{
    match *outcome {
        Outcome::Worn { .. } => None,
        Outcome::Gone { number, .. } => Some(number),
        Outcome::Skip { number, .. } => Some(number),
        Outcome::Ran { number, .. } => Some(number),
        Outcome::Empty { number, .. } => Some(number),
        Outcome::Cleared { number, .. } => Some(number),
        Outcome::RestoredSkip { number, .. } => Some(number),
        Outcome::RestoredRan { number, .. } => Some(number),
    }
}

/// Whether an attempt's lookup met a cache and held it.
pub fn is_held(outcome: &Outcome) -> bool
    ensures { result ≡ is_held outcome.now }
{
    !matches!(outcome, Outcome::Worn { .. } | Outcome::Gone { .. })
}

// The printed lookups of an id; none of one that isn't there.
fn lookups_at(report: &Report, id: u16) -> u32
    ensures { result ≡ lookups_at report.now id }
{
    let lookups = report.lookups.as_slice();
    if (id as usize) < lookups.len() {
        lookups[id as usize]
    } else {
        0
    }
}

// The declaration in whose registration the lookup of an id lies.
fn decl_met(report: &Report, met: &Met, id: u16, number: u32) -> Option<u8>
    requires { IsMetIn report.now.pool.items met.now }
    ensures { result ≡ decl_at number (registrations id report.now.pool.items) }
{
    met.decl(id, number)
}

/// The cache in whose registration the lookup of an attempt lies.
pub fn cache_of<'a>(
    script: &'a Script,
    report: &Report,
    met: &Met,
    attempt: &Attempt,
) -> Option<&'a CacheDecl>
    requires { IsMetIn report.now.pool.items met.now }
    ensures { option_copied result ≡ cache_of script.now report.now attempt.now }
{
    let Some(number) = number_of(&attempt.outcome()) else {
        return None;
    };
    if number >= lookups_at(report, attempt.id) {
        return None;
    }
    let Some(decl) = decl_met(report, met, attempt.id, number) else {
        return None;
    };
    script.caches.get(decl as usize)
}
