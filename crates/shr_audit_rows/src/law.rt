// SPDX-License-Identifier: GPL-2.0-only
//! The law on causes, field by field.

ghost use Rattle.std.specs.Prelude.{IfOk};
ghost use Rattle.std.specs.Bool.{Decides};
ghost use Rattle.shr_audit_reasons.specs.Counted.{IsCountOf};
ghost use Rattle.shr_audit_case.specs.Places.{AreInOrder};
ghost use Rattle.shr_audit_rows.specs.Law.{AreCausesLawfulButReplies, AreEntriesCaused, AreWalksCaused};

use shr_audit_fresh::law::is_fresh;
use shr_audit_reasons::attempts::are_attempts_caused;
use shr_audit_reasons::counted::Counted;
use shr_audit_reasons::drains::are_drains_caused;
use shr_audit_reasons::passes::are_passes_caused;
use shr_audit_reasons::plain::are_tries_caused;
use shr_audit_reasons::registrations::are_registrations_caused;
use shr_audit_reasons::trees::{are_begins_caused, are_dones_caused, are_mades_caused};
use shr_audit_reasons::walks::walks_begin;
use shr_base::memory::Memory;
use shr_base::scripts::Script;
use shr_laws::report::Report;
use std::alloc::Global;

// Whether walks, and worn attempts and passes, have what they came from.
fn are_walks_caused(script: &Script, report: &Report, counted: &Counted) -> bool
    requires order { AreInOrder report.now.places.items }
    requires counted { IsCountOf script.now report.now counted.now }
    ensures { Decides result (AreWalksCaused script.now report.now) }
{
    if !walks_begin(report) {
        return false;
    }
    if !are_attempts_caused(script, report) {
        return false;
    }
    if !are_passes_caused(script, report, counted) {
        return false;
    }
    let plain = are_tries_caused(script, report);
    plain
}

// Whether entries have.
fn are_entries_caused(alloc: Global, script: &Script, report: &Report) -> Result<bool, Memory>
    requires { AreInOrder report.now.places.items }
    ensures { IfOk result (λ b. Decides b (AreEntriesCaused script.now report.now)) }
{
    if !are_begins_caused(alloc, script, report)? {
        return Ok(false);
    }
    if !are_dones_caused(alloc, script, report)? {
        return Ok(false);
    }
    if !are_mades_caused(alloc, script, report)? {
        return Ok(false);
    }
    if !are_registrations_caused(alloc, script, report)? {
        return Ok(false);
    }
    let drained = are_drains_caused(report);
    Ok(drained)
}

/// Whether the law on causes holds of a report but for what its replies came from: walks, attempts,
/// passes, entries, and freshness. `Memory` is want of memory alone.
pub fn are_causes_lawful_but_replies(
    alloc: Global,
    script: &Script,
    report: &Report,
) -> Result<bool, Memory>
    requires { AreInOrder report.now.places.items }
    ensures { IfOk result (λ b. Decides b (AreCausesLawfulButReplies script.now report.now)) }
{
    if !are_entries_caused(alloc, script, report)? {
        return Ok(false);
    }
    let counted = Counted::of(alloc, script, report)?;
    if !are_walks_caused(script, report, &counted) {
        return Ok(false);
    }
    let fresh = is_fresh(alloc, script, report)?;
    Ok(fresh)
}
