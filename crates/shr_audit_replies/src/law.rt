// SPDX-License-Identifier: GPL-2.0-only
//! The law on replies, field by field.

ghost use Rattle.std.specs.Prelude.{IfOk};
ghost use Rattle.std.specs.Bool.{Decides};
ghost use Rattle.shr_audit_case.specs.Places.{AreInOrder};
ghost use Rattle.shr_audit_replies.specs.Law.{AreRepliesLawfulButValues, HasHeads};

use crate::answered::are_answered;
use crate::cited::are_entries_cited;
use crate::heads::{are_last_swept, has_names, has_paths, has_pool_names, has_sizes, is_counted};
use crate::rising::are_journals_rising;
use shr_base::memory::Memory;
use shr_base::scripts::Script;
use shr_laws::report::Report;
use std::alloc::Global;

/// Whether a report has at its head what the script says.
pub fn has_heads(script: &Script, report: &Report) -> bool
    ensures { Decides result (HasHeads script.now report.now) }
{
    if !has_sizes(script, report) {
        return false;
    }
    if !has_paths(script, report) {
        return false;
    }
    if !has_names(script, report) {
        return false;
    }
    let pools = has_pool_names(script, report);
    pools
}

/// Whether the replies of a report are lawful for a script, but for the values that hits lend.
/// `Memory` is want of memory alone.
pub fn are_replies_lawful_but_values(
    alloc: Global,
    script: &Script,
    report: &Report,
) -> Result<bool, Memory>
    requires { AreInOrder report.now.places.items }
    ensures { IfOk result (λ b. Decides b (AreRepliesLawfulButValues script.now report.now)) }
{
    if !has_heads(script, report) {
        return Ok(false);
    }
    if !is_counted(script, report) {
        return Ok(false);
    }
    if !are_last_swept(script, report) {
        return Ok(false);
    }
    if !are_answered(script, report) {
        return Ok(false);
    }
    if !are_entries_cited(report) {
        return Ok(false);
    }
    let rising = are_journals_rising(alloc, report)?;
    Ok(rising)
}
