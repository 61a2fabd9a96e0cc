// SPDX-License-Identifier: GPL-2.0-only
//! The law on journals.

ghost use Rattle.std.specs.Prelude.{◌≤◌, length, IfOk};
ghost use Rattle.std.specs.Bool.{Decides};
ghost use Rattle.shr_model.specs.Trees.{IsTree};
ghost use Rattle.shr_laws.specs.Journals.{AreJournalsLawful};
ghost use Rattle.shr_laws.specs.Parts.{parents_of};
ghost use Rattle.shr_audit_case.specs.Lists.{IsCaseOf};

use crate::begun::are_closed_begun;
use crate::done::are_done_closed;
use crate::left::are_items_left;
use crate::paired::are_journals_paired;
use crate::places::{are_outcomes_so, are_places_once, are_places_there};
use crate::standing::are_entries_standing;
use shr_audit_case::case::Case;
use shr_base::memory::Memory;
use shr_base::scripts::Script;
use shr_laws::report::Report;
use std::alloc::Global;

/// Whether the journals of a report are lawful for a script: places of the script, each printed once,
/// whose journals are legal, fit together and leave the objects that are printed, and lists that are
/// closed where their groups went offline.
pub fn are_journals_lawful(
    alloc: Global,
    script: &Script,
    report: &Report,
    case: &Case,
) -> Result<bool, Memory>
    requires replayed { IsCaseOf script.now report.now case.now }
    requires tree { IsTree (parents_of script.now) }
    requires few { length (parents_of script.now) ≤ 65536 }
    ensures { IfOk result (λ b. Decides b (AreJournalsLawful script.now report.now)) }
{
    let parents = case.parents.as_slice();
    if !are_places_there(script, report) {
        return Ok(false);
    }
    if !are_places_once(report) {
        return Ok(false);
    }
    let standing = are_entries_standing(alloc, parents, report)?;
    if !standing {
        return Ok(false);
    }
    if !are_outcomes_so(report, case) {
        return Ok(false);
    }
    if !are_journals_paired(report, parents) {
        return Ok(false);
    }
    if !are_items_left(report, case) {
        return Ok(false);
    }
    let begun = are_closed_begun(alloc, parents, report)?;
    if !begun {
        return Ok(false);
    }
    let done = are_done_closed(script, report);
    Ok(done)
}
