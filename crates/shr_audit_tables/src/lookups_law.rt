// SPDX-License-Identifier: GPL-2.0-only
//! The law on lookups.

ghost use Rattle.std.specs.Prelude.{IfOk};
ghost use Rattle.std.specs.Bool.{Decides};
ghost use Rattle.shr_audit_case.specs.Lists.{IsCaseOf};
ghost use Rattle.shr_laws.specs.Lookups.{AreLookupsLawful};
ghost use Rattle.shr_laws.specs.Numbers.{HasNumbers};
ghost use Rattle.shr_laws.specs.WellFormed.{IsWellFormed};

use crate::draws::is_drawn;
use crate::found::are_found_right;
use crate::idle::are_idle_empty;
use crate::lookups::lawful_pool;
use crate::met::are_met_right;
use shr_audit_case::case::Case;
use shr_base::memory::Memory;
use shr_base::scripts::Script;
use shr_laws::report::Report;
use std::alloc::Global;

/// Whether registrations follow each other as they may, and each lookup met what its number says,
/// in a well formed report whose numbers have the ranges of their types. `case` is of the script and
/// the report. `Memory` is want of it alone.
pub fn are_lookups_lawful(
    alloc: Global,
    script: &Script,
    report: &Report,
    case: &Case,
) -> Result<bool, Memory>
    requires well { IsWellFormed report.now }
    requires numbers { HasNumbers report.now }
    requires case { IsCaseOf script.now report.now case.now }
    ensures { IfOk result (λ b. Decides b (AreLookupsLawful script.now report.now)) }
{
    let Some(states) = lawful_pool(alloc, script, report)? else {
        return Ok(false);
    };
    if !is_drawn(alloc, report)? {
        return Ok(false);
    }
    if !are_met_right(alloc, report)? {
        return Ok(false);
    }
    if !are_found_right(alloc, script, report)? {
        return Ok(false);
    }
    let empty = are_idle_empty(case, report, states.as_slice());
    Ok(empty)
}
