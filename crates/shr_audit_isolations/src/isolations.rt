// SPDX-License-Identifier: GPL-2.0-only
//! The law on isolations.

ghost use Rattle.std.specs.Prelude.{IfOk};
ghost use Rattle.std.specs.Bool.{Decides};
ghost use Rattle.shr_laws.specs.Isolated.{AreIsolationsLawful};
ghost use Rattle.shr_laws.specs.WellFormed.{IsWellFormed};
ghost use Rattle.shr_audit_reasons.specs.Counted.{IsCountOf};
ghost use Rattle.shr_audit_isolations.specs.Right.{AreGatheredRight};

use crate::commands::are_told;
use crate::gathered::gather;
use crate::right::are_rows_right;
use shr_audit_reasons::counted::Counted;
use shr_base::memory::Memory;
use shr_base::scripts::Script;
use shr_laws::report::Report;
use std::alloc::Global;

// Whether all but the field on commands holds.
fn are_gathered_right(
    alloc: Global,
    script: &Script,
    report: &Report,
    counted: &Counted,
) -> Result<bool, Memory>
    requires well { IsWellFormed report.now }
    requires counted { IsCountOf script.now report.now counted.now }
    ensures { IfOk result (λ b. Decides b (AreGatheredRight script.now report.now)) }
{
    let found = gather(alloc, report)?;
    match found {
        Some(table) => {
            let right = are_rows_right(script, report, counted, table.as_slice());
            Ok(right)
        }
        None => Ok(false),
    }
}

/// Whether the law on isolations holds: each is lawful with its Scan entries and ended for a reason
/// that the report has, each command has those that its answer tells of, and no other scan was made.
/// It keeps 20 bytes for each Scan entry of an isolation; want of that memory alone is an error.
pub fn are_isolations_lawful(
    alloc: Global,
    script: &Script,
    report: &Report,
    counted: &Counted,
) -> Result<bool, Memory>
    requires well { IsWellFormed report.now }
    requires counted { IsCountOf script.now report.now counted.now }
    ensures { IfOk result (λ b. Decides b (AreIsolationsLawful script.now report.now)) }
{
    if !are_told(script, report) {
        return Ok(false);
    }
    let right = are_gathered_right(alloc, script, report, counted)?;
    Ok(right)
}
