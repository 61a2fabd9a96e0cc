// SPDX-License-Identifier: GPL-2.0-only
//! The bag of a report.

ghost use Rattle.std.specs.Prelude.{◌≡◌, IfOk};
ghost use Rattle.std.specs.Bool.{Decides};
ghost use Rattle.shr_laws.specs.Lawful.{IsBagLawful};
ghost use Rattle.shr_audit_case.specs.Lists.{IsCaseOf};

use crate::bags::is_bag_of;
use crate::gone::gone_serials;
use crate::noted::added_serials;
use shr_audit_case::case::Case;
use shr_base::memory::Memory;
use shr_base::scripts::Script;
use shr_laws::report::Report;
use std::alloc::Global;

// Whether the totals of a report are these.
fn are_totals(report: &Report, added: usize, freed: usize, listed: usize) -> bool
    ensures { Decides result ((report.now.added ≡ added) × (report.now.freed ≡ freed)
        × (report.now.listed ≡ listed)) }
{
    report.added == added as u64 && report.freed == freed as u64 && report.listed == listed as u64
}

/// Whether each object that was added was freed once or is listed once, and the totals of the report
/// say how many.
pub fn is_bag_lawful(
    alloc: Global,
    script: &Script,
    report: &Report,
    case: &Case,
) -> Result<bool, Memory>
    requires { IsCaseOf script.now report.now case.now }
    ensures { IfOk result (λ b. Decides b (IsBagLawful script.now report.now)) }
{
    let added = added_serials(alloc, report)?;
    let gone = gone_serials(alloc, report, case)?;
    let listed = gone.serials.len() - gone.freed;
    if !are_totals(report, added.len(), gone.freed, listed) {
        return Ok(false);
    }
    let bag = is_bag_of(added, gone.serials)?;
    Ok(bag)
}
