// SPDX-License-Identifier: GPL-2.0-only
//! The law on causes.

ghost use Rattle.std.specs.Prelude.{IfOk};
ghost use Rattle.std.specs.Bool.{Decides};
ghost use Rattle.shr_audit_causes.specs.Rows.{AreRowsCaused};
ghost use Rattle.shr_laws.specs.CausesLawful.{AreCausesLawful};
ghost use Rattle.shr_laws.specs.WellFormed.{IsWellFormed};
ghost use Rattle.shr_script.specs.Content.{IsValid, content_of};

use crate::offlines::are_offlines_caused;
use crate::unregisters::are_unregisters_caused;
use shr_audit_reasons::counted::Counted;
use shr_audit_rows::law::are_causes_lawful_but_replies;
use shr_audit_rows::rows::are_rows_caused_but_ends;
use shr_base::memory::Memory;
use shr_base::scripts::Script;
use shr_laws::report::Report;
use std::alloc::Global;

// Whether each answer has its cause.
fn are_rows_caused(alloc: Global, script: &Script, report: &Report) -> Result<bool, Memory>
    requires valid { IsValid (content_of script.now) }
    requires well { IsWellFormed report.now }
    ensures { IfOk result (λ b. Decides b (AreRowsCaused script.now report.now)) }
{
    if !are_rows_caused_but_ends(alloc, script, report)? {
        return Ok(false);
    }
    let counted = Counted::of(alloc, script, report)?;
    if !are_unregisters_caused(alloc, script, report, &counted)? {
        return Ok(false);
    }
    let offlines = are_offlines_caused(alloc, script, report)?;
    Ok(offlines)
}

/// Whether each answer, attempt, pass and entry of a well formed report has its cause in it, and no
/// worker knows less than it knew before: the law on causes. The script is valid. `Memory` is want of
/// memory alone.
pub fn are_causes_lawful(alloc: Global, script: &Script, report: &Report) -> Result<bool, Memory>
    requires valid { IsValid (content_of script.now) }
    requires well { IsWellFormed report.now }
    ensures { IfOk result (λ b. Decides b (AreCausesLawful script.now report.now)) }
{
    if !are_rows_caused(alloc, script, report)? {
        return Ok(false);
    }
    let others = are_causes_lawful_but_replies(alloc, script, report)?;
    Ok(others)
}
