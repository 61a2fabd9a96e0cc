// SPDX-License-Identifier: GPL-2.0-only
//! The laws of a report, asked in their order.

ghost use Rattle.std.specs.Prelude.{IfOk, IfSome, IfNone};
ghost use Rattle.std.specs.Bool.{Decides};
ghost use Rattle.shr_script.specs.Content.{IsValid, content_of};
ghost use Rattle.shr_laws.specs.Isolated.{AreIsolationsLawful};
ghost use Rattle.shr_laws.specs.Lawful.{IsLawful};
ghost use Rattle.shr_laws.specs.Numbers.{HasNumbers};
ghost use Rattle.shr_laws.specs.WellFormed.{IsWellFormed};
ghost use Rattle.shr_audit_case.specs.Lists.{IsCaseOf};
ghost use Rattle.shr_audit.specs.declared.verdict.Law.TheVariants.{Replies};
ghost use Rattle.shr_audit.specs.Verdict.{Holds, IsFirstBroken};

use crate::verdict::{LAWS, Law};
use shr_audit_case::case::Case;
use shr_audit_causes::law::are_causes_lawful;
use shr_audit_charges::law::are_charges_lawful;
use shr_audit_isolations::isolations;
use shr_audit_lists::bag::is_bag_lawful;
use shr_audit_lists::bits::are_bits_lawful;
use shr_audit_lists::law::are_journals_lawful;
use shr_audit_pools::pools::are_pools_lawful;
use shr_audit_reasons::counted::Counted;
use shr_audit_replies::once::are_cited_once;
use shr_audit_replies::values::are_replies_lawful;
use shr_audit_sweep::sweep::is_sweep_lawful;
use shr_audit_tables::deferred::is_deferred_lawful;
use shr_audit_tables::lookups_law::are_lookups_lawful;
use shr_audit_walks::law::are_walks_lawful;
use shr_base::memory::Memory;
use shr_base::scripts::Script;
use shr_laws::report::Report;
use std::alloc::Global;

// Whether the law on replies holds, and no answer cites a place that is printed twice.
fn are_replies_held(
    alloc: Global,
    script: &Script,
    report: &Report,
    case: &Case,
) -> Result<bool, Memory>
    requires well_formed { IsWellFormed report.now }
    requires case { IsCaseOf script.now report.now case.now }
    ensures { IfOk result (λ b. Decides b (Holds Replies script.now report.now)) }
{
    if !are_replies_lawful(alloc, script, report, case)? {
        return Ok(false);
    }
    let once = are_cited_once(report);
    Ok(once)
}

// Whether the law on isolations holds. It counts first what they may have used up.
fn are_isolations_lawful(alloc: Global, script: &Script, report: &Report) -> Result<bool, Memory>
    requires { IsWellFormed report.now }
    ensures { IfOk result (λ b. Decides b (AreIsolationsLawful script.now report.now)) }
{
    let counted = Counted::of(alloc, script, report)?;
    let lawful = isolations::are_isolations_lawful(alloc, script, report, &counted)?;
    Ok(lawful)
}

// Whether a law holds of a script and a report. The case is that of the two.
fn is_held(
    alloc: Global,
    law: Law,
    script: &Script,
    report: &Report,
    case: &Case,
) -> Result<bool, Memory>
    requires valid { IsValid (content_of script.now) }
    requires well_formed { IsWellFormed report.now }
    requires numbers { HasNumbers report.now }
    requires case { IsCaseOf script.now report.now case.now }
    ensures { IfOk result (λ b. Decides b (Holds law script.now report.now)) }
{
    match law {
        Law::Replies => are_replies_held(alloc, script, report, case),
        Law::Journals => are_journals_lawful(alloc, script, report, case),
        Law::Bag => is_bag_lawful(alloc, script, report, case),
        Law::Walks => are_walks_lawful(alloc, script, report, case),
        Law::Lookups => are_lookups_lawful(alloc, script, report, case),
        Law::Charges => are_charges_lawful(alloc, case, script, report),
        Law::Deferred => is_deferred_lawful(alloc, case.parents.as_slice(), script, report),
        Law::Bits => are_bits_lawful(alloc, script, report, case),
        Law::Causes => are_causes_lawful(alloc, script, report),
        Law::Pools => are_pools_lawful(alloc, script, report),
        Law::Isolations => are_isolations_lawful(alloc, script, report),
        Law::Sweep => is_sweep_lawful(alloc, script, report),
    }
}

/// The first law that doesn't hold of a script and a report. None: each of the twelve holds. `Memory` is
/// want of memory alone.
pub fn first_broken(alloc: Global, script: &Script, report: &Report) -> Result<Option<Law>, Memory>
    requires valid { IsValid (content_of script.now) }
    requires well_formed { IsWellFormed report.now }
    requires numbers { HasNumbers report.now }
    ensures some { IfOk result (λ found. IfSome found (λ law.
        IsFirstBroken law script.now report.now)) }
    ensures none { IfOk result (λ found. IfNone found (IsLawful script.now report.now)) }
{
    let case = Case::of(alloc, script, report)?;
    for law in LAWS {
        let held = is_held(alloc, law, script, report, &case)?;
        if !held {
            return Ok(Some(law));
        }
    }
    Ok(None)
}
