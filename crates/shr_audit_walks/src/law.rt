// SPDX-License-Identifier: GPL-2.0-only
//! The law on walks.

ghost use Rattle.std.specs.Prelude.{◌≡◌, ◌<◌, ◌≤◌, ◌^◌, ℕ, length, IfOk};
ghost use Rattle.std.specs.Bool.{Decides};
ghost use Rattle.shr_audit_case.specs.Lists.{IsCaseOf};
ghost use Rattle.shr_audit_case.specs.Places.{AreInOrder};
ghost use Rattle.shr_model.specs.Trees.{IsTree};
ghost use Rattle.shr_model.specs.Groups.{preorder_of};
ghost use Rattle.shr_laws.specs.LawfulWalk.{IsLawfulWalk};
ghost use Rattle.shr_laws.specs.Numbers.{HasNumbers};
ghost use Rattle.shr_laws.specs.Parts.{EachAnswer, EachWalk, commands_of, parents_of, walks_by};
ghost use Rattle.shr_laws.specs.WalksLawful.{AreWalksLawful, IsToldBy};
ghost use Rattle.shr_laws.specs.WellFormed.{IsWellFormed};

use crate::bits::are_bits_seen;
use crate::commands::are_walks_made;
use crate::later::are_versions_later;
use crate::orders::Subtrees;
use crate::others::are_no_others;
use crate::scan_table::Scans;
use crate::scan_walks::{Known, are_walks_each};
use crate::versions::versions_never_fall;
use shr_audit_case::case::Case;
use shr_audit_case::met::Met;
use shr_audit_case::serials::parents_of;
use shr_audit_passes::commands::are_told;
use shr_base::memory::Memory;
use shr_base::scripts::Script;
use shr_laws::report::Report;
use std::alloc::Global;

// Whether each walk is lawful.
fn is_each_lawful(
    alloc: Global,
    script: &Script,
    report: &Report,
    case: &Case,
) -> Result<bool, Memory>
    requires order { AreInOrder report.now.places.items }
    requires numbers { HasNumbers report.now }
    requires case { IsCaseOf script.now report.now case.now }
    ensures { IfOk result (λ b. Decides b (EachWalk report.now (IsLawfulWalk script.now
        report.now))) }
{
    let met = Met::of(alloc, report.pool.as_slice())?;
    let scans = Scans::of(alloc, report)?;
    let known = Known {
        script,
        report,
        case,
        met: &met,
        scans: &scans,
    };
    let lawful = are_walks_each(alloc, &known)?;
    Ok(lawful)
}

// How many groups a `balance` walks.
fn groups_walked(alloc: Global, script: &Script) -> Result<usize, Memory>
    requires tree { IsTree (parents_of script.now) }
    requires groups { length (parents_of script.now) ≤ 65536 }
    ensures { IfOk result (λ n. n ≡ length (preorder_of (parents_of script.now) 0)) }
{
    let parents = parents_of(alloc, script)?;
    let subtrees = Subtrees::of(alloc, parents)?;
    let groups = subtrees.order(0).len();
    Ok(groups)
}

// Whether each `shrink` and `balance` is answered as its walks say.
fn is_each_told(alloc: Global, script: &Script, report: &Report) -> Result<bool, Memory>
    requires well { IsWellFormed report.now }
    requires tree { IsTree (parents_of script.now) }
    requires groups { length (parents_of script.now) ≤ 65536 }
    ensures { IfOk result (λ b. Decides b (EachAnswer script.now report.now (λ by c a.
        IsToldBy script.now (walks_by report.now by) c a.reply))) }
{
    let groups = groups_walked(alloc, script)?;
    let told = are_told(script, report, groups);
    Ok(told)
}

/// Whether each walk is lawful, each command has its walks, and a worker's walks see what it did
/// before, in a well formed report whose numbers have the ranges of their types. `case` is of the
/// script and the report. The groups of the script are a tree, it has a node, and its commands have
/// numbers of their types. `Memory` is want of it alone.
pub fn are_walks_lawful(
    alloc: Global,
    script: &Script,
    report: &Report,
    case: &Case,
) -> Result<bool, Memory>
    requires well { IsWellFormed report.now }
    requires numbers { HasNumbers report.now }
    requires case { IsCaseOf script.now report.now case.now }
    requires tree { IsTree (parents_of script.now) }
    requires groups { length (parents_of script.now) ≤ 65536 }
    requires nodes { 0 < script.now.nodes }
    requires few { (worker : ℕ) → length (commands_of script.now worker) ≤ 2 ^ 32 }
    ensures { IfOk result (λ b. Decides b (AreWalksLawful script.now report.now)) }
{
    if !is_each_lawful(alloc, script, report, case)? {
        return Ok(false);
    }
    if !are_no_others(alloc, report)? {
        return Ok(false);
    }
    if !are_walks_made(alloc, script, report)? {
        return Ok(false);
    }
    if !is_each_told(alloc, script, report)? {
        return Ok(false);
    }
    if !versions_never_fall(alloc, report)? {
        return Ok(false);
    }
    if !are_versions_later(alloc, report)? {
        return Ok(false);
    }
    let seen = are_bits_seen(alloc, script, report, case)?;
    Ok(seen)
}
