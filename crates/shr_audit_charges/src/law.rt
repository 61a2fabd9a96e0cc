// SPDX-License-Identifier: GPL-2.0-only
//! The law on charges, field by field.

ghost use Rattle.std.specs.Prelude.{◌≡◌, IfOk};
ghost use Rattle.std.specs.Bool.{Decides};
ghost use Rattle.shr_audit_case.specs.Lists.{IsCaseOf};
ghost use Rattle.shr_model.specs.Trees.{IsTree};
ghost use Rattle.shr_laws.specs.Charges.{AreChargesLawful};
ghost use Rattle.shr_laws.specs.Numbers.{HasNumbers};
ghost use Rattle.shr_laws.specs.Parts.{later_of, limits_of, parents_of};
ghost use Rattle.shr_audit_charges.specs.Law.{AreUsesLawful, IsTreeLawful};
ghost use Rattle.shr_audit_charges.specs.Nets.{AreWorkersFew};

use crate::history::replay_uses;
use crate::left::{are_final, are_within};
use crate::nets::are_nets;
use crate::own::are_own_right;
use crate::puts::are_ups_of_puts;
use crate::tree::is_tree_journal;
use shr_audit_case::case::Case;
use shr_base::memory::Memory;
use shr_base::scripts::Script;
use shr_laws::report::Report;
use std::alloc::Global;

// Whether each group isn't there at the start, the root first.
fn later_of(alloc: Global, script: &Script) -> Result<Vec<bool>, Memory>
    ensures { IfOk result (λ later. later.items ≡ later_of script.now) }
{
    let mut later = Vec::new(alloc);
    later.push(false)?;
    for group in script.groups.as_slice() {
        later.push(group.later)?;
    }
    Ok(later)
}

// The limits of the groups, the root first.
fn limits_of(alloc: Global, script: &Script) -> Result<Vec<Option<u32>>, Memory>
    ensures { IfOk result (λ limits. limits.items ≡ limits_of script.now) }
{
    let mut limits = Vec::new(alloc);
    limits.push(None)?;
    for group in script.groups.as_slice() {
        limits.push(group.limit)?;
    }
    Ok(limits)
}

// Whether the journal of the tree is one.
fn is_tree_lawful(
    alloc: Global,
    parents: &[u16],
    script: &Script,
    report: &Report,
) -> Result<bool, Memory>
    requires parents { parents.now ≡ parents_of script.now }
    requires tree { IsTree (parents_of script.now) }
    ensures { IfOk result (λ b. Decides b (IsTreeLawful script.now report.now)) }
{
    let later = later_of(alloc, script)?;
    let lawful = is_tree_journal(alloc, parents, later.as_slice(), report.tree.as_slice())?;
    Ok(lawful)
}

// Whether the operations are what the groups' histories, their commands and what is left ask.
fn are_uses_lawful(
    alloc: Global,
    case: &Case,
    script: &Script,
    report: &Report,
) -> Result<bool, Memory>
    requires case { IsCaseOf script.now report.now case.now }
    requires tree { IsTree (parents_of script.now) }
    ensures { IfOk result (λ b. Decides b (AreUsesLawful script.now report.now)) }
{
    let uses = report.uses.as_slice();
    let parents = case.parents.as_slice();
    let Some(usages) = replay_uses(alloc, parents.len(), uses)? else {
        return Ok(false);
    };
    let limits = limits_of(alloc, script)?;
    if !are_own_right(alloc, limits.as_slice(), uses)? {
        return Ok(false);
    }
    if !are_ups_of_puts(script, uses) {
        return Ok(false);
    }
    if !are_final(alloc, case, report, uses)? {
        return Ok(false);
    }
    let within = are_within(limits.as_slice(), usages.as_slice());
    Ok(within)
}

/// Whether the charges of a report are lawful for a script. `Memory` is want of memory alone.
pub fn are_charges_lawful(
    alloc: Global,
    case: &Case,
    script: &Script,
    report: &Report,
) -> Result<bool, Memory>
    requires case { IsCaseOf script.now report.now case.now }
    requires tree { IsTree (parents_of script.now) }
    requires few { AreWorkersFew script.now.workers.items }
    requires numbers { HasNumbers report.now }
    ensures { IfOk result (λ b. Decides b (AreChargesLawful script.now report.now)) }
{
    if !is_tree_lawful(alloc, case.parents.as_slice(), script, report)? {
        return Ok(false);
    }
    if !are_uses_lawful(alloc, case, script, report)? {
        return Ok(false);
    }
    let nets = are_nets(alloc, case, script, report)?;
    Ok(nets)
}
