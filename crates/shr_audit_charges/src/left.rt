// SPDX-License-Identifier: GPL-2.0-only
//! What is left at the end: whether the final usage of each group is the number of the objects that
//! are listed at or below it, and isn't above its limit.

ghost use Rattle.std.specs.Prelude.{◌≡◌, ℕ, ◌<◌, ◌++◌, Some, flat_map, length, slice_get, OnOk, IfOk};
ghost use Rattle.std.specs.Bool.{Decides};
ghost use Rattle.std.specs.List.{AllByRecursion};
ghost use Rattle.shr_base.specs.declared.ends.PlaceEnd.{PlaceEnd};
ghost use Rattle.shr_base.specs.declared.journals.UseStep.{UseStep};
ghost use Rattle.shr_audit_case.specs.Lists.{IsReplayOf};
ghost use Rattle.shr_model.specs.Trees.{IsTree};
ghost use Rattle.shr_laws.specs.declared.report.Report.{Report};
ghost use Rattle.shr_audit_charges.specs.Left.{AreFinal, AreWithin, IsWithinLimit, left_keys, tag_keys};

use crate::balance::are_balanced;
use crate::climb::note_path;
use crate::history::Usage;
use crate::own::limit_at;
use crate::uses::{note_downs, note_ups};
use shr_audit_case::case::Case;
use shr_audit_case::tags::Tag;
use shr_base::ends::PlaceEnd;
use shr_base::journals::UseStep;
use shr_base::memory::Memory;
use shr_base::places::Serial;
use shr_laws::report::Report;
use std::alloc::Global;

const NONE: Serial = Serial {
    worker: 0,
    command: 0,
};

// Adds each group at or above the one in which each of these objects was born.
fn note_tags(keys: &mut Vec<u64>, parents: &[u16], tags: &[Tag]) -> Result<(), Memory>
    requires { IsTree parents.now }
    ensures { OnOk result (keys.new.items
        ≡ keys.old.items ++ flat_map (tag_keys parents.now) tags.now) }
{
    for tag in tags {
        note_path(keys, parents, tag.birth, NONE)?;
    }
    Ok(())
}

// The same of the objects that are left in each of these lists.
fn note_left(
    keys: &mut Vec<u64>,
    case: &Case,
    report: &Report,
    ends: &[PlaceEnd],
) -> Result<(), Memory>
    requires tree { IsTree case.now.parents.items }
    requires replay { IsReplayOf report.now case.now }
    ensures { OnOk result (keys.new.items ≡ keys.old.items ++ flat_map (λ (end : PlaceEnd).
        left_keys case.now.parents.items report.now end.place) ends.now) }
{
    for end in ends {
        note_tags(keys, case.parents.as_slice(), case.left(report, end.place))?;
    }
    Ok(())
}

/// Whether in each group that is there the operations come to the number of the listed objects that
/// were born at or below it. It sorts the operations and what they are compared with once, and for
/// an object climbs from its group to the root.
pub fn are_final(
    alloc: Global,
    case: &Case,
    report: &Report,
    uses: &[UseStep],
) -> Result<bool, Memory>
    requires tree { IsTree case.now.parents.items }
    requires replay { IsReplayOf report.now case.now }
    requires there { AllByRecursion (λ (o : UseStep).
        o.group < length case.now.parents.items) uses.now }
    ensures { IfOk result (λ b. Decides b (AreFinal case.now.parents.items report.now uses.now)) }
{
    let mut ups = Vec::new(alloc);
    note_ups(&mut ups, uses, false)?;
    let mut downs = Vec::new(alloc);
    note_downs(&mut downs, uses, false)?;
    note_left(&mut downs, case, report, report.places.as_slice())?;
    let balanced = are_balanced(alloc, ups.as_slice(), downs.as_slice())?;
    Ok(balanced)
}

// Whether what goes up less what goes down isn't above a limit.
fn is_within(limit: Option<u32>, usage: Usage) -> bool
    ensures { Decides result (IsWithinLimit limit usage) }
{
    match limit {
        Some(limit) => usage.ups.saturating_sub(usage.downs) <= limit as u64,
        None => true,
    }
}

/// Whether in no group the operations come to more than its limit.
pub fn are_within(limits: &[Option<u32>], usages: &[Usage]) -> bool
    ensures { Decides result (AreWithin limits.now usages.now) }
{
    for group in 0..usages.len() {
        if !is_within(limit_at(limits, group), usages[group]) {
            return false;
        }
    }
    true
}
