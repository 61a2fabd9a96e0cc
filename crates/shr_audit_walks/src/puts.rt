// SPDX-License-Identifier: GPL-2.0-only
//! The walks of a put.

ghost use Rattle.std.specs.Prelude.{◌≡◌, ◌<◌, ℕ, List, true, false, length, IfOk};
ghost use Rattle.std.specs.Bool.{Decides};
ghost use Rattle.std.specs.List.{AllByRecursion};
ghost use Rattle.shr_audit_walks.specs.declared.refusals.Refusal.{Refusal};
ghost use Rattle.shr_model.specs.Groups.{IsAtOrAbove, parent_of};
ghost use Rattle.shr_model.specs.Trees.{IsTree};
ghost use Rattle.shr_audit_walks.specs.Commands.{is_whole, over_of};
ghost use Rattle.shr_audit_walks.specs.Orders.{AreSubtrees};
ghost use Rattle.shr_audit_walks.specs.Refusals.{refused_groups};
ghost use Rattle.shr_audit_walks.specs.Rounds.{AreDue, IsPutMade};
ghost use Rattle.shr_audit_walks.specs.RoundRows.{jobs_made};

use crate::commands::Dues;
use crate::refusals::Refusal;
use crate::rounds::{are_rounds, take_out};
use shr_base::memory::Memory;
use shr_base::replies::Reply;
use shr_base::walks::WalkRecord;
use std::alloc::Global;

// The group that an answer names as the one that refused last.
fn over_of(reply: &Reply) -> Option<u16>
    ensures { result ≡ over_of reply.now }
{
    match reply {
        Reply::Over { group, .. } => Some(*group),
        _ => None,
    }
}

/// Whether a command with this answer made all walks that were due: it isn't want of memory.
pub fn is_whole(reply: &Reply) -> bool
    ensures { result ≡ is_whole reply.now }
{
    match reply {
        Reply::Memory => false,
        Reply::WalkMemory { .. } => false,
        _ => true,
    }
}

// The parent of a group, the root of one that isn't there.
fn parent_of(parents: &[u16], group: u16) -> u16
    ensures { result ≡ parent_of parents.now group }
{
    if (group as usize) < parents.len() {
        parents[group as usize]
    } else {
        0
    }
}

// Whether a group is at or above another.
fn is_at_or_above(parents: &[u16], above: u16, group: u16) -> bool
    requires { IsTree parents.now }
    ensures { Decides result (IsAtOrAbove parents.now above group) }
{
    let mut at = group;
    while at > 0 {
        if at == above {
            return true;
        }
        at = parent_of(parents, at);
    }
    above == 0
}

// Whether each of these groups is at or above another.
fn are_above(parents: &[u16], groups: &[u16], group: u16) -> bool
    requires { IsTree parents.now }
    ensures { Decides result (AllByRecursion (λ h. IsAtOrAbove parents.now h group) groups.now) }
{
    for above in groups {
        if !is_at_or_above(parents, *above, group) {
            return false;
        }
    }
    true
}

// The groups of refused charges.
fn groups_of(alloc: Global, refusals: &[Refusal]) -> Result<Vec<u16>, Memory>
    ensures { IfOk result (λ groups. groups.items ≡ refused_groups refusals.now) }
{
    let mut groups = Vec::new(alloc);
    for refusal in refusals {
        groups.push(refusal.group)?;
    }
    Ok(groups)
}

// Leaves, of the groups that refused, those of the rounds: each but the one that the answer names.
// Whether there may be rounds over these: at most 13, and 13 where the answer names one.
fn leave_rounds(groups: &mut Vec<u16>, over: Option<u16>) -> bool
    ensures due { result ≡ true → AreDue over groups.old.items groups.new.items }
    ensures none { result ≡ false → (rounds : List ℕ) → AreDue over groups.old.items rounds
        → ⊥ }
{
    match over {
        Some(group) => {
            if !take_out(groups, group) {
                return false;
            }
            groups.len() == 13
        }
        None => groups.len() <= 13,
    }
}

/// Whether the walks of a put for a group, which was answered so and of which these charges were
/// refused, are those of its rounds.
pub fn is_put_made(
    alloc: Global,
    dues: &Dues,
    group: u16,
    reply: &Reply,
    refusals: &[Refusal],
    walks: &[WalkRecord],
) -> Result<bool, Memory>
    requires subtrees { AreSubtrees dues.now.subtrees }
    requires nodes { 0 < dues.now.nodes }
    requires there { AllByRecursion (λ (x : Refusal). x.group < length
        dues.now.subtrees.parents.items) refusals.now }
    ensures { IfOk result (λ b. Decides b (IsPutMade dues.now.subtrees.parents.items
        dues.now.nodes group (over_of reply.now) (is_whole reply.now) (refused_groups refusals.now)
        (jobs_made walks.now))) }
{
    let mut groups = groups_of(alloc, refusals)?;
    if !leave_rounds(&mut groups, over_of(reply)) {
        return Ok(false);
    }
    let subtrees = &dues.subtrees;
    if !are_above(subtrees.parents.as_slice(), groups.as_slice(), group) {
        return Ok(false);
    }
    let made = are_rounds(subtrees, dues.nodes, walks, is_whole(reply), &mut groups);
    Ok(made)
}
