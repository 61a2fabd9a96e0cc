// SPDX-License-Identifier: GPL-2.0-only
//! The rounds of a put, by the walks that they made.

ghost use Rattle.std.specs.Prelude.{◌≡◌, ◌<◌, length};
ghost use Rattle.std.specs.Bool.{Decides};
ghost use Rattle.std.specs.List.{AllByRecursion};
ghost use Rattle.shr_audit_walks.specs.Orders.{AreSubtrees};
ghost use Rattle.shr_audit_walks.specs.Rounds.{FitsRounds, TakesOut};
ghost use Rattle.shr_audit_walks.specs.RoundRows.{jobs_made};

use crate::orders::Subtrees;
use crate::round_rows::behind_round;
use shr_base::walks::WalkRecord;

/// Takes a group out of these once, if it is among them.
pub fn take_out(groups: &mut Vec<u16>, group: u16) -> bool
    ensures { TakesOut result group groups.old.items groups.new.items }
{
    for k in 0..groups.len() {
        if groups[k] == group {
            groups.remove(k);
            return true;
        }
    }
    false
}

/// Whether the walks are those of rounds over these groups in some order, the first of priority 12
/// and each next of the one below, or the first of these walks where not the `whole` of them need be
/// there. What is left of the groups then isn't said.
pub fn are_rounds(
    subtrees: &Subtrees,
    nodes: u8,
    walks: &[WalkRecord],
    whole: bool,
    groups: &mut Vec<u16>,
) -> bool
    requires subtrees { AreSubtrees subtrees.now }
    requires nodes { 0 < nodes }
    requires there { AllByRecursion (λ g. g < length subtrees.now.parents.items)
        groups.old.items }
    ensures { Decides result (FitsRounds subtrees.now.parents.items nodes whole 12
        groups.old.items (jobs_made walks.now)) }
{
    let mut rest = walks;
    let mut priority = 12u8;
    while !rest.is_empty() {
        let first = &rest[0];
        if !take_out(groups, first.group) {
            return false;
        }
        let order = subtrees.order(first.group);
        let Some(more) = behind_round(rest, order, nodes, priority, whole) else {
            return false;
        };
        rest = more;
        priority = priority.saturating_sub(1);
    }
    let empty = groups.is_empty();
    !whole || empty
}
