// SPDX-License-Identifier: GPL-2.0-only
//! The journals of all groups for one id on one node, replayed together.

ghost use Rattle.std.specs.Prelude.{◌≡◌, ℕ, ◌≤◌, List, [], length, slice_get, IfOk, OnOk, option_copied};
ghost use Rattle.shr_base.specs.declared.objects.Object.{Object};
ghost use Rattle.shr_base.specs.declared.places.Place.{Place};
ghost use Rattle.shr_model.specs.Families.{Family, lists_moved};
ghost use Rattle.shr_model.specs.Trees.{IsTree};
ghost use Rattle.shr_audit_case.specs.Groups.{AreJournals, ArePrinted, AreReplayed, printed_entries, printed_items};
ghost use Rattle.shr_audit_case.specs.Journals.{IsReplayed, given_from};
ghost use Rattle.shr_audit_case.specs.Replayed.{took_of, given_by, KeepsOthers};

use crate::journal::{Replayed, replay_journal};
use shr_base::ends::PlaceEnd;
use shr_base::items::Items;
use shr_base::journals::Entry;
use shr_base::log::Log;
use shr_base::memory::Memory;
use shr_list::queue::Queue;
use std::alloc::Global;

// Replays the journal of a place that is printed, or the empty one.
fn replay_end(
    alloc: Global,
    parents: &[u16],
    group: u16,
    end: Option<&PlaceEnd>,
    lists: &mut Vec<Queue>,
) -> Result<(Replayed, Queue), Memory>
    ensures replayed { IfOk result (λ r. IsReplayed (lists_moved
        (took_of parents.now group lists.old.items) (printed_entries (option_copied end.entry)))
        (printed_entries (option_copied end.entry)) (printed_items (option_copied end.entry)) r.0) }
    ensures given { IfOk result (λ r. r.1.items
        ≡ given_from (took_of parents.now group lists.old.items) [] (printed_entries
        (option_copied end.entry))) }
    ensures others { OnOk result (KeepsOthers parents.now group lists.old.items lists.new.items) }
{
    match end {
        None => {
            let none: Log<Entry> = Log::new(alloc);
            let nothing = Items::new(alloc);
            let told = replay_journal(alloc, parents, group, none.as_slice(), &nothing, lists)?;
            Ok(told)
        }
        Some(end) => {
            let entries = end.entries.as_slice();
            let told = replay_journal(alloc, parents, group, entries, &end.items, lists)?;
            Ok(told)
        }
    }
}

// The printed place with this index.
fn end_at(ends: &[PlaceEnd], i: usize) -> Option<&PlaceEnd>
    ensures { option_copied result ≡ slice_get ends.now i }
{
    if i < ends.len() { Some(&ends[i]) } else { None }
}

// An empty list for each group.
fn no_lists(alloc: Global, count: usize) -> Result<Vec<Queue>, Memory>
    ensures { IfOk result (λ lists. length lists.items ≡ count) }
{
    let mut lists = Vec::new(alloc);
    for _group in 0..count {
        lists.push(Queue::new(alloc))?;
    }
    Ok(lists)
}

/// Replays the journals of all groups for one id on one node, the last group first, so that a list is
/// there before the list of its parent group takes it in. `firsts` has for each group the index among
/// `ends` of its journal, and one past the last end where the group has none.
pub fn replay_groups(
    alloc: Global,
    parents: &[u16],
    ends: &[PlaceEnd],
    firsts: &[usize],
) -> Result<Vec<Replayed>, Memory>
    requires tree { IsTree parents.now }
    requires few { length parents.now ≤ 65536 }
    requires each { length firsts.now ≡ length parents.now }
    ensures { IfOk result (λ told. (family : Family) (printed : Place → List Object) (place : Place)
        → AreJournals ends.now firsts.now (length parents.now) family place
        → ArePrinted ends.now firsts.now (length parents.now) printed place
        → AreReplayed parents.now family printed place told.items) }
{
    let count = parents.len();
    let mut lists = no_lists(alloc, count)?;
    let mut told = Vec::new(alloc);
    for k in 0..count {
        let group = count - 1 - k;
        let (replayed, given) = replay_end(
            alloc,
            parents,
            group as u16,
            end_at(ends, firsts[group]),
            &mut lists,
        )?;
        lists[group] = given;
        told.push(replayed)?;
    }
    Ok(told)
}
