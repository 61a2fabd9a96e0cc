// SPDX-License-Identifier: GPL-2.0-only
//! The lists that the places of an id on a node give to those of their parent groups.

ghost use Rattle.std.specs.Prelude.{◌≡◌, [], ◌&&◌, nat_lt, IfOk, OnOk};
ghost use Rattle.shr_model.specs.Families.{child_of};
ghost use Rattle.shr_model.specs.MovedItems.{moved_by};
ghost use Rattle.shr_model.specs.Groups.{is_child};
ghost use Rattle.shr_audit_case.specs.Replayed.{took_of, took_after, KeepsOthers};
ghost use Rattle.shr_audit_case.specs.Replay.{Replays};

use crate::step::{Told, replay_entry};
use shr_base::journals::Entry;
use shr_base::memory::Memory;
use shr_list::queue::Queue;
use std::alloc::Global;

// Whether one group is a child of another.
fn is_child(parents: &[u16], group: u16, child: u16) -> bool
    ensures { result ≡ is_child parents.now group child }
{
    0 < child && (child as usize) < parents.len() && parents[child as usize] == group
}

// Whether a group is a child of this one that has a list.
fn has_list(parents: &[u16], group: u16, child: u16, lists: usize) -> bool
    ensures { result ≡ (is_child parents.now group child && nat_lt child lists) }
{
    is_child(parents, group, child) && (child as usize) < lists
}

// The child whose list an entry moves in.
fn child_of(entry: &Entry) -> Option<u16>
    ensures { result ≡ child_of entry.now }
{
    match entry {
        Entry::MovedIn { child, .. } => Some(*child),
        _ => None,
    }
}

// Replays an entry that finds no child's list.
fn replay_alone(alloc: Global, queue: &mut Queue, entry: &Entry) -> Result<Told, Memory>
    ensures { IfOk result (λ t. Replays [] queue.old.items queue.new.items entry.now t) }
{
    let mut none = Queue::new(alloc);
    let told = replay_entry(alloc, queue, &mut none, entry)?;
    Ok(told)
}

/// Replays an entry of a group's list, where `lists` has for each child of the group the list that is
/// still to be moved in. An entry that moves a child's list in empties it there; one that names a
/// group that is no child moves nothing.
pub fn replay_with(
    alloc: Global,
    parents: &[u16],
    group: u16,
    queue: &mut Queue,
    lists: &mut Vec<Queue>,
    entry: &Entry,
) -> Result<Told, Memory>
    ensures replayed { IfOk result (λ t. Replays (moved_by
        (took_of parents.now group lists.old.items) entry.now) queue.old.items queue.new.items
        entry.now t) }
    ensures taken { OnOk result (took_of parents.now group lists.new.items
        ≡ took_after (took_of parents.now group lists.old.items) entry.now) }
    ensures others { OnOk result (KeepsOthers parents.now group lists.old.items lists.new.items) }
{
    let Some(child) = child_of(entry) else {
        let told = replay_alone(alloc, queue, entry)?;
        return Ok(told);
    };
    if !has_list(parents, group, child, lists.len()) {
        let told = replay_alone(alloc, queue, entry)?;
        return Ok(told);
    }
    let told = replay_entry(alloc, queue, &mut lists[child as usize], entry)?;
    Ok(told)
}
