// SPDX-License-Identifier: GPL-2.0-only
//! The journals of all lists of a report, replayed.

ghost use Rattle.std.specs.Prelude.{◌≡◌, ◌+◌, ◌-◌, ◌<◌, ◌≤◌, [], length, slice_get, Some, IfOk, OnOk};
ghost use Rattle.shr_model.specs.Families.{lists_moved};
ghost use Rattle.shr_model.specs.Trees.{IsTree};
ghost use Rattle.shr_audit_case.specs.Groups.{AreReplayed};
ghost use Rattle.shr_audit_case.specs.Journals.{IsReplayed};
ghost use Rattle.shr_audit_case.specs.Replayed.{took_of};
ghost use Rattle.shr_audit_case.specs.Lists.{AreReplays, IsReplayOfList, items_printed_in, journals_in};
ghost use Rattle.shr_audit_case.specs.Places.{AreInOrder, end_printed};
ghost use Rattle.shr_audit_case.specs.Replaying.{AreFirsts, AreReplaysBefore, IsNewAt, AreReplaysAt, IsTakenOut, on_node};

use crate::groups::replay_groups;
use crate::journal::{Replayed, replay_journal};
use crate::places::index_of;
use shr_base::ends::PlaceEnd;
use shr_base::memory::Memory;
use shr_base::places::Place;
use shr_list::queue::Queue;
use std::alloc::Global;
use std::mem::replace;

// The index of the list of a place, or one past the last list.
fn first_at(ends: &[PlaceEnd], place: Place) -> usize
    requires { AreInOrder ends.now }
    ensures { slice_get ends.now result ≡ end_printed ends.now place }
{
    match index_of(ends, place) {
        Some(k) => k,
        None => ends.len(),
    }
}

// That of each group's list at the id and node of a place.
fn firsts_at(
    alloc: Global,
    ends: &[PlaceEnd],
    place: Place,
    count: usize,
) -> Result<Vec<usize>, Memory>
    requires order { AreInOrder ends.now }
    requires few { count ≤ 65536 }
    ensures { IfOk result (λ firsts. AreFirsts ends.now place count firsts.items) }
{
    let mut firsts = Vec::new(alloc);
    for group in 0..count {
        let at = Place {
            id: place.id,
            node: place.node,
            group: group as u16,
        };
        firsts.push(first_at(ends, at))?;
    }
    Ok(firsts)
}

// The replays of all groups at the id and node of a place, the last group first.
fn replay_node(
    alloc: Global,
    parents: &[u16],
    ends: &[PlaceEnd],
    place: Place,
) -> Result<Vec<Replayed>, Memory>
    requires tree { IsTree parents.now }
    requires few { length parents.now ≤ 65536 }
    requires order { AreInOrder ends.now }
    ensures { IfOk result (λ told. AreReplayed parents.now
        (journals_in ends.now) (items_printed_in ends.now) place told.items) }
{
    let firsts = firsts_at(alloc, ends, place, parents.len())?;
    let told = replay_groups(alloc, parents, ends, firsts.as_slice())?;
    Ok(told)
}

fn nothing(alloc: Global) -> Replayed {
    Replayed {
        lens: Vec::new(alloc),
        freed: Vec::new(alloc),
        values: Vec::new(alloc),
        left: Vec::new(alloc),
        listed: true,
        right: true,
    }
}

// Takes the replay of a list out of those of its id and node. A group that isn't one of the tree has
// no children, and is replayed alone.
fn take_replay(
    alloc: Global,
    parents: &[u16],
    end: &PlaceEnd,
    node: &mut Vec<Replayed>,
) -> Result<Replayed, Memory>
    requires { length node.old.items ≡ length parents.now }
    ensures taken { IfOk result (λ r. end.now.place.group < length parents.now
        → slice_get node.old.items (length parents.now - 1 - end.now.place.group) ≡ Some r) }
    ensures alone { IfOk result (λ r. length parents.now ≤ end.now.place.group
        → IsReplayed (lists_moved (took_of parents.now end.now.place.group [])
        end.now.entries.items) end.now.entries.items end.now.items.items r) }
    ensures others { OnOk result (IsTakenOut
        (length parents.now) end.now.place.group node.old.items node.new.items) }
{
    let group = end.place.group as usize;
    if group < parents.len() {
        let i = parents.len() - 1 - group;
        return Ok(replace(&mut node[i], nothing(alloc)));
    }
    let mut none: Vec<Queue> = Vec::new(alloc);
    let (told, _given) = replay_journal(
        alloc,
        parents,
        end.place.group,
        end.entries.as_slice(),
        &end.items,
        &mut none,
    )?;
    Ok(told)
}

// Whether two places are of one id and node.
fn on_node(p: Place, q: Place) -> bool
    ensures { result ≡ on_node p q }
{
    p.id == q.id && p.node == q.node
}

// Whether the id and node of a list are new: no list before is of them.
fn is_new(ends: &[PlaceEnd], k: usize) -> bool
    requires { k < length ends.now }
    ensures { IsNewAt ends.now k result }
{
    k == 0 || !on_node(ends[k - 1].place, ends[k].place)
}

// Where a list is of a new id and node, makes the replays of all its groups.
fn renew(
    alloc: Global,
    parents: &[u16],
    ends: &[PlaceEnd],
    k: usize,
    node: &mut Vec<Replayed>,
) -> Result<(), Memory>
    requires tree { IsTree parents.now }
    requires few { length parents.now ≤ 65536 }
    requires order { AreInOrder ends.now }
    requires there { k < length ends.now }
    requires left { AreReplaysBefore parents.now ends.now k node.old.items }
    ensures { OnOk result (AreReplaysAt parents.now ends.now k node.new.items) }
{
    if !is_new(ends, k) {
        return Ok(());
    }
    *node = replay_node(alloc, parents, ends, ends[k].place)?;
    Ok(())
}

// Replays the next list. `node` has the replays of its id and node that weren't taken yet.
fn replay_next(
    alloc: Global,
    parents: &[u16],
    ends: &[PlaceEnd],
    k: usize,
    node: &mut Vec<Replayed>,
) -> Result<Replayed, Memory>
    requires tree { IsTree parents.now }
    requires few { length parents.now ≤ 65536 }
    requires order { AreInOrder ends.now }
    requires there { k < length ends.now }
    requires left { AreReplaysBefore parents.now ends.now k node.old.items }
    ensures replayed { IfOk result (λ r. IsReplayOfList parents.now ends.now k r) }
    ensures left { OnOk result (AreReplaysBefore parents.now ends.now (k + 1) node.new.items) }
{
    renew(alloc, parents, ends, k, node)?;
    let replayed = take_replay(alloc, parents, &ends[k], node)?;
    Ok(replayed)
}

/// Replays the journal of each list, in the order of the lists.
pub fn replay_lists(
    alloc: Global,
    parents: &[u16],
    ends: &[PlaceEnd],
) -> Result<Vec<Replayed>, Memory>
    requires tree { IsTree parents.now }
    requires few { length parents.now ≤ 65536 }
    requires order { AreInOrder ends.now }
    ensures { IfOk result (λ told. AreReplays parents.now ends.now told.items) }
{
    let mut told = Vec::new(alloc);
    let mut node = Vec::new(alloc);
    for k in 0..ends.len() {
        let replayed = replay_next(alloc, parents, ends, k, &mut node)?;
        told.push(replayed)?;
    }
    Ok(told)
}
