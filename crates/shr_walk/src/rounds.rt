// SPDX-License-Identifier: GPL-2.0-only
//! The walks of a round.

ghost use Rattle.std.specs.Prelude.{◌<◌, ◌≤◌, All, OnOk, OnErr};
ghost use Rattle.shr_seats.specs.Shapes.{groups_in};
ghost use Rattle.shr_core.specs.Seats.{shape_of};
ghost use Rattle.shr_walk.specs.Acting.{IsSame};
ghost use Rattle.shr_walk.specs.Looping.{AllMade, FirstMade, jobs_on};
ghost use Rattle.shr_walk.specs.Rounds.{due_in};

use crate::balance::{is_short, walk_one};
use crate::worker::Worker;
use shr_base::memory::Memory;
use std::sync::Wait;

// Walks these groups on a node, in order.
fn walk_node<R: Wait>(
    worker: &mut Worker<'_, R>,
    groups: &[u16],
    node: u8,
    priority: u8,
) -> Result<(), Memory>
    requires node { node < (shape_of worker.old.shared.core).nodes }
    requires groups { All (λ g. g < groups_in (shape_of worker.old.shared.core)) groups.now }
    requires priority { priority ≤ 12 }
    ensures all { let jobs = jobs_on node priority groups.now in
        OnOk result (AllMade worker.old.shared worker.old.by jobs worker.old.state
        worker.new.state) }
    ensures first { let jobs = jobs_on node priority groups.now in
        OnErr result (FirstMade worker.old.shared worker.old.by jobs worker.old.state
        worker.new.state) }
    ensures same { IsSame worker.old worker.new }
{
    for group in groups {
        let answer = walk_one(worker, *group, node, priority, false);
        if is_short(&answer) {
            return Err(Memory);
        }
    }
    Ok(())
}

/// The walks of a round over a group: its subtree on each node. `Memory` comes for want of memory,
/// after the walks that were made.
///
/// Linux: `shrink_node_memcgs` in mm/vmscan.c for each node.
pub(crate) fn walk_round<R: Wait>(
    worker: &mut Worker<'_, R>,
    group: u16,
    priority: u8,
) -> Result<(), Memory>
    requires group { group < groups_in (shape_of worker.old.shared.core) }
    requires priority { priority ≤ 12 }
    ensures all { let due = due_in worker.old.shared priority group in
        OnOk result (AllMade worker.old.shared worker.old.by due worker.old.state
        worker.new.state) }
    ensures first { let due = due_in worker.old.shared priority group in
        OnErr result (FirstMade worker.old.shared worker.old.by due worker.old.state
        worker.new.state) }
    ensures same { IsSame worker.old worker.new }
{
    let order = worker.preorder(group)?;
    let groups = order.as_slice();
    for node in 0..worker.nodes() {
        walk_node(worker, groups, node, priority)?;
    }
    Ok(())
}
