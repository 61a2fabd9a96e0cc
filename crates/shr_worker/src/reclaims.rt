// SPDX-License-Identifier: GPL-2.0-only
//! The commands that reclaim: a walk, a balance, and taking a group offline.

ghost use Rattle.std.specs.Prelude.{◌<◌, ◌≤◌};
ghost use Rattle.shr_core.specs.Seats.{shape_of};
ghost use Rattle.shr_seats.specs.Shapes.{groups_in};
ghost use Rattle.shr_walk.specs.Acting.{IsSame};
ghost use Rattle.shr_worker.specs.Commands.{Shrinks, Balances, Offlines};

use crate::replies::{offline_reply, walk_reply};
use shr_base::replies::Answered;
use shr_cache::replies::unfound;
use shr_offline::offlining;
use shr_walk::balance;
use shr_walk::balance::walk_one;
use shr_walk::worker::Worker;
use std::sync::Wait;

/// Walks one group on a node, the root by its own walk.
///
/// A group that is offline is answered Offline, and want of memory WalkMemory with what was freed
/// up to there. Linux: `shrink_slab` in mm/shrinker.c.
pub fn shrink<R: Wait>(
    worker: &mut Worker<'_, R>,
    group: u16,
    node: u8,
    priority: u8,
    nofs: bool,
) -> Answered
    requires place { (node < (shape_of worker.old.shared.core).nodes)
        × (group < groups_in (shape_of worker.old.shared.core)) }
    requires priority { priority ≤ 12 }
    ensures shrinks { Shrinks worker.old.shared worker.old.by group node priority nofs result
        worker.old.state worker.new.state }
    ensures same { IsSame worker.old worker.new }
{
    unfound(walk_reply(walk_one(worker, group, node, priority, nofs)))
}

/// Walks all groups on a node, the root first and then in preorder.
///
/// The first walk that ends for want of memory ends it, with WalkMemory. Linux:
/// `shrink_node_memcgs` in mm/vmscan.c.
pub fn balance<R: Wait>(worker: &mut Worker<'_, R>, node: u8, priority: u8, nofs: bool) -> Answered
    requires node { node < (shape_of worker.old.shared.core).nodes }
    requires priority { priority ≤ 12 }
    ensures balances { Balances worker.old.shared worker.old.by node priority nofs result
        worker.old.state worker.new.state }
    ensures same { IsSame worker.old worker.new }
{
    unfound(walk_reply(balance::balance(worker, node, priority, nofs)))
}

/// Takes a group offline, with its lists and its deferred work.
///
/// Linux: `mem_cgroup_css_offline` in mm/memcontrol.c.
pub fn offline<R: Wait>(worker: &mut Worker<'_, R>, group: u16) -> Answered
    requires group { group < groups_in (shape_of worker.old.shared.core) }
    ensures offlines { Offlines worker.old.shared worker.old.by group result worker.old.state
        worker.new.state }
    ensures same { IsSame worker.old worker.new }
{
    unfound(offline_reply(offlining::offline(worker, group)))
}
