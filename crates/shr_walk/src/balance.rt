// SPDX-License-Identifier: GPL-2.0-only
//! Walks over all groups on a node.

ghost use Rattle.std.specs.Prelude.{◌≡◌, ◌<◌, ◌≤◌, ◌^◌, length};
ghost use Rattle.shr_seats.specs.Shapes.{groups_in};
ghost use Rattle.shr_core.specs.Seats.{shape_of};
ghost use Rattle.shr_walk.specs.Acting.{IsSame, walk_of};
ghost use Rattle.shr_walk.specs.Balances.{BalanceGives, OneGives, walk_freed, lacked_memory};

use crate::groups::{walk_group, walk_root};
use crate::worker::Worker;
use shr_base::walks::WalkAnswer;
use std::sync::Wait;

/// What a walk says that it freed.
pub fn told(answer: &WalkAnswer) -> u64
    ensures { result ≡ walk_freed answer.now }
{
    match answer {
        WalkAnswer::Walked { freed } => *freed,
        WalkAnswer::Offline { entry: _ } => 0,
        WalkAnswer::Memory { freed } => *freed,
    }
}

/// Whether a walk ended for want of memory.
pub fn is_short(answer: &WalkAnswer) -> bool
    ensures { result ≡ lacked_memory answer.now }
{
    matches!(answer, WalkAnswer::Memory { freed: _ })
}

/// Walks one group on a node, the root by its own walk.
///
/// Linux: `shrink_slab` in mm/shrinker.c, which takes `shrink_slab_memcg` for every other group.
pub fn walk_one<R: Wait>(
    worker: &mut Worker<'_, R>,
    group: u16,
    node: u8,
    priority: u8,
    nofs: bool,
) -> WalkAnswer
    requires place { (node < (shape_of worker.old.shared.core).nodes)
        × (group < groups_in (shape_of worker.old.shared.core)) }
    requires priority { priority ≤ 12 }
    ensures few { walk_freed result ≤ 2 ^ 53 }
    ensures walked { OneGives worker.old.shared (walk_of worker.old group node priority nofs) result
        worker.old.state worker.new.state }
    ensures same { IsSame worker.old worker.new }
{
    if group == 0 {
        return walk_root(worker, node, priority, nofs);
    }
    walk_group(worker, group, node, priority, nofs)
}

/// Walks each group on a node, the root first and the others behind their parents, and answers what
/// the walks freed together.
///
/// The priority is at most 12. A group that is offline counts as walked, with nothing freed. The
/// first walk that ends for want of memory ends the balance: Memory says what was freed up to
/// there, and what those walks did stands. Memory comes with nothing done if there is no room
/// for the order of the groups.
///
/// Linux: the calls of `shrink_slab` in `shrink_node_memcgs`, mm/vmscan.c.
pub fn balance<R: Wait>(
    worker: &mut Worker<'_, R>,
    node: u8,
    priority: u8,
    nofs: bool,
) -> WalkAnswer
    requires node { node < (shape_of worker.old.shared.core).nodes }
    requires priority { priority ≤ 12 }
    ensures balanced { BalanceGives worker.old.shared (walk_of worker.old 0 node priority nofs)
        result worker.old.state worker.new.state }
    ensures same { IsSame worker.old worker.new }
{
    let order = match worker.preorder(0) {
        Ok(order) => order,
        Err(_) => return WalkAnswer::Memory { freed: 0 },
    };
    let mut freed = 0;
    let groups = order.as_slice();
    for group in groups {
        let answer = walk_one(worker, *group, node, priority, nofs);
        freed += told(&answer);
        if is_short(&answer) {
            return WalkAnswer::Memory { freed };
        }
    }
    WalkAnswer::Walked { freed }
}
