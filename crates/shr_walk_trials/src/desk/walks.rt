// SPDX-License-Identifier: GPL-2.0-only
//! Walks, and going offline.

use shr_base::walks::WalkAnswer;
use shr_offline::answers::OfflineAnswer;
use shr_offline::offlining;
use shr_walk::balance::walk_one;
use shr_walk::worker::Worker;
use std::sync::Wait;

/// Walks a group on node 0, the root by its own walk.
pub fn walk<R: Wait>(
    worker: &mut Worker<'_, R>,
    group: u16,
    priority: u8,
    nofs: bool,
) -> Option<WalkAnswer> {
    let shape = worker.shared.core.shape();
    if shape.nodes == 0 || group as usize >= shape.parents.len() || priority > 12 {
        return None;
    }
    Some(walk_one(worker, group, 0, priority, nofs))
}

/// Takes a group offline.
pub fn offline<R: Wait>(worker: &mut Worker<'_, R>, group: u16) -> Option<OfflineAnswer> {
    if group as usize >= worker.shared.core.shape().parents.len() {
        return None;
    }
    Some(offlining::offline(worker, group))
}
