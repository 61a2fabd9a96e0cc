// SPDX-License-Identifier: GPL-2.0-only
//! Charges that are made for no object.

use crate::desk::lists::BY;
use shr_base::log::Log;
use shr_walk::worker::Worker;
use std::sync::Wait;

// Charges group 1 once, and tells whether the worker may still charge it.
fn charge_once<R: Wait>(worker: &mut Worker<'_, R>) -> bool {
    let shared = worker.shared;
    let mut uses = Log::new(shared.core.alloc);
    if shared.core.shape().parents.len() < 2 || worker.spent().is_some() {
        return false;
    }
    if uses.reserve(2 * shared.tree.depth(1) as usize).is_err() {
        return false;
    }
    let _answer = worker.seats.cache.charge.charge(&mut uses, BY, 1);
    true
}

/// Charges group 1 until the worker's charges are used up.
pub fn wear<R: Wait>(worker: &mut Worker<'_, R>) {
    for _turn in 0..1_048_577 {
        if !charge_once(worker) {
            return;
        }
    }
}
