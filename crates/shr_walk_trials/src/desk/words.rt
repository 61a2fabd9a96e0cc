// SPDX-License-Identifier: GPL-2.0-only
//! Single steps on the words: counts, bits, phases and deferred work.

use crate::desk::holding::is_place;
use shr_base::places::Place;
use shr_core::counts::Seen;
use shr_walk::worker::Worker;
use std::sync::Wait;

/// The count of a place.
pub fn count<R: Wait>(worker: &mut Worker<'_, R>, place: Place) -> Option<Seen> {
    if !is_place(worker.shared, place) {
        return None;
    }
    Some(worker.seats.cache.core.count(place))
}

/// Whether the bit of a place below the root is set, for an id below 64.
pub fn is_set<R: Wait>(worker: &mut Worker<'_, R>, place: Place) -> Option<bool> {
    if !is_place(worker.shared, place) || place.group == 0 || place.id >= 64 {
        return None;
    }
    let bits = worker.seats.cache.core.map(place.node, place.group, 0);
    Some((bits >> place.id) % 2 == 1)
}

/// The phase of an id: modulo 3 it is 0 where the id is idle, 1 where it is live, and 2 where it is dying.
pub fn phase<R: Wait>(worker: &mut Worker<'_, R>, id: u16) -> Option<u16> {
    if id >= worker.shared.core.shape().ids {
        return None;
    }
    Some(worker.seats.cache.core.word_of(id).phase)
}

/// Defers so many objects more at a place, and tells whether there is such a place.
pub fn defer<R: Wait>(worker: &mut Worker<'_, R>, place: Place, more: u64) -> bool {
    if !is_place(worker.shared, place) {
        return false;
    }
    worker.seats.deferred.give(place, more);
    true
}
