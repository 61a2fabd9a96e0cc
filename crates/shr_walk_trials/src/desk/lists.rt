// SPDX-License-Identifier: GPL-2.0-only
//! What a tenant does with one object. Nothing is charged for an object.

use crate::desk::holding::{hold, rest};
use shr_base::journals::DropKind;
use shr_base::objects::Object;
use shr_base::places::{Place, Serial};
use shr_base::text::Text;
use shr_node::answers::NodeAnswer;
use shr_node::tenants::{self, TenantCall};
use shr_walk::worker::Worker;
use std::sync::Wait;

/// The command that makes each call.
pub const BY: Serial = Serial {
    worker: 0,
    command: 0,
};

/// Adds an object of this key, whose birth group is that of the place.
pub fn add<R: Wait>(
    worker: &mut Worker<'_, R>,
    place: Place,
    key: &[u8],
) -> Option<NodeAnswer<bool>> {
    let shared = worker.shared;
    let object = Object {
        serial: BY,
        birth: place.group,
        key: Text::of(shared.core.alloc, key).ok()?,
        value: Text::of(shared.core.alloc, b"v").ok()?,
        marked: false,
        pinned: false,
    };
    hold(shared, &mut worker.seats, place)?;
    let seat = &mut worker.seats.cache.core;
    let answer = tenants::add(worker.rt, seat, place.id, place.node, object);
    rest(shared, &mut worker.seats, place);
    Some(answer)
}

/// Adds so many objects whose keys are the two bytes of their numbers, and tells how many were added.
pub fn fill<R: Wait>(worker: &mut Worker<'_, R>, place: Place, objects: u16) -> u32 {
    let mut added: u32 = 0;
    for number in 0..objects {
        let key = number.to_le_bytes();
        let answer = add(worker, place, &key);
        added = added.wrapping_add(u32::from(is_added(&answer)));
    }
    added
}

/// Whether an object was added.
pub fn is_added(answer: &Option<NodeAnswer<bool>>) -> bool {
    matches!(answer, Some(NodeAnswer::Told { at: _, told: true }))
}

/// Takes an object out.
pub fn drop_key<R: Wait>(
    worker: &mut Worker<'_, R>,
    place: Place,
    key: &[u8],
) -> Option<NodeAnswer<DropKind>> {
    let shared = worker.shared;
    let key = Text::of(shared.core.alloc, key).ok()?;
    hold(shared, &mut worker.seats, place)?;
    let Place { id, node, group } = place;
    let seat = &mut worker.seats.cache.core;
    let call = TenantCall {
        id,
        node,
        by: BY,
        birth: group,
    };
    let answer = tenants::drop_key(worker.rt, seat, call, &key);
    rest(shared, &mut worker.seats, place);
    Some(answer)
}
