// SPDX-License-Identifier: GPL-2.0-only
//! Pinning an object.

ghost use Rattle.std.specs.Prelude.{◌≡◌};
ghost use Rattle.shr_core.specs.Seats.{shape_of};
ghost use Rattle.shr_walk.specs.Acting.{IsSame};
ghost use Rattle.shr_cache.specs.Opening.{IsTargetOf};
ghost use Rattle.shr_cache.specs.Pins.{SetPinGives};
ghost use Rattle.shr_cache.specs.Replies.{answer_reply, pin_says};

use crate::opening::{Opened, open};
use crate::replies::unfound;
use shr_base::places::Target;
use shr_base::replies::{Answered, Reply};
use shr_base::text::Text;
use shr_node::answers::NodeAnswer;
use shr_node::tenants::{TenantCall, set_pin as pin_in_list};
use shr_walk::worker::Worker;
use std::sync::Wait;

// What a list's answer to a pin is as a reply.
fn reply_of(answer: NodeAnswer<bool>) -> Reply
    ensures { result ≡ answer_reply pin_says answer }
{
    match answer {
        NodeAnswer::Told { at, told: true } => Reply::Done { at },
        NodeAnswer::Told { at, told: false } => Reply::Miss { at },
        NodeAnswer::Worn { spent } => Reply::Worn { spent },
        NodeAnswer::Memory => Reply::Memory,
    }
}

/// Pins an object by its key, or takes its pin away. An object that has the pin that was asked for is Done too.
///
/// Offline and NotMade come first, then NoCache and Worn by lookups, and then what the list answers: Done, Miss, Worn
/// by the list or Memory. After Worn and Memory the lists are as this worker found them. The reference to the cache is
/// given back. It waits for the pool's room and for rooms of the cache.
///
/// Our own: a pin stands for a raised reference count.
pub fn set_pin<R: Wait>(
    worker: &mut Worker<'_, R>,
    target: Target,
    key: &Text,
    pinned: bool,
) -> Answered
    requires target { IsTargetOf (shape_of worker.old.shared.core) target }
    ensures pinned { SetPinGives worker.old.shared worker.old.by target.group target.node
        target.decl key.now pinned result worker.old.state worker.new.state }
    ensures same { IsSame worker.old worker.new }
{
    let Target { group, node, decl } = target;
    let found = match open(worker.rt, worker.shared, &mut worker.seats, group, decl) {
        Opened::Held { found } => found,
        Opened::Refused { reply } => return unfound(reply),
    };
    let seat = &mut worker.seats.cache.core;
    let call = TenantCall {
        id: found.id,
        node,
        by: worker.by,
        birth: group,
    };
    let answer = pin_in_list(worker.rt, seat, call, key, pinned);
    seat.put();
    Answered {
        reply: reply_of(answer),
        found: Some(found),
    }
}
