// SPDX-License-Identifier: GPL-2.0-only
//! Looking an object up.

ghost use Rattle.std.specs.Prelude.{◌≡◌};
ghost use Rattle.shr_core.specs.Seats.{shape_of};
ghost use Rattle.shr_walk.specs.Acting.{IsSame};
ghost use Rattle.shr_cache.specs.Opening.{IsTargetOf};
ghost use Rattle.shr_cache.specs.Gets.{GetGives};
ghost use Rattle.shr_cache.specs.Replies.{answer_reply, look_says};

use crate::opening::{Opened, open};
use crate::replies::unfound;
use shr_base::places::Target;
use shr_base::replies::{Answered, Reply};
use shr_base::text::Text;
use shr_node::answers::NodeAnswer;
use shr_node::tenants::{TenantCall, look};
use shr_walk::worker::Worker;
use std::sync::Wait;

// What a list's answer to a lookup is as a reply.
fn reply_of(answer: NodeAnswer<Option<Text>>) -> Reply
    ensures { result ≡ answer_reply look_says answer }
{
    match answer {
        NodeAnswer::Told {
            at,
            told: Some(value),
        } => Reply::Hit { at, value },
        NodeAnswer::Told { at, told: None } => Reply::Miss { at },
        NodeAnswer::Worn { spent } => Reply::Worn { spent },
        NodeAnswer::Memory => Reply::Memory,
    }
}

/// Looks an object up by its key, marks it and gives its value. It was born in the command's group, and lies in the list of
/// the first group from there up whose list isn't closed.
///
/// Offline and NotMade come first, then NoCache and Worn by lookups, and then what the list answers: Hit, Miss, Worn by
/// the list or Memory. After Worn and Memory the lists are as this worker found them. The reference to the cache is
/// given back. It waits for the pool's room and for rooms of the cache.
///
/// Our own: Linux's lists have no keys. `mem_cgroup_online` (include/linux/memcontrol.h) and `shrinker_try_get`
/// (include/linux/shrinker.h) are the tests before it.
pub fn get<R: Wait>(worker: &mut Worker<'_, R>, target: Target, key: &Text) -> Answered
    requires target { IsTargetOf (shape_of worker.old.shared.core) target }
    ensures got { GetGives worker.old.shared worker.old.by target.group target.node target.decl
        key.now result worker.old.state worker.new.state }
    ensures same { IsSame worker.old worker.new }
{
    let Target { group, node, decl } = target;
    let found = match open(worker.rt, worker.shared, &mut worker.seats, group, decl) {
        Opened::Held { found } => found,
        Opened::Refused { reply } => return unfound(reply),
    };
    let seat = &mut worker.seats.cache.core;
    let call = TenantCall {
        id: found.id,
        node,
        by: worker.by,
        birth: group,
    };
    let answer = look(worker.rt, seat, call, key);
    seat.put();
    Answered {
        reply: reply_of(answer),
        found: Some(found),
    }
}
