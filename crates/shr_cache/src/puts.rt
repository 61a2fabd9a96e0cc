// SPDX-License-Identifier: GPL-2.0-only
//! Adding an object.

ghost use Rattle.std.specs.Prelude.{◌≡◌};
ghost use Rattle.shr_model.specs.Objects.{fresh};
ghost use Rattle.shr_core.specs.Seats.{shape_of};
ghost use Rattle.shr_walk.specs.Acting.{IsSame};
ghost use Rattle.shr_cache.specs.Opening.{IsTargetOf};
ghost use Rattle.shr_cache.specs.Charges.{KeepsCharge};
ghost use Rattle.shr_cache.specs.Puts.{OfferedAs, PutGives};
ghost use Rattle.shr_cache.specs.Replies.{answer_reply, add_says, has_added};

use crate::charges::uncharge;
use crate::opening::{Opened, find_cache};
use crate::replies::unfound;
use shr_base::objects::Object;
use shr_base::places::{Serial, Target};
use shr_base::replies::{Answered, Reply};
use shr_base::text::Text;
use shr_charge::answers::GroupState;
use shr_node::answers::NodeAnswer;
use shr_node::tenants::add;
use shr_walk::admission::Admission;
use shr_walk::charging::try_charge;
use shr_walk::worker::Worker;
use std::sync::Wait;

// What a list's answer to an object is as a reply.
fn reply_of(answer: NodeAnswer<bool>) -> Reply
    ensures { result ≡ answer_reply add_says answer }
{
    match answer {
        NodeAnswer::Told { at, told: true } => Reply::Added { at },
        NodeAnswer::Told { at, told: false } => Reply::Exists { at },
        NodeAnswer::Worn { spent } => Reply::Worn { spent },
        NodeAnswer::Memory => Reply::Memory,
    }
}

// An object as a put makes it.
fn new_object(by: Serial, group: u16, key: Text, value: Text) -> Object
    ensures { result ≡ fresh by group key value }
{
    Object {
        serial: by,
        birth: group,
        key,
        value,
        marked: false,
        pinned: false,
    }
}

// Finds the cache and offers an object of the command to its list.
fn offer<R: Wait>(worker: &mut Worker<'_, R>, target: Target, key: Text, value: Text) -> Answered
    requires target { IsTargetOf (shape_of worker.old.shared.core) target }
    ensures offered { OfferedAs worker.old.shared target.node target.decl
        (fresh worker.old.by target.group key value) result.found result.reply worker.old.state
        worker.new.state }
    ensures kept { KeepsCharge worker.old worker.new }
{
    let found = match find_cache(worker.rt, worker.shared, &mut worker.seats, target.decl) {
        Opened::Held { found } => found,
        Opened::Refused { reply } => return unfound(reply),
    };
    let seat = &mut worker.seats.cache.core;
    let object = new_object(worker.by, target.group, key, value);
    let answer = add(worker.rt, seat, found.id, target.node, object);
    seat.put();
    Answered {
        reply: reply_of(answer),
        found: Some(found),
    }
}

// Whether a reply says that the object was added.
fn is_added(reply: &Reply) -> bool
    ensures { result ≡ has_added reply.now }
{
    matches!(reply, Reply::Added { at: _ })
}

/// Adds an object with this key and value, born in the command's group, to the cache's list of the first group from there
/// up whose list isn't closed.
///
/// Worn by charges comes first, with nothing done. Then come Offline and NotMade, and then the charge of the group and of
/// each one above it, with rounds of reclaim if a limit refuses it: Over has the last refusal's values, and Memory may come in a
/// round. Then come NoCache and Worn by lookups, and then what the list answers: Added, Exists, Worn by the list or Memory.
/// If the answer isn't Added the charge is taken back and no object was added; what the rounds freed stays freed, and
/// their walks are recorded. The reference to the cache is given back. It waits for the pool's room and for rooms.
///
/// Linux: `try_charge_memcg` in mm/memcontrol.c, and then `list_lru_add` in mm/list_lru.c.
pub fn put<R: Wait>(worker: &mut Worker<'_, R>, target: Target, key: Text, value: Text) -> Answered
    requires target { IsTargetOf (shape_of worker.old.shared.core) target }
    ensures put { PutGives worker.old.shared worker.old.by target.group target.node target.decl
        key value result worker.old.state worker.new.state }
    ensures same { IsSame worker.old worker.new }
{
    if let Some(spent) = worker.spent() {
        return unfound(Reply::Worn { spent });
    }
    let group = target.group;
    match worker.group_state(group) {
        GroupState::Online => {}
        GroupState::Offline { entry } => return unfound(Reply::Offline { entry }),
        GroupState::NotMade => return unfound(Reply::NotMade { group }),
    }
    match try_charge(worker, group) {
        Admission::Charged => {}
        Admission::Over {
            group,
            operation,
            usage,
        } => return unfound(Reply::Over {
            group,
            operation,
            usage,
        }),
        Admission::Memory => return unfound(Reply::Memory),
    }
    let answered = offer(worker, target, key, value);
    if is_added(&answered.reply) {
        return answered;
    }
    uncharge(worker, group);
    answered
}
