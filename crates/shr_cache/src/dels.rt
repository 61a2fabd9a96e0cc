// SPDX-License-Identifier: GPL-2.0-only
//! Taking an object out.

ghost use Rattle.std.specs.Prelude.{◌≡◌};
ghost use Rattle.shr_core.specs.Seats.{shape_of};
ghost use Rattle.shr_walk.specs.Acting.{IsSame};
ghost use Rattle.shr_cache.specs.Opening.{IsTargetOf};
ghost use Rattle.shr_cache.specs.Charges.{KeepsCharge};
ghost use Rattle.shr_cache.specs.Dels.{AsksToDrop, DelGives};
ghost use Rattle.shr_cache.specs.Replies.{answer_reply, drop_says, has_dropped};

use crate::charges::uncharge;
use crate::opening::{Opened, open};
use crate::replies::unfound;
use shr_base::journals::DropKind;
use shr_base::places::Target;
use shr_base::replies::{Answered, Reply};
use shr_base::text::Text;
use shr_node::answers::NodeAnswer;
use shr_node::tenants::{TenantCall, drop_key};
use shr_walk::worker::Worker;
use std::sync::Wait;

// What a list's answer to a drop is as a reply.
fn reply_of(answer: NodeAnswer<DropKind>) -> Reply
    ensures { result ≡ answer_reply drop_says answer }
{
    match answer {
        NodeAnswer::Told { at, told } => match told {
            DropKind::Dropped => Reply::Dropped { at },
            DropKind::Pinned => Reply::Pinned { at },
            DropKind::Miss => Reply::Miss { at },
        },
        NodeAnswer::Worn { spent } => Reply::Worn { spent },
        NodeAnswer::Memory => Reply::Memory,
    }
}

// Whether a reply says that the object was dropped.
fn is_dropped(reply: &Reply) -> bool
    ensures { result ≡ has_dropped reply.now }
{
    matches!(reply, Reply::Dropped { at: _ })
}

// Finds the cache and asks its list for the object, to be dropped.
fn take_out<R: Wait>(worker: &mut Worker<'_, R>, target: Target, key: &Text) -> Answered
    requires target { IsTargetOf (shape_of worker.old.shared.core) target }
    ensures asked { AsksToDrop worker.old.shared worker.old.by target.group target.node target.decl
        key.now result.found result.reply worker.old.state worker.new.state }
    ensures kept { KeepsCharge worker.old worker.new }
{
    let Target { group, node, decl } = target;
    let found = match open(worker.rt, worker.shared, &mut worker.seats, group, decl) {
        Opened::Held { found } => found,
        Opened::Refused { reply } => return unfound(reply),
    };
    let seat = &mut worker.seats.cache.core;
    let call = TenantCall {
        id: found.id,
        node,
        by: worker.by,
        birth: group,
    };
    let answer = drop_key(worker.rt, seat, call, key);
    seat.put();
    Answered {
        reply: reply_of(answer),
        found: Some(found),
    }
}

/// Takes an object out by its key, if it is there and not pinned, and uncharges the group that it was born in, which is
/// the command's, and each group above it.
///
/// Worn by charges comes first, and then Memory if there is no room to note the uncharge; both with nothing done.
/// Then come Offline, NotMade, NoCache and Worn by lookups, and then what the list answers: Dropped, Pinned, Miss, Worn by
/// the list or Memory. After these two the lists are as this worker found them, and nothing is uncharged. The reference to
/// the cache is given back. It waits for the pool's room and for rooms of the cache.
///
/// Linux: `list_lru_del` in mm/list_lru.c, with `page_counter_uncharge` in mm/page_counter.c when the object is freed.
pub fn del<R: Wait>(worker: &mut Worker<'_, R>, target: Target, key: &Text) -> Answered
    requires target { IsTargetOf (shape_of worker.old.shared.core) target }
    ensures deleted { DelGives worker.old.shared worker.old.by target.group target.node target.decl
        key.now result worker.old.state worker.new.state }
    ensures same { IsSame worker.old worker.new }
{
    if let Some(spent) = worker.spent() {
        return unfound(Reply::Worn { spent });
    }
    let depth = worker.shared.tree.depth(target.group) as usize;
    if worker.reserve_uses(depth).is_err() {
        return unfound(Reply::Memory);
    }
    let answered = take_out(worker, target, key);
    if !is_dropped(&answered.reply) {
        return answered;
    }
    uncharge(worker, target.group);
    answered
}
