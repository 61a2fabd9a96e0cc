// SPDX-License-Identifier: GPL-2.0-only
//! Isolation.

ghost use Rattle.std.specs.Prelude.{◌≤◌, length};
ghost use Rattle.shr_core.specs.Seats.{shape_of};
ghost use Rattle.shr_walk.specs.Acting.{IsSame};
ghost use Rattle.shr_cache.specs.Opening.{IsTargetOf};
ghost use Rattle.shr_drop.specs.Isolating.{IsolateGives};
ghost use Rattle.shr_drop.specs.Lawful.{IsolatesLawfully};

use crate::visits::visit_all;
use shr_base::log::Log;
use shr_base::places::{Place, Target};
use shr_base::replies::{Answered, Reply};
use shr_base::walks::Isolation;
use shr_cache::opening::{Opened, open};
use shr_cache::replies::unfound;
use shr_walk::lister::Lister;
use shr_walk::worker::Worker;
use std::sync::Wait;

// The first of the numbers that isolations have among the walks of a worker's scans.
const FIRST: u64 = 1 << 63;

/// Takes objects off the list of a cache on a node, the group's own, by up to `budget` visits (0 to 20,000). Each visit
/// meets the object at the head and does with it what the cache's policy says; then the list's room is given back. Each
/// object that was freed is uncharged from the group that it was born in up.
///
/// Memory comes first, if there is no room for the record, with nothing done. Then come Offline and NotMade, then
/// NoCache and Worn by lookups. After that the answer is Isolated, with what was visited and freed and why no further visit
/// was made, and the record stands at the end of the log. In the lists' entries the k-th record of the log, from 0, has the
/// walk number 2^63 + k. The reference to the cache is given back. It waits for the pool's room and for rooms of the cache.
///
/// Linux: `list_lru_walk_one` in mm/list_lru.c, if the callback dropped the lock. That it begins at the head again after
/// an object that was skipped or rotated is our own.
pub fn isolate<R: Wait>(
    worker: &mut Worker<'_, R>,
    log: &mut Log<Isolation>,
    target: Target,
    budget: u32,
) -> Answered
    requires target { IsTargetOf (shape_of worker.old.shared.core) target }
    requires budget { budget ≤ 20000 }
    ensures isolated { IsolateGives worker.old.shared worker.old.by target.group target.node
        target.decl budget result worker.old.state worker.new.state log.old.items log.new.items }
    ensures lawful { IsolatesLawfully worker.old.shared worker.old.by target.group target.node
        target.decl budget (length log.old.items) result worker.old.state worker.new.state }
    ensures same { IsSame worker.old worker.new }
{
    let number = log.len() as u64;
    if number >= FIRST || log.reserve(1).is_err() {
        return unfound(Reply::Memory);
    }
    let Target { group, node, decl } = target;
    let (rt, shared, by) = (worker.rt, worker.shared, worker.by);
    let found = match open(rt, shared, &mut worker.seats, group, decl) {
        Opened::Held { found } => found,
        Opened::Refused { reply } => return unfound(reply),
    };
    let id = found.id;
    let place = Place { id, node, group };
    let declared = &shared.script.caches.as_slice()[decl as usize];
    let lister = Lister::new(rt, shared, place, declared, false, by, FIRST + number);
    let made = visit_all(&lister, &mut worker.seats, budget);
    worker.seats.cache.core.put();
    log.push(Isolation {
        by,
        place,
        budget,
        visits: made.visits,
        freed: made.freed,
        ending: made.ending,
    });
    Answered {
        reply: Reply::Isolated {
            visits: made.visits,
            freed: made.freed,
            ending: made.ending,
        },
        found: Some(found),
    }
}
