// SPDX-License-Identifier: GPL-2.0-only
//! The commands that register a cache and end its registration.

ghost use Rattle.std.specs.Prelude.{◌≡◌, ◌⊎◌, ◌≤◌, None, length, IfOk, OnOk};
ghost use Rattle.shr_charge.specs.Seat.{spent_by};
ghost use Rattle.shr_core.specs.Rule.{AreBorn};
ghost use Rattle.shr_seats.specs.Shapes.{groups_in};
ghost use Rattle.shr_core.specs.Seats.{shape_of};
ghost use Rattle.shr_script.specs.Bounds.{IsCache};
ghost use Rattle.shr_script.specs.Content.{content_of};
ghost use Rattle.shr_walk.specs.Acting.{IsSame};
ghost use Rattle.shr_walk.specs.Keeping.{shared_parents};
ghost use Rattle.shr_worker.specs.Commands.{RegistersCache, Unregisters, UnregistersNone};
ghost use Rattle.shr_worker.specs.Uncharging.{UnchargesEach};

use crate::replies::register_reply;
use crate::uncharging::uncharge_each;
use shr_base::log::Log;
use shr_base::memory::Memory;
use shr_base::objects::Object;
use shr_base::replies::{Answered, Reply};
use shr_cache::replies::unfound;
use shr_registry::answers::UnregisterAnswer;
use shr_registry::{registering, unregistering};
use shr_walk::worker::Worker;
use std::sync::Wait;

/// Registers a declared cache with the lowest free id.
///
/// Linux: `shrinker_register` in mm/shrinker.c.
pub fn register<R: Wait>(worker: &mut Worker<'_, R>, decl: u8) -> Answered
    requires cache { IsCache (content_of worker.old.shared.script) decl }
    ensures registers { RegistersCache worker.old.shared decl result worker.old.state
        worker.new.state }
    ensures same { IsSame worker.old worker.new }
{
    let answer = registering::register(worker.rt, &mut worker.seats.cache.core, decl);
    unfound(register_reply(answer))
}

// Uncharges the objects that were drained, and counts them.
fn uncharge_drained<R: Wait>(
    worker: &mut Worker<'_, R>,
    objects: &Log<Object>,
) -> Result<u32, Memory>
    requires unspent { spent_by worker.old.state.uses ≡ None }
    requires born { AreBorn (groups_in (shape_of worker.old.shared.core)) objects.now.items }
    requires few { length objects.now.items ≤ 20480000 }
    ensures core { worker.new.state.core ≡ worker.old.state.core }
    ensures count { IfOk result (λ n. n ≡ length objects.now.items) }
    ensures uncharged { OnOk result (UnchargesEach (shared_parents worker.old.shared) worker.old.by
        objects.now.items worker.old.state worker.new.state) }
    ensures same { IsSame worker.old worker.new }
{
    let cache = &mut worker.seats.cache;
    uncharge_each(
        &mut cache.charge,
        &mut cache.uses,
        worker.by,
        objects.as_slice(),
    )?;
    Ok(objects.len() as u32)
}

/// Ends the registration of a cache: its lists are emptied, and each object is uncharged from its
/// birth group up.
///
/// A worker whose charges are used up is answered Worn, and nothing is done. How many objects there
/// are is known only once they are drained. So `Memory` may come then, if there is no room to note
/// an uncharge: that object and those after it stay charged. Linux: `shrinker_free` in mm/shrinker.c.
pub fn unregister<R: Wait>(worker: &mut Worker<'_, R>, decl: u8) -> Result<Answered, Memory>
    requires cache { IsCache (content_of worker.old.shared.script) decl }
    ensures unregisters { IfOk result (λ a.
        UnregistersNone a worker.old.state worker.new.state
        ⊎ Unregisters worker.old.shared worker.old.by decl a worker.old.state worker.new.state) }
    ensures same { IsSame worker.old worker.new }
{
    if let Some(spent) = worker.seats.cache.charge.spent() {
        return Ok(unfound(Reply::Worn { spent }));
    }
    let seat = &mut worker.seats.cache.core;
    match unregistering::unregister(worker.rt, seat, decl, worker.by) {
        UnregisterAnswer::NoCache { entry } => Ok(unfound(Reply::NoCache { entry })),
        UnregisterAnswer::Memory => Ok(unfound(Reply::Memory)),
        UnregisterAnswer::Freed {
            id,
            entry,
            from,
            to,
            objects,
        } => Ok(unfound(Reply::Freed {
            id,
            entry,
            from,
            to,
            objects: uncharge_drained(worker, &objects)?,
        })),
        UnregisterAnswer::Half {
            id,
            entry,
            from,
            to,
            objects,
            why,
        } => Ok(unfound(Reply::Half {
            id,
            entry,
            from,
            to,
            objects: uncharge_drained(worker, &objects)?,
            why,
        })),
    }
}
