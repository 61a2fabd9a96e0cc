// SPDX-License-Identifier: GPL-2.0-only
//! Taking a charge back.

ghost use Rattle.std.specs.Prelude.{◌<◌};
ghost use Rattle.shr_seats.specs.Shapes.{groups_in};
ghost use Rattle.shr_core.specs.Seats.{shape_of};
ghost use Rattle.shr_walk.specs.Acting.{IsSame};
ghost use Rattle.shr_walk.specs.Admitting.{CanTakeBack};
ghost use Rattle.shr_cache.specs.Opening.{Uncharges};

use shr_walk::worker::Worker;
use std::sync::Wait;

/// Uncharges an object of a group, in the room that was made to note it.
pub(crate) fn uncharge<R: Wait>(worker: &mut Worker<'_, R>, group: u16)
    requires group { group < groups_in (shape_of worker.old.shared.core) }
    requires room { CanTakeBack group worker.old }
    ensures uncharged { Uncharges worker.old.shared worker.old.by group worker.old.state
        worker.new.state }
    ensures same { IsSame worker.old worker.new }
{
    let cache = &mut worker.seats.cache;
    cache.charge.uncharge(&mut cache.uses, worker.by, group);
}
