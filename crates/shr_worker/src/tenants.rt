// SPDX-License-Identifier: GPL-2.0-only
//! A tenant's put, whose texts are copied.

ghost use Rattle.std.specs.Prelude.{◌⊎◌};
ghost use Rattle.shr_cache.specs.Puts.{PutGives};
ghost use Rattle.shr_core.specs.Seats.{shape_of};
ghost use Rattle.shr_cache.specs.Opening.{IsTargetOf};
ghost use Rattle.shr_walk.specs.Acting.{IsSame};
ghost use Rattle.shr_worker.specs.Commands.{PutsNone};

use shr_base::places::Target;
use shr_base::replies::{Answered, Reply};
use shr_base::text::Text;
use shr_cache::puts;
use shr_cache::replies::unfound;
use shr_walk::worker::Worker;
use std::sync::Wait;

/// Adds an object with a copy of this key and value.
///
/// Memory comes first of all, with nothing done, if there is none for the copies. Linux:
/// `list_lru_add` in mm/list_lru.c.
pub fn put<R: Wait>(
    worker: &mut Worker<'_, R>,
    target: Target,
    key: &Text,
    value: &Text,
) -> Answered
    requires target { IsTargetOf (shape_of worker.old.shared.core) target }
    ensures puts { PutsNone result worker.old.state worker.new.state
        ⊎ PutGives worker.old.shared worker.old.by target.group target.node target.decl key.now
        value.now result worker.old.state worker.new.state }
    ensures same { IsSame worker.old worker.new }
{
    let (Ok(key), Ok(value)) = (key.copy(), value.copy()) else {
        return unfound(Reply::Memory);
    };
    puts::put(worker, target, key, value)
}
