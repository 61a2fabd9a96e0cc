// SPDX-License-Identifier: GPL-2.0-only
//! Uncharging the objects that were drained.

ghost use Rattle.std.specs.Prelude.{◌≡◌, ◌+◌, ◌^◌, ◌<◌, length, OnOk};
ghost use Rattle.shr_charge.specs.Seat.{uses_of};
ghost use Rattle.shr_core.specs.Rule.{AreBorn};
ghost use Rattle.shr_walk.specs.Keeping.{AllUncharged};

use shr_base::journals::UseStep;
use shr_base::log::Log;
use shr_base::memory::Memory;
use shr_base::objects::Object;
use shr_base::places::Serial;
use shr_charge::ChargeSeat;

/// Uncharges each of these objects from its birth group up. `Memory` comes if there is none to
/// note one; the objects before it are uncharged. Linux: `obj_cgroup_uncharge` in mm/memcontrol.c.
pub(crate) fn uncharge_each(
    seat: &mut ChargeSeat<'_>,
    uses: &mut Log<UseStep>,
    by: Serial,
    objects: &[Object],
) -> Result<(), Memory>
    requires born { AreBorn (length seat.old.charge.shape.parents.items) objects.now }
    requires calls { (uses_of seat.old).uncharges + length objects.now < 2 ^ 25 }
    ensures table { seat.new.charge ≡ seat.old.charge }
    ensures uncharged { OnOk result (AllUncharged seat.old.charge.shape.parents.items by objects.now
        seat.old seat.new uses.old.items uses.new.items) }
{
    // No path up to the root is longer than there are groups.
    let levels = seat.table().shape.parents.len();
    for object in objects {
        uses.reserve(levels)?;
        seat.uncharge(uses, by, object.birth);
    }
    Ok(())
}
