// SPDX-License-Identifier: GPL-2.0-only
//! What is left of the tables once all workers are done.

ghost use Rattle.std.specs.Prelude.{◌≡◌, ◌<◌, ◌^◌, All, IfOk};
ghost use Rattle.shr_core.specs.Leaving.{IsLeft};
ghost use Rattle.shr_core.specs.Seats.{first_view};
ghost use Rattle.shr_charge.specs.Ends.{IsEndOf};
ghost use Rattle.shr_charge.specs.Seat.{first_uses, first_tree, first_standing};
ghost use Rattle.shr_deferred.specs.History.{HasHistory};
ghost use Rattle.shr_deferred.specs.Left.{left_over};
ghost use Rattle.shr_deferred.specs.Rule.{strands_in};
ghost use Rattle.shr_deferred.specs.Seat.{first_deferred};
ghost use Rattle.shr_plain.specs.Ending.{IsPoolsEnd};
ghost use Rattle.shr_plain.specs.Seat.{IsLastSeat, first_plain, first_plain_standing};
ghost use Rattle.shr_seats.specs.Lines.{acts_of};
ghost use Rattle.shr_seats.specs.Shapes.{hierarchy_of};
ghost use Rattle.shr_seats.specs.Standing.{IsWhole};
ghost use Rattle.shr_tables.specs.Firsts.{AreFirstIn, held_in};

use crate::tables::{FirstCrew, Tables};
use shr_base::ends::{ChargeEnd, Closed, PlaceAmount};
use shr_base::log::Log;
use shr_base::memory::Memory;
use shr_base::scripts::Script;
use shr_plain::ending::PoolsEnd;
use shr_walk::seats::{FirstSeats, Shared};
use std::alloc::Global;

/// What is left of a run: the script that was run, and the end of each table.
#[derive(Drop)]
pub struct Ends {
    pub script: Script,
    pub core: Closed,
    pub deferred: Log<PlaceAmount>,
    pub charge: ChargeEnd,
    pub pools: PoolsEnd,
}

/// Ends all tables once all other seats were joined into the first ones. `Memory` comes for want of
/// memory.
pub fn finish(alloc: Global, tables: Tables, first: FirstCrew) -> Result<Ends, Memory>
    requires first { AreFirstIn (held_in tables) first }
    requires core { IsWhole (first_view first.seats.core).standing }
    requires charge { IsWhole (first_standing first.seats.charge) }
    requires deferred { IsWhole (first_deferred first.seats.deferred).standing }
    requires pools { IsLastSeat (first_plain_standing first.plain) }
    ensures script { IfOk result (λ e. e.script ≡ tables.shared.script) }
    ensures core { IfOk result (λ e. IsLeft tables.shared.core.setting
        (first_view first.seats.core) e.core) }
    ensures words { IfOk result (λ e. All (λ m. m.bits < 2 ^ 64) e.core.maps.items) }
    ensures deferred { IfOk result (λ e. e.deferred.items
        ≡ left_over tables.shared.deferred.sizes (acts_of (first_deferred
        first.seats.deferred).did)) }
    ensures history { IfOk result (λ e. HasHistory tables.shared.deferred.sizes
        (strands_in (first_deferred first.seats.deferred)) e.deferred.items) }
    ensures charge { IfOk result (λ e. IsEndOf (hierarchy_of tables.shared.charge.shape)
        (first_uses first.seats.charge) (first_tree first.seats.charge) e.charge) }
    ensures pools { IfOk result (λ e. IsPoolsEnd tables.pools.sizes (first_plain first.plain)
        e.pools) }
{
    let Tables { shared, pools } = tables;
    let FirstCrew { seats, plain } = first;
    let Shared {
        core,
        deferred,
        charge,
        script,
        tree: _,
        deepest: _,
    } = shared;
    let FirstSeats {
        core: first_core,
        charge: first_charge,
        deferred: first_deferred,
    } = seats;
    let core = core.finish(first_core)?;
    let deferred = deferred.finish(alloc, first_deferred)?;
    let charge = charge.finish(first_charge)?;
    let pools = pools.finish(plain)?;
    Ok(Ends {
        script,
        core,
        deferred,
        charge,
        pools,
    })
}
