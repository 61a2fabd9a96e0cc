// SPDX-License-Identifier: GPL-2.0-only
//! Two threads at the deferred word of one place.

ghost use Rattle.std.specs.Prelude.{◌≡◌};
ghost use Rattle.shr_seats.specs.Rows.{IsPlaceOf};
ghost use Rattle.shr_deferred.specs.Seat.{deferred_standing};

use shr_base::places::Place;
use shr_deferred::table::{Deferred, DeferredSeat};
use shr_seats::rows::Sizes;
use std::test::Fail;
use std::thread;

// One place.
const ONE: Sizes = Sizes {
    ids: 1,
    nodes: 1,
    groups: 1,
};

const HERE: Place = Place {
    id: 0,
    node: 0,
    group: 0,
};

// Gives three, a thousand times.
fn giving(seat: &mut DeferredSeat<'_>)
    requires place { IsPlaceOf seat.old.deferred.sizes (record { id = 0; node = 0; group = 0 }) }
    ensures table { seat.new.deferred ≡ seat.old.deferred }
{
    for _turn in 0..1000 {
        seat.give(HERE, 3);
    }
}

// Takes all and gives one more back, a thousand times.
fn carrying(seat: &mut DeferredSeat<'_>)
    requires place { IsPlaceOf seat.old.deferred.sizes (record { id = 0; node = 0; group = 0 }) }
    ensures stays { (seat.new.deferred ≡ seat.old.deferred) × (deferred_standing seat.new
        ≡ deferred_standing seat.old) }
{
    for _turn in 0..1000 {
        let found = seat.take(HERE);
        seat.give(HERE, found.wrapping_add(1));
    }
}

#[test]
fn two_threads_lose_nothing_at_one_place(rt: HostRuntime) -> Result<(), Fail> {
    let (table, first) = Deferred::new(rt.alloc(), ONE)?;
    let mut first = first.at(&table);
    let mut second = first.split()?;
    thread::join_mut(
        &rt,
        &mut || carrying(&mut first),
        &mut || giving(&mut second),
    );
    first.join(second);
    let first = first.leave();
    let left = table.finish(rt.alloc(), first)?;
    assert_eq!(rt; left.len(), 1);
    assert_eq!(rt; left.get(0).ok_or("no amount")?.amount, 4000);
    Ok(())
}
