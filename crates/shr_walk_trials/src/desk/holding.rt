// SPDX-License-Identifier: GPL-2.0-only
//! Holding an id for one call.

ghost use Rattle.std.specs.Prelude.{◌≡◌, true, None, IfSome};
ghost use Rattle.shr_core.specs.Seats.{IsPlaceOfShape, shape_of};
ghost use Rattle.shr_walk.specs.Acting.{IsFit};
ghost use Rattle.shr_walk_trials.specs.Desk.{IsHolder};

use shr_base::places::Place;
use shr_core::lookups::Lookup;
use shr_walk::seats::{Seats, Shared};

/// Whether there is such a place.
pub fn is_place(shared: &Shared, place: Place) -> bool
    ensures { result ≡ true → IsPlaceOfShape (shape_of shared.now.core) place }
{
    let shape = shared.core.shape();
    place.id < shape.ids && place.node < shape.nodes && (place.group as usize) < shape.parents.len()
}

/// Looks the id of a place up, and tells the number of the lookup where it is held now.
pub fn hold(shared: &Shared, seats: &mut Seats<'_>, place: Place) -> Option<u32>
    requires { IsFit shared.now seats.old }
    ensures held { IfSome result (λ n. IsHolder shared.now place seats.new) }
    ensures free { result ≡ None → IsFit shared.now seats.new }
{
    if !is_place(shared, place) {
        return None;
    }
    match seats.cache.core.lookup(place.id) {
        Lookup::Held { number, decl: _ } => Some(number),
        Lookup::Gone { number: _ } => None,
        Lookup::Worn { seen: _ } => None,
    }
}

/// Gives the reference to the held id back.
pub fn rest(shared: &Shared, seats: &mut Seats<'_>, place: Place)
    requires { IsHolder shared.now place seats.old }
    ensures { IsFit shared.now seats.new }
{
    seats.cache.core.put();
}
