// SPDX-License-Identifier: GPL-2.0-only
//! The passes of walks by one number each.

ghost use Rattle.std.specs.Prelude.{◌≡◌, ◌<◌, ◌^◌};
ghost use Rattle.shr_laws.specs.WellFormed.{IsNumbered};
ghost use Rattle.shr_audit_walks.specs.Keys.{key_of};

use shr_base::places::Place;

/// A pass by one number: of its walk, by the numbers of the worker and its own, at a place.
pub fn key_of(worker: u16, walk: u64, place: Place) -> u128
    ensures key { result ≡ key_of worker walk place }
    ensures few { worker < 2 ^ 16 }
    ensures numbers { IsNumbered place }
{
    let of_worker = 0x1_0000 * walk as u128 + worker as u128;
    let of_id = 0x1_0000 * of_worker + place.id as u128;
    let of_node = 0x100 * of_id + place.node as u128;
    0x1_0000 * of_node + place.group as u128
}
