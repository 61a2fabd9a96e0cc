// SPDX-License-Identifier: GPL-2.0-only
//! The least number that an entry or a version may have at each place.

ghost use Rattle.std.specs.Prelude.{◌≡◌, OnOk};
ghost use Rattle.shr_audit_pools.specs.Lows.{HasNoLows, RaisesLow, low_at};
ghost use Rattle.shr_audit_pools.specs.Places.{pool_key};

use crate::places::{PoolPlace, key_of};
use shr_base::memory::Memory;
use std::alloc::Global;
use std::collections::HashMap;

/// A table that keeps none.
pub(crate) fn no_lows(alloc: Global) -> HashMap<u64, u64>
    ensures { HasNoLows result }
{
    HashMap::new(alloc)
}

/// The least number at a place.
pub(crate) fn low_at(lows: &HashMap<u64, u64>, place: PoolPlace) -> u64
    ensures { result ≡ low_at lows.now (pool_key place.pool place.node) }
{
    let key = key_of(place) as u64;
    match lows.get(&key) {
        None => 0,
        Some(low) => *low,
    }
}

/// Raises it, if it is below `to`.
pub(crate) fn raise(lows: &mut HashMap<u64, u64>, place: PoolPlace, to: u64) -> Result<(), Memory>
    ensures { OnOk result (RaisesLow (pool_key place.pool place.node) to lows.old lows.new) }
{
    if to <= low_at(lows, place) {
        return Ok(());
    }
    let key = key_of(place) as u64;
    lows.insert(key, to)?;
    Ok(())
}
