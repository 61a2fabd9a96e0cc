// SPDX-License-Identifier: GPL-2.0-only
//! The last version that was read at each place.

ghost use Rattle.std.specs.Prelude.{◌≡◌, ◌<◌, ◌^◌, ◌∷◌, [], IfOk};
ghost use Rattle.shr_audit_walks.specs.VersionTable.{if_here, last_at, place_key, IsBlank, Notes};

use shr_base::memory::Memory;
use shr_base::places::Place;
use std::alloc::Global;
use std::collections::HashMap;

/// A table of no versions.
pub(crate) fn no_versions(alloc: Global) -> HashMap<u64, u32>
    ensures { IsBlank result }
{
    HashMap::new(alloc)
}

/// A place by one number.
pub fn place_key(place: Place) -> u64
    ensures key { result ≡ place_key place }
    ensures group { place.group < 2 ^ 16 }
    ensures id { place.id < 2 ^ 16 }
{
    0x1_0000_0000 * place.node as u64 + 0x1_0000 * place.group as u64 + place.id as u64
}

// The last version that was read at a place, 0 where none was.
fn last_at(versions: &HashMap<u64, u32>, place: Place) -> u32
    ensures { result ≡ last_at versions.now place }
{
    let key = place_key(place);
    match versions.get(&key) {
        None => 0,
        Some(last) => *last,
    }
}

/// Notes that a version was read at a place, and answers whether it isn't below the last one there.
pub(crate) fn note(
    versions: &mut HashMap<u64, u32>,
    place: Place,
    version: u32,
) -> Result<bool, Memory>
    ensures { IfOk result (λ b. Notes versions.old versions.new b
        (if_here place (version ∷ []))) }
{
    if version < last_at(versions, place) {
        return Ok(false);
    }
    let key = place_key(place);
    versions.insert(key, version)?;
    Ok(true)
}

/// The same of two versions, one after the other.
pub(crate) fn note_two(
    versions: &mut HashMap<u64, u32>,
    place: Place,
    first: u32,
    second: u32,
) -> Result<bool, Memory>
    ensures { IfOk result (λ b. Notes versions.old versions.new b
        (if_here place (first ∷ second ∷ []))) }
{
    if !note(versions, place, first)? {
        return Ok(false);
    }
    let last = note(versions, place, second)?;
    Ok(last)
}
