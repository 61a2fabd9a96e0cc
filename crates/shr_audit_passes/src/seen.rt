// SPDX-License-Identifier: GPL-2.0-only
//! The units and ids that a walk saw and tried.

ghost use Rattle.std.specs.Prelude.{◌≡◌, ◌+◌, ◌<◌, ◌/◌, ◌++◌, ◌∷◌, [], filter, flat_map, map, OnOk, IfOk};
ghost use Rattle.std.specs.Bool.{Decides};
ghost use Rattle.std.specs.List.{range_with_len};
ghost use Rattle.shr_base.specs.Walks.{Attempt};
ghost use Rattle.shr_base.specs.declared.walks.MapSeen.{MapSeen};
ghost use Rattle.shr_model.specs.Bits.{ids_in, is_set, units_of};
ghost use Rattle.shr_model.specs.Prefixes.{IsPrefixOf};

use shr_base::attempts::Attempt;
use shr_base::memory::Memory;
use shr_base::walks::MapSeen;
use std::alloc::Global;

// Whether a bit of a word is 1.
fn is_set(bits: u64, bit: u8) -> bool
    requires { bit < 64 }
    ensures { result ≡ is_set bits bit }
{
    (bits >> bit) % 2 == 1
}

// Adds the ids that the set bits of a unit's word stand for.
fn push_ids(ids: &mut Vec<u16>, map: MapSeen) -> Result<(), Memory>
    ensures { OnOk result (ids.new.items ≡ ids.old.items ++ ids_in map.unit map.bits) }
{
    for bit in 0..64u8 {
        if is_set(map.bits, bit) {
            ids.push(64 * map.unit as u16 + bit as u16)?;
        }
    }
    Ok(())
}

/// The ids of the set bits of these words, in order.
pub fn ids_seen(alloc: Global, maps: &[MapSeen]) -> Result<Vec<u16>, Memory>
    ensures { IfOk result (λ ids. ids.items
        ≡ flat_map (λ (m : MapSeen). ids_in m.unit m.bits) maps.now) }
{
    let mut ids = Vec::new(alloc);
    for map in maps {
        push_ids(&mut ids, *map)?;
    }
    Ok(ids)
}

/// Whether these attempts are at the first of these ids, in order.
pub fn tries_begin(attempts: &[Attempt], ids: &[u16]) -> bool
    ensures { Decides result (IsPrefixOf (map (λ (a : Attempt). a.id) attempts.now) ids.now) }
{
    if attempts.len() > ids.len() {
        return false;
    }
    for i in 0..attempts.len() {
        let attempt = &attempts[i];
        if attempt.id != ids[i] {
            return false;
        }
    }
    true
}

/// Whether these attempts are at the first of so many ids from 0 up.
pub fn tries_rise(attempts: &[Attempt], ids: u16) -> bool
    ensures { Decides result (IsPrefixOf (map (λ (a : Attempt). a.id) attempts.now)
        (range_with_len 0 ids)) }
{
    if attempts.len() > ids as usize {
        return false;
    }
    for i in 0..attempts.len() {
        let attempt = &attempts[i];
        if attempt.id as usize != i {
            return false;
        }
    }
    true
}

/// Whether these words are of the first units of so many ids.
pub fn units_rise(maps: &[MapSeen], ids: u16) -> bool
    ensures { Decides result (IsPrefixOf (map (λ (m : MapSeen). m.unit) maps.now) (units_of ids)) }
{
    if maps.len() > (ids as usize + 63) / 64 {
        return false;
    }
    for i in 0..maps.len() {
        if maps[i].unit as usize != i {
            return false;
        }
    }
    true
}
