// SPDX-License-Identifier: GPL-2.0-only
//! The bit words that are printed, by node, group and unit.

ghost use Rattle.std.specs.Prelude.{◌≡◌, ◌<◌, ◌^◌, List, [], ◌∷◌, ◌++◌, IfOk, OnOk};
ghost use Rattle.shr_base.specs.declared.ends.MapEnd.{MapEnd};
ghost use Rattle.shr_audit_lists.specs.Words.{AreWords, word_key};

use shr_base::ends::MapEnd;
use shr_base::memory::Memory;
use std::alloc::Global;
use std::collections::HashMap;

/// A node, a group and a unit by one number.
pub fn word_key(node: u8, group: u16, unit: u16) -> u64
    ensures key { result ≡ word_key node group unit }
    ensures group { group < 2 ^ 16 }
    ensures unit { unit < 2 ^ 16 }
{
    0x1_0000_0000 * node as u64 + 0x1_0000 * group as u64 + unit as u64
}

// Notes a word by its number, if there is none of that number.
fn note_word(words: &mut HashMap<u64, u64>, map: &MapEnd) -> Result<(), Memory>
    ensures { OnOk result ((maps : List MapEnd) → AreWords maps words.old
        → AreWords (maps ++ map.now ∷ []) words.new) }
{
    let key = word_key(map.node, map.group, map.unit as u16);
    if words.contains_key(&key) {
        return Ok(());
    }
    words.insert(key, map.bits)?;
    Ok(())
}

/// The words by their numbers, of two with one number the first.
pub(crate) fn words_of(alloc: Global, maps: &[MapEnd]) -> Result<HashMap<u64, u64>, Memory>
    ensures { IfOk result (λ w. AreWords maps.now w) }
{
    let mut words = HashMap::new(alloc);
    for map in maps {
        note_word(&mut words, map)?;
    }
    Ok(words)
}
