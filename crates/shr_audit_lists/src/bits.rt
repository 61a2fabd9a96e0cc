// SPDX-License-Identifier: GPL-2.0-only
//! The bits of a report.

ghost use Rattle.std.specs.Prelude.{◌≡◌, ℕ, ◌<◌, ◌%◌, List, Some, length, slice_get, IfOk};
ghost use Rattle.std.specs.Bool.{Decides};
ghost use Rattle.shr_base.specs.declared.ends.PlaceEnd.{PlaceEnd};
ghost use Rattle.shr_base.specs.declared.journals.PoolEntry.{PoolEntry};
ghost use Rattle.shr_model.specs.Bits.{is_set};
ghost use Rattle.shr_model.specs.Pool.{phase_of};
ghost use Rattle.shr_laws.specs.BitsLawful.{AreBitsLawful, is_set_at};
ghost use Rattle.shr_laws.specs.Numbers.{HasNumbers};
ghost use Rattle.shr_audit_case.specs.Lists.{IsCaseOf, IsReplayOf};
ghost use Rattle.shr_audit_lists.specs.Set.{ArePhases, IsSetIfLive};
ghost use Rattle.shr_audit_lists.specs.Words.{AreWords};

use crate::phases::phases_of;
use crate::words::{word_key, words_of};
use shr_audit_case::case::Case;
use shr_base::memory::Memory;
use shr_base::places::Place;
use shr_base::scripts::Script;
use shr_laws::report::Report;
use std::alloc::Global;
use std::collections::HashMap;

// Whether this bit of a word is 1.
fn is_set(bits: u64, bit: u8) -> bool
    requires { bit < 64 }
    ensures { result ≡ is_set bits bit }
{
    (bits >> bit) % 2 == 1
}

// Whether the bit of a place is set.
fn is_set_at(report: &Report, words: &HashMap<u64, u64>, place: Place) -> bool
    requires numbers { HasNumbers report.now }
    requires words { AreWords report.now.maps.items words.now }
    ensures { result ≡ is_set_at report.now place }
{
    let key = word_key(place.node, place.group, place.id / 64);
    match words.get(&key) {
        None => false,
        Some(bits) => is_set(*bits, (place.id % 64) as u8),
    }
}

// The phase of an id at the end, modulo 3.
fn phase_at(phases: &[u8], id: u16) -> u8
    requires { length phases.now ≡ 65536 }
    ensures { (pool : List PoolEntry) → ArePhases pool phases.now → result ≡ phase_of id pool % 3 }
{
    phases[id as usize]
}

// Whether a place that must have its bit set has it.
fn is_place_set(
    report: &Report,
    case: &Case,
    words: &HashMap<u64, u64>,
    phases: &[u8],
    place: Place,
) -> bool
    requires replayed { IsReplayOf report.now case.now }
    requires numbers { HasNumbers report.now }
    requires words { AreWords report.now.maps.items words.now }
    requires phases { ArePhases report.now.pool.items phases.now }
    ensures { Decides result (IsSetIfLive case.now.parents.items report.now place) }
{
    if place.group == 0 {
        return true;
    }
    if case.left(report, place).is_empty() {
        return true;
    }
    if phase_at(phases, place.id) != 1 {
        return true;
    }
    is_set_at(report, words, place)
}

// The same of each list that is printed.
fn are_lists_set(report: &Report, case: &Case, words: &HashMap<u64, u64>, phases: &[u8]) -> bool
    requires replayed { IsReplayOf report.now case.now }
    requires numbers { HasNumbers report.now }
    requires words { AreWords report.now.maps.items words.now }
    requires phases { ArePhases report.now.pool.items phases.now }
    ensures { Decides result ((k : ℕ) (end : PlaceEnd) → slice_get report.now.places.items k
        ≡ Some end → IsSetIfLive case.now.parents.items report.now end.place) }
{
    for end in report.places.as_slice() {
        if !is_place_set(report, case, words, phases, end.place) {
            return false;
        }
    }
    true
}

/// Whether each place below the root that has objects at the end, and whose id is live, has its bit
/// set.
pub fn are_bits_lawful(
    alloc: Global,
    script: &Script,
    report: &Report,
    case: &Case,
) -> Result<bool, Memory>
    requires replayed { IsCaseOf script.now report.now case.now }
    requires numbers { HasNumbers report.now }
    ensures { IfOk result (λ b. Decides b (AreBitsLawful script.now report.now)) }
{
    let words = words_of(alloc, report.maps.as_slice())?;
    let phases = phases_of(alloc, report.pool.as_slice())?;
    let set = are_lists_set(report, case, &words, phases.as_slice());
    Ok(set)
}
