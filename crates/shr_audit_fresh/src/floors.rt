// SPDX-License-Identifier: GPL-2.0-only
//! What was known, by the least number that is above all of it.

ghost use Rattle.std.specs.Prelude.{◌≡◌, ℕ, ◌∷◌, [], ◌++◌, List, length, get_or, option_to_list, IfOk};
ghost use Rattle.std.specs.Bool.{Decides};
ghost use Rattle.shr_base.specs.Walks.{WalkRecord};
ghost use Rattle.shr_laws.specs.Parts.{walks_of};
ghost use Rattle.shr_audit_fresh.specs.Floors.{AreFloors, FloorWith, IsHigher, Reaches};

use crate::told::{walk_cited, walks_of};
use shr_base::memory::Memory;
use shr_base::walks::WalkRecord;
use shr_laws::report::Report;
use std::alloc::Global;

/// Whether a number is at least the floor, if there is one.
pub(crate) fn reaches(floor: u64, seen: Option<u32>) -> bool
    ensures { Decides result (Reaches floor (option_to_list seen)) }
{
    match seen {
        Some(n) => floor <= n as u64,
        None => true,
    }
}

/// The floor with one number more, if there is one.
pub(crate) fn floor_with(floor: u64, told: Option<u32>) -> u64
    ensures { FloorWith floor (option_to_list told) result }
{
    match told {
        Some(n) => {
            if n as u64 >= floor {
                n as u64 + 1
            } else {
                floor
            }
        }
        None => floor,
    }
}

/// The higher of two.
pub(crate) fn higher(a: u64, b: u64) -> u64
    ensures { IsHigher a b result }
{
    if a < b { b } else { a }
}

// The floor 0 for each of so many.
fn zeros(alloc: Global, size: usize) -> Result<Vec<u64>, Memory>
    ensures { IfOk result (λ floors. (length floors.items ≡ size) ×
        ((k : ℕ) → get_or floors.items k 0 ≡ 0)) }
{
    let mut floors = Vec::new(alloc);
    for _k in 0..size {
        floors.push(0)?;
    }
    Ok(floors)
}

// Notes what a walk of a worker cites.
fn note_walk(floors: &mut Vec<u64>, worker: usize, walk: &WalkRecord)
    ensures count { length floors.new.items ≡ length floors.old.items }
    ensures noted { (before : List WalkRecord) → AreFloors worker before floors.old.items
        → AreFloors worker (before ++ walk.now ∷ []) floors.new.items }
{
    let by = walk.by.worker as usize;
    if by != worker {
        return;
    }
    let command = walk.by.command as usize;
    if command < floors.len() {
        let floor = floor_with(floors[command], walk_cited(&walk.answer()));
        floors[command] = floor;
    }
}

/// The floors of so many commands of a worker by what their walks cite.
pub(crate) fn walk_floors(
    alloc: Global,
    report: &Report,
    worker: usize,
    size: usize,
) -> Result<Vec<u64>, Memory>
    ensures { IfOk result (λ floors. (length floors.items ≡ size) ×
        AreFloors worker (walks_of report.now worker) floors.items) }
{
    let mut floors = zeros(alloc, size)?;
    for walk in walks_of(report, worker) {
        note_walk(&mut floors, worker, walk);
    }
    Ok(floors)
}
