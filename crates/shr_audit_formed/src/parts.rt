// SPDX-License-Identifier: GPL-2.0-only
//! What the workers did.

ghost use Rattle.std.specs.Prelude.{◌≡◌, ◌≢◌, ◌<◌, ◌≤◌};
ghost use Rattle.std.specs.Bool.{Decides};
ghost use Rattle.shr_model.specs.Places.{unit_of};
ghost use Rattle.shr_laws.specs.WellFormed.{IsBitWord, IsCarryBefore, LendsWord};
ghost use Rattle.shr_audit_formed.specs.Each.{Adjacent, AreAttemptsFormed, AreMapsFormed, EachItem, IsUnitLoaded, IsWorkerCommand, IsWalkFormed};

use crate::words::is_value;
use shr_base::attempts::Attempt;
use shr_base::places::Serial;
use shr_base::replies::{Answered, Reply};
use shr_base::walks::{Carry, Isolation, MapSeen, PlainWalk, WalkRecord};

// Whether the value that a reply lends is a word.
fn lends_word(reply: &Reply) -> bool
    ensures { Decides result (LendsWord reply.now) }
{
    match reply {
        Reply::Hit { value, .. } => is_value(value.bytes()),
        _ => true,
    }
}

/// Whether the values that these answers lend are words.
pub fn lend_words(answers: &[Answered]) -> bool
    ensures { Decides result (EachItem (λ a. LendsWord a.reply) answers.now) }
{
    for answer in answers {
        if !lends_word(&answer.reply) {
            return false;
        }
    }
    true
}

// Whether a command is one of this worker's that has an answer.
fn is_of(by: Serial, worker: usize, answers: usize) -> bool
    ensures { Decides result (IsWorkerCommand worker answers by) }
{
    by.worker as usize == worker && (by.command as usize) < answers
}

/// Whether these walks are of commands of this worker that have answers.
pub fn walks_are_of(walks: &[WalkRecord], worker: usize, answers: usize) -> bool
    ensures { Decides result (EachItem (λ x. IsWorkerCommand worker answers x.by) walks.now) }
{
    for walk in walks {
        if !is_of(walk.by, worker, answers) {
            return false;
        }
    }
    true
}

/// Whether these walks stand in the order of their commands.
pub fn walks_stand(walks: &[WalkRecord]) -> bool
    ensures { Decides result (Adjacent (λ x y. x.by.command ≤ y.by.command) walks.now) }
{
    for i in 1..walks.len() {
        let before = &walks[i - 1];
        let walk = &walks[i];
        if before.by.command > walk.by.command {
            return false;
        }
    }
    true
}

/// Whether these carries are of commands of this worker that have answers.
pub fn carries_are_of(carries: &[Carry], worker: usize, answers: usize) -> bool
    ensures { Decides result (EachItem (λ x. IsWorkerCommand worker answers x.by) carries.now) }
{
    for carry in carries {
        if !is_of(carry.by, worker, answers) {
            return false;
        }
    }
    true
}

/// Whether these carries stand in the order of their commands.
pub fn carries_stand(carries: &[Carry]) -> bool
    ensures { Decides result (Adjacent (λ x y. x.by.command ≤ y.by.command) carries.now) }
{
    for i in 1..carries.len() {
        if carries[i - 1].by.command > carries[i].by.command {
            return false;
        }
    }
    true
}

/// Whether these walks of the pools are of commands of this worker that have answers.
pub fn plains_are_of(plains: &[PlainWalk], worker: usize, answers: usize) -> bool
    ensures { Decides result (EachItem (λ x. IsWorkerCommand worker answers x.by) plains.now) }
{
    for plain in plains {
        if !is_of(plain.by, worker, answers) {
            return false;
        }
    }
    true
}

/// Whether these walks of the pools stand in the order of their commands.
pub fn plains_stand(plains: &[PlainWalk]) -> bool
    ensures { Decides result (Adjacent (λ x y. x.by.command ≤ y.by.command) plains.now) }
{
    for i in 1..plains.len() {
        if plains[i - 1].by.command > plains[i].by.command {
            return false;
        }
    }
    true
}

/// Whether these isolations are of commands of this worker that have answers.
pub fn isolations_are_of(isolations: &[Isolation], worker: usize, answers: usize) -> bool
    ensures { Decides result (EachItem (λ x. IsWorkerCommand worker answers x.by) isolations.now) }
{
    for isolation in isolations {
        if !is_of(isolation.by, worker, answers) {
            return false;
        }
    }
    true
}

/// Whether these isolations stand in the order of their commands.
pub fn isolations_stand(isolations: &[Isolation]) -> bool
    ensures { Decides result (Adjacent (λ x y. x.by.command ≤ y.by.command) isolations.now) }
{
    for i in 1..isolations.len() {
        if isolations[i - 1].by.command > isolations[i].by.command {
            return false;
        }
    }
    true
}

// Whether a carry stands before another of the same command.
fn is_carry_before(c: &Carry, d: &Carry) -> bool
    ensures { Decides result (IsCarryBefore c.now d.now) }
{
    let (from, to) = (c.place, d.place);
    c.by.command != d.by.command || from.id < to.id || (from.id == to.id && from.node < to.node)
}

/// Whether the carries of each command stand by id and node.
pub fn carries_stand_by_place(carries: &[Carry]) -> bool
    ensures { Decides result (Adjacent (IsCarryBefore) carries.now) }
{
    for i in 1..carries.len() {
        if !is_carry_before(&carries[i - 1], &carries[i]) {
            return false;
        }
    }
    true
}

// The bits of a word have the range of their type.
fn seen_fits(map: MapSeen)
    ensures { IsBitWord map.bits }
{}

fn seen_fit(maps: &[MapSeen])
    ensures { EachItem (λ m. IsBitWord m.bits) maps.now }
{
    for map in maps {
        seen_fits(*map);
    }
}

// Whether a unit is one of those that were loaded.
fn is_loaded(maps: &[MapSeen], unit: u16) -> bool
    ensures { Decides result (IsUnitLoaded maps.now unit) }
{
    for map in maps {
        if map.unit as u16 == unit {
            return true;
        }
    }
    false
}

// The unit of an attempt's id.
fn unit_of(attempt: &Attempt) -> u16
    ensures { result ≡ unit_of attempt.now.id }
{
    attempt.id / 64
}

// Whether each attempt is at an id of a loaded unit.
fn are_loaded(maps: &[MapSeen], attempts: &[Attempt]) -> bool
    ensures { Decides result (EachItem (λ a. IsUnitLoaded maps.now (unit_of a.id)) attempts.now) }
{
    for attempt in attempts {
        if !is_loaded(maps, unit_of(attempt)) {
            return false;
        }
    }
    true
}

// Whether loaded units rise.
fn units_rise(maps: &[MapSeen]) -> bool
    ensures { Decides result (Adjacent (λ m n. m.unit < n.unit) maps.now) }
{
    for i in 1..maps.len() {
        if maps[i - 1].unit >= maps[i].unit {
            return false;
        }
    }
    true
}

// Whether attempts stand in the order of their units.
fn attempts_stand(attempts: &[Attempt]) -> bool
    ensures { Decides result (Adjacent (λ a b. unit_of a.id ≤ unit_of b.id) attempts.now) }
{
    for i in 1..attempts.len() {
        if unit_of(&attempts[i - 1]) > unit_of(&attempts[i]) {
            return false;
        }
    }
    true
}

// Whether the maps of a walk are as those that are printed.
fn are_maps_well(group: u16, maps: &[MapSeen]) -> bool
    ensures { Decides result (AreMapsFormed group maps.now) }
{
    seen_fit(maps);
    if group == 0 && !maps.is_empty() {
        return false;
    }
    let rise = units_rise(maps);
    rise
}

// Whether its attempts are, if it isn't one of the root.
fn are_attempts_well(group: u16, maps: &[MapSeen], attempts: &[Attempt]) -> bool
    ensures { Decides result (group ≢ 0 → AreAttemptsFormed maps.now attempts.now) }
{
    if group == 0 {
        return true;
    }
    if !attempts_stand(attempts) {
        return false;
    }
    let loaded = are_loaded(maps, attempts);
    loaded
}

// Whether what a walk of this group found is as what is printed.
fn is_found_well(group: u16, maps: &[MapSeen], attempts: &[Attempt]) -> bool
    ensures { Decides result (AreMapsFormed group maps.now
        × (group ≢ 0 → AreAttemptsFormed maps.now attempts.now)) }
{
    if !are_maps_well(group, maps) {
        return false;
    }
    let tried = are_attempts_well(group, maps, attempts);
    tried
}

// Whether a walk is as one that is printed.
fn is_walk_well(walk: &WalkRecord) -> bool
    ensures { Decides result (IsWalkFormed walk.now) }
{
    let well = is_found_well(walk.group, walk.maps(), walk.attempts());
    well
}

/// Whether each walk is as one that is printed.
pub fn walks_are_well(walks: &[WalkRecord]) -> bool
    ensures { Decides result (EachItem (IsWalkFormed) walks.now) }
{
    for walk in walks {
        if !is_walk_well(walk) {
            return false;
        }
    }
    true
}
