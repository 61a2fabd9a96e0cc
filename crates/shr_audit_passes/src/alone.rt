// SPDX-License-Identifier: GPL-2.0-only
//! What a walk shows by itself, and against the number of ids of its script.

ghost use Rattle.std.specs.Prelude.{◌≡◌, length, map, sum_by, IfOk};
ghost use Rattle.std.specs.Bool.{Decides};
ghost use Rattle.std.specs.List.{range_with_len};
ghost use Rattle.shr_base.specs.Walks.{Attempt};
ghost use Rattle.shr_base.specs.declared.walks.MapSeen.{MapSeen};
ghost use Rattle.shr_model.specs.Attempts.{pass_of};
ghost use Rattle.shr_model.specs.Bits.{units_of};
ghost use Rattle.shr_model.specs.Walks.{freed_of, freed_told, is_cut};
ghost use Rattle.shr_audit_formed.specs.Each.{EachItem};
ghost use Rattle.shr_laws.specs.LawfulWalk.{IsBegun, IsPlaced};
ghost use Rattle.shr_audit_passes.specs.Fields.{AreFirstTries, AreTried, IsBareOffline, IsCutBegun, IsWalkMapped, IsOfRoot, IsRoomAt, IsRoomLast, IsWalkWhole, attempt_freed};

use crate::seen::{ids_seen, tries_begin, tries_rise, units_rise};
use shr_base::attempts::Attempt;
use shr_base::memory::Memory;
use shr_base::scripts::Script;
use shr_base::walks::{Ending, GoneThen, MapSeen, Outcome, PassRecord, WalkAnswer, WalkRecord};
use std::alloc::Global;

/// The pass of an attempt, if one ran.
pub fn pass_of(outcome: &Outcome) -> Option<PassRecord>
    ensures { result ≡ pass_of outcome.now }
{
    match *outcome {
        Outcome::Ran { pass, .. } => Some(pass),
        Outcome::RestoredRan { pass, .. } => Some(pass),
        _ => None,
    }
}

/// Whether a walk ended for want of memory.
pub fn is_cut(answer: WalkAnswer) -> bool
    ensures { result ≡ is_cut answer }
{
    matches!(answer, WalkAnswer::Memory { .. })
}

/// How many objects the answer of a walk says were freed.
pub fn freed_told(answer: WalkAnswer) -> u64
    ensures { result ≡ freed_told answer }
{
    match answer {
        WalkAnswer::Walked { freed } => freed,
        WalkAnswer::Offline { .. } => 0,
        WalkAnswer::Memory { freed } => freed,
    }
}

/// Whether a walk that found its group offline has no map and no attempt.
pub fn is_bare_offline(walk: &WalkRecord) -> bool
    ensures { Decides result (IsBareOffline walk.now) }
{
    match walk.answer() {
        WalkAnswer::Offline { .. } => walk.maps().len() == 0 && walk.attempts().len() == 0,
        _ => true,
    }
}

// Whether these words are of the units of so many ids, each once and in order.
fn are_units(maps: &[MapSeen], ids: u16) -> bool
    ensures { Decides result (map (λ (m : MapSeen). m.unit) maps.now ≡ units_of ids) }
{
    if maps.len() != (ids as usize + 63) / 64 {
        return false;
    }
    let rise = units_rise(maps, ids);
    rise
}

// Whether these attempts are at these ids.
fn are_tried(attempts: &[Attempt], ids: &[u16]) -> bool
    ensures { Decides result (map (λ (a : Attempt). a.id) attempts.now ≡ ids.now) }
{
    if attempts.len() != ids.len() {
        return false;
    }
    let begin = tries_begin(attempts, ids);
    begin
}

// Whether these attempts are at all of so many ids.
fn are_all_tried(attempts: &[Attempt], ids: u16) -> bool
    ensures { Decides result (map (λ (a : Attempt). a.id) attempts.now ≡ range_with_len 0 ids) }
{
    if attempts.len() != ids as usize {
        return false;
    }
    let rise = tries_rise(attempts, ids);
    rise
}

// Whether a walk has a map for each unit, and an attempt for each set bit.
fn is_whole(alloc: Global, ids: u16, walk: &WalkRecord) -> Result<bool, Memory>
    ensures { IfOk result (λ b. Decides b (IsWalkWhole ids walk.now)) }
{
    let maps = walk.maps();
    if !are_units(maps, ids) {
        return Ok(false);
    }
    let seen = ids_seen(alloc, maps)?;
    let tried = are_tried(walk.attempts(), seen.as_slice());
    Ok(tried)
}

/// Whether a walk below the root, if it went through, has a map for each unit, and an attempt for
/// each set bit.
pub fn is_mapped(alloc: Global, ids: u16, walk: &WalkRecord) -> Result<bool, Memory>
    ensures { IfOk result (λ b. Decides b (IsWalkMapped ids walk.now)) }
{
    if walk.group == 0 {
        return Ok(true);
    }
    match walk.answer() {
        WalkAnswer::Walked { .. } => {
            let whole = is_whole(alloc, ids, walk)?;
            Ok(whole)
        }
        _ => Ok(true),
    }
}

/// Whether a walk of the root has no map, and unless it was cut an attempt for each id.
pub fn is_of_root(ids: u16, walk: &WalkRecord) -> bool
    ensures { Decides result (IsOfRoot ids walk.now) }
{
    if walk.group != 0 {
        return true;
    }
    if walk.maps().len() != 0 {
        return false;
    }
    if is_cut(walk.answer()) {
        return true;
    }
    let all = are_all_tried(walk.attempts(), ids);
    all
}

// Whether the ids of all words but the last one are as many as attempts, or fewer.
fn are_before_tried(alloc: Global, maps: &[MapSeen], attempts: usize) -> Result<bool, Memory>
    ensures { IfOk result (λ b. Decides b (AreTried maps.now attempts)) }
{
    if maps.is_empty() {
        return Ok(true);
    }
    let seen = ids_seen(alloc, &maps[..maps.len() - 1])?;
    Ok(seen.len() <= attempts)
}

// Whether the attempts of a walk are the first of those that it was to make.
fn tries_well(alloc: Global, ids: u16, walk: &WalkRecord) -> Result<bool, Memory>
    ensures { IfOk result (λ b. Decides b (AreFirstTries ids walk.now)) }
{
    let attempts = walk.attempts();
    if walk.group == 0 {
        let rise = tries_rise(attempts, ids);
        return Ok(rise);
    }
    let seen = ids_seen(alloc, walk.maps())?;
    let begin = tries_begin(attempts, seen.as_slice());
    Ok(begin)
}

// Whether the maps and the attempts of a walk are the first of those that it was to make.
fn is_begun(alloc: Global, script: &Script, walk: &WalkRecord) -> Result<bool, Memory>
    ensures { IfOk result (λ b. Decides b (IsBegun script.now walk.now)) }
{
    if !units_rise(walk.maps(), script.ids) {
        return Ok(false);
    }
    if !are_before_tried(alloc, walk.maps(), walk.attempts().len())? {
        return Ok(false);
    }
    let well = tries_well(alloc, script.ids, walk)?;
    Ok(well)
}

/// Whether a walk that was cut has the first of the maps and attempts that it was to make.
pub fn is_cut_begun(alloc: Global, script: &Script, walk: &WalkRecord) -> Result<bool, Memory>
    ensures { IfOk result (λ b. Decides b (IsCutBegun script.now walk.now)) }
{
    if !is_cut(walk.answer()) {
        return Ok(true);
    }
    let begun = is_begun(alloc, script, walk)?;
    Ok(begun)
}

// Whether an attempt is the last of a walk that was cut, if its pass ended for want of room.
fn is_room_at(walk: &WalkRecord, k: usize, attempt: &Attempt) -> bool
    ensures { Decides result (IsRoomAt walk.now k attempt.now) }
{
    let Some(pass) = pass_of(&attempt.outcome()) else {
        return true;
    };
    if pass.ending != Ending::NoRoom {
        return true;
    }
    let attempts = walk.attempts().len();
    is_cut(walk.answer()) && k < attempts && attempts - k == 1
}

/// Whether each pass that ended for want of room is the last of a walk that was cut.
pub fn is_room_last(walk: &WalkRecord) -> bool
    ensures { Decides result (IsRoomLast walk.now) }
{
    let attempts = walk.attempts();
    for k in 0..attempts.len() {
        if !is_room_at(walk, k, &attempts[k]) {
            return false;
        }
    }
    true
}

// Whether an outcome may stand in a walk of this group.
fn is_placed(group: u16, outcome: &Outcome) -> bool
    ensures { Decides result (IsPlaced group outcome.now) }
{
    match *outcome {
        Outcome::Worn { .. } => true,
        Outcome::Gone { then, .. } => (group == 0) == (then == GoneThen::Root),
        Outcome::Skip { .. } => true,
        Outcome::Ran { .. } => true,
        Outcome::Empty { .. } => group == 0,
        Outcome::Cleared { first, second, .. } => group != 0 && first <= second,
        Outcome::RestoredSkip { first, version, .. } => group != 0 && first <= version,
        Outcome::RestoredRan { first, pass, .. } => group != 0 && first <= pass.version,
    }
}

/// Whether each outcome may stand in a walk of this group.
pub fn are_placed(group: u16, attempts: &[Attempt]) -> bool
    ensures { Decides result (EachItem (λ a. IsPlaced group a.outcome) attempts.now) }
{
    for attempt in attempts {
        if !is_placed(group, &attempt.outcome()) {
            return false;
        }
    }
    true
}

// What the pass of an attempt freed.
fn freed_in(attempt: &Attempt) -> u64
    ensures { result ≡ attempt_freed attempt.now }
{
    match pass_of(&attempt.outcome()) {
        Some(pass) => pass.freed,
        None => 0,
    }
}

// Whether the passes of these attempts freed so much.
fn frees(attempts: &[Attempt], told: u64) -> bool
    ensures { Decides result (told ≡ sum_by attempt_freed attempts.now) }
{
    let mut left = told;
    for attempt in attempts {
        let freed = freed_in(attempt);
        if freed > left {
            return false;
        }
        left -= freed;
    }
    left == 0
}

/// Whether a walk's answer says of how many objects it freed what its passes freed.
pub fn is_freed_told(walk: &WalkRecord) -> bool
    ensures { Decides result (freed_told walk.now.answer ≡ freed_of walk.now) }
{
    let told = frees(walk.attempts(), freed_told(walk.answer()));
    told
}
