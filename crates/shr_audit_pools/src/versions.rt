// SPDX-License-Identifier: GPL-2.0-only
//! The versions that the walks of the pools of a worker counted at, one walk after another.

ghost use Rattle.std.specs.Prelude.{◌≡◌, ℕ, ◌<◌, ◌≤◌, Some, length, slice_get, IfOk, OnOk};
ghost use Rattle.std.specs.Bool.{Decides};
ghost use Rattle.shr_base.specs.declared.ends.WorkerPart.{WorkerPart};
ghost use Rattle.shr_audit_formed.specs.Each.{EachItem};
ghost use Rattle.shr_laws.specs.Pools.{version_in};
ghost use Rattle.shr_laws.specs.WellFormed.{IsWellFormed};
ghost use Rattle.shr_audit_pools.specs.Due.{PoolWalksByCommand};
ghost use Rattle.shr_audit_pools.specs.Lows.{AreAllVersed, HaveFewTries, IsPartVersed, IsWalkHigh, NotesReplies, NotesTries};

use crate::lows::{low_at, no_lows, raise};
use crate::places::home_of;
use crate::rising::note_reply;
use shr_base::ends::WorkerPart;
use shr_base::memory::Memory;
use shr_base::replies::Answered;
use shr_base::scripts::Script;
use shr_base::walks::{PlainTry, PlainWalk};
use shr_laws::report::Report;
use std::alloc::Global;
use std::collections::HashMap;

/// The version that a try counted at.
pub(crate) fn version_in(tried: &PlainTry) -> u32
    ensures { result ≡ version_in tried.now }
{
    match tried {
        PlainTry::Empty { version } => *version,
        PlainTry::Skip { version, .. } => *version,
        PlainTry::Ran { pass } => pass.version,
    }
}

// Whether no try of a walk counted at a version that is too low at its place.
fn is_walk_high(script: &Script, lows: &HashMap<u64, u64>, walk: &PlainWalk) -> bool
    requires { length walk.now.tries.items ≤ 256 }
    ensures high { Decides result (IsWalkHigh script.now lows.now walk.now) }
    ensures small { walk.now.node < 256 }
{
    let node = walk.node;
    let tries = walk.tries.as_slice();
    for pool in 0..tries.len() {
        let place = home_of(script, pool as u8, node);
        if low_at(lows, place) > version_in(&tries[pool]) as u64 {
            return false;
        }
    }
    true
}

// Notes the versions of a walk.
fn note_walk(script: &Script, lows: &mut HashMap<u64, u64>, walk: &PlainWalk) -> Result<(), Memory>
    requires { length walk.now.tries.items ≤ 256 }
    ensures { OnOk result (NotesTries script.now walk.now (length walk.now.tries.items)
        lows.old lows.new) }
{
    let tries = walk.tries.as_slice();
    for pool in 0..tries.len() {
        let place = home_of(script, pool as u8, walk.node);
        raise(lows, place, version_in(&tries[pool]) as u64)?;
    }
    Ok(())
}

// Notes what the replies of these numbers cite.
fn note_replies(
    lows: &mut HashMap<u64, u64>,
    answers: &[Answered],
    from: usize,
    to: usize,
) -> Result<(), Memory>
    requires order { from ≤ to }
    requires within { to ≤ length answers.now }
    ensures { OnOk result (NotesReplies answers.now from to lows.old lows.new) }
{
    for k in from..to {
        note_reply(lows, &answers[k].reply)?;
    }
    Ok(())
}

// Whether each version of the walks of the pools of a worker is above what its earlier replies cite
// at its place, and none is below one before it there.
fn is_part_versed(alloc: Global, script: &Script, part: &WorkerPart) -> Result<bool, Memory>
    requires stand { PoolWalksByCommand part.now.plain.items }
    requires own { EachItem (λ w. w.by.command < length part.now.answers.items)
        part.now.plain.items }
    requires few { EachItem (λ w. length w.tries.items ≤ 256) part.now.plain.items }
    ensures { IfOk result (λ b. Decides b (IsPartVersed script.now part.now)) }
{
    let walks = part.plain.as_slice();
    let answers = part.answers.as_slice();
    let mut lows = no_lows(alloc);
    let mut known = 0;
    for n in 0..walks.len() {
        let walk = &walks[n];
        let command = walk.by.command as usize;
        note_replies(&mut lows, answers, known, command)?;
        known = command;
        if !is_walk_high(script, &lows, walk) {
            return Ok(false);
        }
        note_walk(script, &mut lows, walk)?;
    }
    Ok(true)
}

/// The same of all workers.
pub(crate) fn are_all_versed(
    alloc: Global,
    script: &Script,
    report: &Report,
) -> Result<bool, Memory>
    requires well { IsWellFormed report.now }
    requires few { HaveFewTries report.now.workers.items }
    ensures { IfOk result (λ b. Decides b (AreAllVersed script.now report.now.workers.items)) }
{
    let parts = report.workers.as_slice();
    for worker in 0..parts.len() {
        if !is_part_versed(alloc, script, &parts[worker])? {
            return Ok(false);
        }
    }
    Ok(true)
}
