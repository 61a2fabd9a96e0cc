// SPDX-License-Identifier: GPL-2.0-only
//! The deferred words of pools.

ghost use Rattle.std.specs.Prelude.{◌≡◌, ◌≤◌, cond, length, sum_by, IfOk, OnOk};
ghost use Rattle.std.specs.Bool.{Decides};
ghost use Rattle.shr_audit_formed.specs.Each.{EachItem};
ghost use Rattle.shr_model.specs.Places.{is_place};
ghost use Rattle.shr_laws.specs.Numbers.{HasNumbers};
ghost use Rattle.shr_laws.specs.UnitParts.{pass_in};
ghost use Rattle.shr_laws.specs.WellFormed.{IsWellFormed};
ghost use Rattle.shr_audit_case.specs.Deferred.{GainsAtEach};
ghost use Rattle.shr_audit_pools.specs.Lows.{HaveFewTries};
ghost use Rattle.shr_audit_pools.specs.Moved.{ArePoolWordsRight, moved_at, moved_by_worker, pass_next, nr_of, said_of_pass};
ghost use Rattle.shr_audit_pools.specs.Places.{named_place};

use crate::places::{PoolPlace, home_of, key_of};
use shr_audit_case::deferred::note_words;
use shr_audit_case::moves::{Move, is_settled};
use shr_base::ends::WorkerPart;
use shr_base::memory::Memory;
use shr_base::scripts::Script;
use shr_base::walks::{PlainTry, PlainWalk};
use shr_laws::report::Report;
use std::alloc::Global;

// Adds what the pass of a try at a place deferred, and what it took over, if it ran one.
fn note_try(moves: &mut Vec<Move>, place: PoolPlace, tried: &PlainTry) -> Result<(), Memory>
    ensures { OnOk result (GainsAtEach
        (λ p. cond (is_place p (named_place place)) (said_of_pass pass_next (pass_in tried.now)) 0)
        (λ p. cond (is_place p (named_place place)) (said_of_pass nr_of (pass_in tried.now)) 0)
        moves.old.items moves.new.items) }
{
    match tried {
        PlainTry::Ran { pass } => {
            let key = 0x1_0000 * key_of(place) as u64;
            moves.push(Move {
                key,
                up: pass.next,
                down: pass.nr,
            })?;
            Ok(())
        }
        _ => Ok(()),
    }
}

// The same of those of a walk of the pools.
fn note_walk(script: &Script, moves: &mut Vec<Move>, walk: &PlainWalk) -> Result<(), Memory>
    requires { length walk.now.tries.items ≤ 256 }
    ensures { OnOk result (GainsAtEach (λ p. moved_at pass_next script.now p walk.now)
        (λ p. moved_at nr_of script.now p walk.now) moves.old.items moves.new.items) }
{
    let tries = walk.tries.as_slice();
    for pool in 0..tries.len() {
        let place = home_of(script, pool as u8, walk.node);
        note_try(moves, place, &tries[pool])?;
    }
    Ok(())
}

// The same of those of a worker.
fn note_part(script: &Script, moves: &mut Vec<Move>, part: &WorkerPart) -> Result<(), Memory>
    requires { EachItem (λ w. length w.tries.items ≤ 256) part.now.plain.items }
    ensures { OnOk result (GainsAtEach (λ p. moved_by_worker pass_next script.now p part.now)
        (λ p. moved_by_worker nr_of script.now p part.now) moves.old.items moves.new.items) }
{
    for walk in part.plain.as_slice() {
        note_walk(script, moves, walk)?;
    }
    Ok(())
}

// The same of all workers.
fn note_parts(script: &Script, moves: &mut Vec<Move>, parts: &[WorkerPart]) -> Result<(), Memory>
    requires { HaveFewTries parts.now }
    ensures { OnOk result (GainsAtEach
        (λ p. sum_by (moved_by_worker pass_next script.now p) parts.now)
        (λ p. sum_by (moved_by_worker nr_of script.now p) parts.now)
        moves.old.items moves.new.items) }
{
    for part in parts {
        note_part(script, moves, part)?;
    }
    Ok(())
}

/// Whether each deferred word of a pool is what the passes there deferred less what they took over.
pub(crate) fn are_words_right(
    alloc: Global,
    script: &Script,
    report: &Report,
) -> Result<bool, Memory>
    requires well { IsWellFormed report.now }
    requires numbers { HasNumbers report.now }
    requires few { HaveFewTries report.now.workers.items }
    ensures { IfOk result (λ b. Decides b (ArePoolWordsRight script.now report.now)) }
{
    let mut moves = Vec::new(alloc);
    note_words(&mut moves, report.pool_deferred.as_slice())?;
    note_parts(script, &mut moves, report.workers.as_slice())?;
    let settled = is_settled(moves)?;
    Ok(settled)
}
