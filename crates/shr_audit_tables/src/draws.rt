// SPDX-License-Identifier: GPL-2.0-only
//! The numbers of lookups: whether those of each id are 0, 1 and so on, each drawn once.

ghost use Rattle.std.specs.Prelude.{◌≡◌, ◌++◌, ◌∷◌, [], ◌+◌, ◌*◌, ◌<◌, ◌≤◌, ◌^◌, map, flat_map, sum, length, IfOk, OnOk};
ghost use Rattle.std.specs.Bool.{Decides};
ghost use Rattle.std.specs.List.{range_with_len};
ghost use Rattle.shr_model.specs.Attempts.{number_of};
ghost use Rattle.shr_laws.specs.Numbers.{HasNumbers};
ghost use Rattle.shr_laws.specs.WellFormed.{IsWellFormed};
ghost use Rattle.shr_audit_formed.specs.Each.{EachItem};
ghost use Rattle.shr_audit_tables.specs.Draws.{AreDrawnOnce, IsDrawn, answer_draws, attempt_draws, draw_key, drawn_move, part_draws, walk_draws, wanted_move, wanted_from};

use shr_audit_case::moves::{Move, is_settled};
use shr_base::attempts::Attempt;
use shr_base::ends::WorkerPart;
use shr_base::memory::Memory;
use shr_base::replies::Answered;
use shr_base::walks::{Outcome, WalkRecord};
use shr_laws::report::Report;
use std::alloc::Global;

// A lookup of an id, by one number.
fn draw_key(id: u16, number: u32) -> u64
    ensures { result ≡ draw_key id number }
{
    0x1_0000_0000 * id as u64 + number as u64
}

// The number of the lookup, where there was one.
fn number_of(outcome: &Outcome) -> Option<u32>
    ensures { result ≡ number_of outcome.now }
{
    match *outcome {
        Outcome::Worn { .. } => None,
        Outcome::Gone { number, .. } => Some(number),
        Outcome::Skip { number, .. } => Some(number),
        Outcome::Ran { number, .. } => Some(number),
        Outcome::Empty { number, .. } => Some(number),
        Outcome::Cleared { number, .. } => Some(number),
        Outcome::RestoredSkip { number, .. } => Some(number),
        Outcome::RestoredRan { number, .. } => Some(number),
    }
}

// Adds the lookup that found a cache, if the command found one.
fn note_answer(keys: &mut Vec<u64>, answer: &Answered) -> Result<(), Memory>
    ensures { OnOk result (keys.new.items ≡ keys.old.items ++ answer_draws answer.now) }
{
    if let Some(found) = answer.found {
        keys.push(draw_key(found.id, found.number))?;
    }
    Ok(())
}

// Adds the lookup of an attempt, if it made one.
fn note_attempt(keys: &mut Vec<u64>, attempt: &Attempt) -> Result<(), Memory>
    ensures { OnOk result (keys.new.items ≡ keys.old.items ++ attempt_draws attempt.now) }
{
    if let Some(number) = number_of(&attempt.outcome()) {
        keys.push(draw_key(attempt.id, number))?;
    }
    Ok(())
}

// Adds those of answers.
fn note_answers(keys: &mut Vec<u64>, answers: &[Answered]) -> Result<(), Memory>
    ensures { OnOk result (keys.new.items ≡ keys.old.items ++ flat_map answer_draws answers.now) }
{
    for answer in answers {
        note_answer(keys, answer)?;
    }
    Ok(())
}

// Adds those of attempts.
fn note_attempts(keys: &mut Vec<u64>, attempts: &[Attempt]) -> Result<(), Memory>
    ensures { OnOk result (keys.new.items ≡ keys.old.items ++ flat_map attempt_draws attempts.now) }
{
    for attempt in attempts {
        note_attempt(keys, attempt)?;
    }
    Ok(())
}

// Adds those of walks.
fn note_walks(keys: &mut Vec<u64>, walks: &[WalkRecord]) -> Result<(), Memory>
    ensures { OnOk result (keys.new.items ≡ keys.old.items ++ flat_map walk_draws walks.now) }
{
    for walk in walks {
        note_attempts(keys, walk.attempts())?;
    }
    Ok(())
}

// Adds those of a worker.
fn note_part(keys: &mut Vec<u64>, part: &WorkerPart) -> Result<(), Memory>
    ensures { OnOk result (keys.new.items ≡ keys.old.items ++ part_draws part.now) }
{
    note_answers(keys, part.answers.as_slice())?;
    note_walks(keys, part.walks.as_slice())?;
    Ok(())
}

// Adds those of workers.
fn note_parts(keys: &mut Vec<u64>, parts: &[WorkerPart]) -> Result<(), Memory>
    ensures { OnOk result (keys.new.items ≡ keys.old.items ++ flat_map part_draws parts.now) }
{
    for part in parts {
        note_part(keys, part)?;
    }
    Ok(())
}

// How many there are.
fn count_of(keys: &[u64]) -> usize
    ensures count { result ≡ length keys.now }
    ensures small { length keys.now < 2 ^ 64 }
{
    keys.len()
}

// Whether these come to no more than so many.
fn are_few(lookups: &[u32], draws: usize) -> bool
    ensures { Decides result (sum lookups.now ≤ draws) }
{
    let mut left = draws;
    for count in lookups {
        if *count as usize > left {
            return false;
        }
        left -= *count as usize;
    }
    true
}

// Adds a draw for each of these.
fn add_drawn(moves: &mut Vec<Move>, keys: &[u64]) -> Result<(), Memory>
    ensures { OnOk result (moves.new.items ≡ moves.old.items ++ map drawn_move keys.now) }
{
    for key in keys {
        moves.push(Move {
            key: *key,
            up: 1,
            down: 0,
        })?;
    }
    Ok(())
}

// Adds that the numbers of an id up to its lookups are wanted.
fn add_numbers(moves: &mut Vec<Move>, id: u16, count: u32) -> Result<(), Memory>
    ensures { OnOk result (moves.new.items
        ≡ moves.old.items ++ map (λ n. wanted_move (draw_key id n)) (range_with_len 0 count)) }
{
    for number in 0..count {
        moves.push(Move {
            key: draw_key(id, number),
            up: 0,
            down: 1,
        })?;
    }
    Ok(())
}

// Adds the same of each id.
fn add_wanted(moves: &mut Vec<Move>, lookups: &[u32]) -> Result<(), Memory>
    requires { length lookups.now < 2 ^ 16 }
    ensures { OnOk result (moves.new.items ≡ moves.old.items ++ wanted_from 0 lookups.now) }
{
    for id in 0..lookups.len() {
        add_numbers(moves, id as u16, lookups[id])?;
    }
    Ok(())
}

// Whether the numbers drawn of each id are those from 0 up to its lookups, each once.
fn are_drawn_once(alloc: Global, keys: &[u64], lookups: &[u32]) -> Result<bool, Memory>
    requires few { length lookups.now < 2 ^ 16 }
    requires counts { EachItem (λ n. n < 2 ^ 32) lookups.now }
    ensures { IfOk result (λ b. Decides b (AreDrawnOnce keys.now lookups.now)) }
{
    if !are_few(lookups, count_of(keys)) {
        return Ok(false);
    }
    let mut moves = Vec::new(alloc);
    add_drawn(&mut moves, keys)?;
    add_wanted(&mut moves, lookups)?;
    let settled = is_settled(moves)?;
    Ok(settled)
}

/// Whether the numbers of the lookups that found caches, and of those that walks made, are for each
/// id those from 0 up to its lookups, each once. It sorts all lookups once.
pub fn is_drawn(alloc: Global, report: &Report) -> Result<bool, Memory>
    requires well { IsWellFormed report.now }
    requires numbers { HasNumbers report.now }
    ensures { IfOk result (λ b. Decides b (IsDrawn report.now)) }
{
    let mut keys = Vec::new(alloc);
    note_parts(&mut keys, report.workers.as_slice())?;
    let drawn = are_drawn_once(alloc, keys.as_slice(), report.lookups.as_slice())?;
    Ok(drawn)
}
