// SPDX-License-Identifier: GPL-2.0-only
//! Deferred words: whether each is what passes and carries gave less what they took.

ghost use Rattle.std.specs.Prelude.{◌≡◌, ◌<◌, ◌^◌, OnOk, IfOk, cond, sum_by, flat_map};
ghost use Rattle.shr_base.specs.declared.walks.PassRecord.{PassRecord};
ghost use Rattle.shr_base.specs.declared.walks.Carry.{Carry};
ghost use Rattle.shr_model.specs.Attempts.{pass_of};
ghost use Rattle.shr_model.specs.Places.{is_place};
ghost use Rattle.shr_model.specs.Amounts.{sum_at};
ghost use Rattle.shr_model.specs.Moves.{is_below, given_at, taken_at};
ghost use Rattle.shr_model.specs.Deferred.{deferred_word};
ghost use Rattle.std.specs.Bool.{Decides};
ghost use Rattle.shr_base.specs.declared.places.Place.{Place};
ghost use Rattle.shr_model.specs.Walks.{passes_at};
ghost use Rattle.shr_audit_case.specs.Deferred.{deferred_key, GainsAtEach, IsNarrow, carried_to, carried_from};

use crate::moves::{Move, is_settled};
use shr_base::ends::PlaceAmount;
use shr_base::memory::Memory;
use shr_base::places::Place;
use shr_base::walks::{Carry, Outcome, PassRecord, WalkRecord};
use std::alloc::Global;

// A place by one number.
fn place_key(place: Place) -> u64
    ensures { result ≡ deferred_key place }
{
    16_777_216 * place.id as u64 + 65_536 * place.node as u64 + place.group as u64
}

// Adds a move at a place.
fn note(moves: &mut Vec<Move>, place: Place, up: u64, down: u64) -> Result<(), Memory>
    ensures { OnOk result (GainsAtEach (λ p. cond (is_place p place) up 0)
        (λ p. cond (is_place p place) down 0) moves.old.items moves.new.items) }
{
    let key = place_key(place);
    moves.push(Move { key, up, down })?;
    Ok(())
}

/// Adds the printed words: each is what was given there and not taken. On `Memory` some are added.
pub fn note_words(moves: &mut Vec<Move>, words: &[PlaceAmount]) -> Result<(), Memory>
    ensures { OnOk result (GainsAtEach (λ p. 0) (λ p. sum_at p words.now)
        moves.old.items moves.new.items) }
{
    for word in words {
        note(moves, word.place, 0, word.amount)?;
    }
    Ok(())
}

// The pass of an attempt, where one ran.
fn pass_of(outcome: &Outcome) -> Option<PassRecord>
    ensures { result ≡ pass_of outcome.now }
{
    match *outcome {
        Outcome::Ran { pass, .. } => Some(pass),
        Outcome::RestoredRan { pass, .. } => Some(pass),
        _ => None,
    }
}

// Adds what the passes of a walk deferred, and took over.
fn note_walk(moves: &mut Vec<Move>, walk: &WalkRecord) -> Result<(), Memory>
    ensures { OnOk result (GainsAtEach
        (λ p. sum_by (λ (x : PassRecord). x.next) (passes_at p walk.now))
        (λ p. sum_by (λ (x : PassRecord). x.nr) (passes_at p walk.now))
        moves.old.items moves.new.items) }
{
    for attempt in walk.attempts() {
        if let Some(pass) = pass_of(&attempt.outcome()) {
            let place = Place {
                id: attempt.id,
                node: walk.node,
                group: walk.group,
            };
            note(moves, place, pass.next, pass.nr)?;
        }
    }
    Ok(())
}

// Adds what a carry took at its place, and what it gave at the place of the parent group.
fn note_carry(moves: &mut Vec<Move>, parents: &[u16], carry: &Carry) -> Result<(), Memory>
    ensures { OnOk result (GainsAtEach
        (λ p. cond (is_below parents.now p carry.now.place) carry.now.amount 0)
        (λ p. cond (is_place p carry.now.place) carry.now.amount 0)
        moves.old.items moves.new.items) }
{
    note(moves, carry.place, 0, carry.amount)?;
    let group = carry.place.group as usize;
    if 0 < group && group < parents.len() {
        let place = Place {
            id: carry.place.id,
            node: carry.place.node,
            group: parents[group],
        };
        note(moves, place, carry.amount, 0)?;
    }
    Ok(())
}

/// Adds the passes of walks. On `Memory` some are added.
pub fn note_walks(moves: &mut Vec<Move>, walks: &[WalkRecord]) -> Result<(), Memory>
    ensures { OnOk result (GainsAtEach
        (λ p. sum_by (λ (x : PassRecord). x.next) (flat_map (passes_at p) walks.now))
        (λ p. sum_by (λ (x : PassRecord). x.nr) (flat_map (passes_at p) walks.now))
        moves.old.items moves.new.items) }
{
    for walk in walks {
        note_walk(moves, walk)?;
    }
    Ok(())
}

/// Adds carries: each takes at its place and gives at that of the parent group. On `Memory` some are
/// added.
pub fn note_carries(moves: &mut Vec<Move>, parents: &[u16], carries: &[Carry]) -> Result<(), Memory>
    ensures { OnOk result (GainsAtEach (λ p. sum_by (carried_to parents.now p) carries.now)
        (λ p. sum_by (carried_from p) carries.now) moves.old.items moves.new.items) }
{
    for carry in carries {
        note_carry(moves, parents, carry)?;
    }
    Ok(())
}

/// Whether each printed word is what passes and carries gave to its place less what they took,
/// modulo 2^64.
pub fn words_settle(
    alloc: Global,
    parents: &[u16],
    walks: &[WalkRecord],
    carries: &[Carry],
    words: &[PlaceAmount],
) -> Result<bool, Memory>
    requires { (p : Place) → sum_at p words.now < 2 ^ 64 }
    ensures { IfOk result (λ b. Decides b ((p : Place) → IsNarrow p → sum_at p words.now
        ≡ deferred_word (given_at parents.now walks.now carries.now p)
        (taken_at walks.now carries.now p))) }
{
    let mut moves = Vec::new(alloc);
    note_words(&mut moves, words)?;
    note_walks(&mut moves, walks)?;
    note_carries(&mut moves, parents, carries)?;
    let settled = is_settled(moves)?;
    Ok(settled)
}
