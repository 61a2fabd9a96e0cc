// SPDX-License-Identifier: GPL-2.0-only
//! Finding a cache by its declaration.

ghost use Rattle.std.specs.Prelude.{◌≡◌, ◌<◌, ℕ, length};
ghost use Rattle.shr_model.specs.Pool.{phase_of};
ghost use Rattle.shr_core.specs.Parts.{no_rooms};
ghost use Rattle.shr_core.specs.Seats.{IsMet, view_of, shape_of};
ghost use Rattle.shr_core.specs.Tells.{HasPool, pool_of};
ghost use Rattle.shr_registry.specs.declared.answers.FindAnswer.TheVariants as found;
ghost use Rattle.shr_registry.specs.Adding.{IsFree};
ghost use Rattle.shr_registry.specs.Answers.{FindGives, IsDatedBy};

use crate::answers::FindAnswer;
use crate::searching::live_id;
use shr_base::replies::Spent;
use shr_core::lookups::Lookup;
use shr_core::seat::{Met, Seat};
use std::sync::Wait;

// What is found with the pool in hand, and the phase of the id that is held.
struct Meeting {
    answer: FindAnswer,
    phase: u16,
}

// What is found with the pool in hand, after this many entries.
fn meet(seat: &mut Seat<'_>, decl: u8, entry: u32) -> Meeting
    requires pool { HasPool (shape_of seat.old.core) (view_of seat.old) }
    requires free { IsFree (view_of seat.old) }
    requires entry { entry ≡ length (pool_of (shape_of seat.old.core) (view_of seat.old)) }
    ensures table { seat.new.core ≡ seat.old.core }
    ensures holding { (view_of seat.new).holding ≡ (view_of seat.old).holding }
    ensures known { (view_of seat.new).turns.known ≡ (view_of seat.old).turns.known }
    ensures answer { FindGives (shape_of seat.old.core) (view_of seat.old) decl
        (pool_of (shape_of seat.old.core) (view_of seat.old)) 0 result.answer (view_of seat.new) }
    ensures phase { (id number entry : ℕ) → result.answer ≡ found.Held id number entry
        → result.phase ≡ phase_of id (pool_of (shape_of seat.old.core) (view_of seat.old)) }
{
    let Some(id) = live_id(seat, decl) else {
        return Meeting {
            answer: FindAnswer::NoCache { entry },
            phase: 0,
        };
    };
    let phase = seat.word_of(id).phase;
    let answer = match seat.lookup(id) {
        Lookup::Held { number, decl: _ } => FindAnswer::Held { id, number, entry },
        Lookup::Worn { seen } => FindAnswer::Worn {
            spent: Spent::Lookups { id, seen },
        },
        Lookup::Gone { number: _ } => unreachable!(),
    };
    Meeting { answer, phase }
}

// The seat keeps the registration in which it found the id, by all that it knows of the journal.
fn remember(seat: &mut Seat<'_>, decl: u8, met: Meeting) -> FindAnswer
    requires met { (id number entry : ℕ) → met.answer ≡ found.Held id number entry
        → IsMet (shape_of seat.old.core) (view_of seat.old).turns.known
        (record { decl = decl; id = id; phase = met.phase; entry = entry }) }
    ensures same { seat.new ≡ seat.old }
    ensures answer { result ≡ met.answer }
{
    let Meeting { answer, phase } = met;
    if let FindAnswer::Held {
        id,
        number: _,
        entry,
    } = answer
    {
        seat.keep(Met {
            decl,
            id,
            phase,
            entry,
        });
    }
    answer
}

// Finds it by the pool's journal, whose room is taken.
fn find_in_pool<R: Wait>(rt: &R, seat: &mut Seat<'_>, decl: u8) -> FindAnswer
    requires rooms { (view_of seat.old).holding ≡ no_rooms }
    requires free { IsFree (view_of seat.old) }
    ensures table { seat.new.core ≡ seat.old.core }
    ensures rooms { (view_of seat.new).holding ≡ no_rooms }
    ensures answer { FindGives (shape_of seat.old.core) (view_of seat.old) decl
        (view_of seat.new).turns.known 1 result (view_of seat.new) }
    ensures dated { IsDatedBy result (view_of seat.new) }
{
    let pool = seat.take_pool(rt);
    let met = meet(seat, decl, pool.entries.len() as u32);
    seat.give_pool(pool);
    remember(seat, decl, met)
}

/// Finds the id that is live with a declaration, and takes a reference to it. The seat holds
/// nothing, owns nothing and has no room in hand.
///
/// The answer is by the pool's journal of `entry` entries, which the seat then knows. On `NoCache`
/// and `Worn` the seat holds nothing. An id that is held is dated: the registration in which the
/// lookup's number lies ends only after that lookup. It takes no memory.
///
/// Where the seat found this declaration last, and has not met the journal since, it looks up the id
/// in the phase that it knows, which takes no room. Else, or if the id has another phase, it takes
/// the journal's room, and loads each id's word at most once to find it.
///
/// Linux: `idr_find` and `shrinker_try_get` in `shrink_slab_memcg` of mm/shrinker.c, where the id
/// comes from the map.
pub fn find<R: Wait>(rt: &R, seat: &mut Seat<'_>, decl: u8) -> FindAnswer
    requires rooms { (view_of seat.old).holding ≡ no_rooms }
    requires free { IsFree (view_of seat.old) }
    requires decl { decl < (shape_of seat.old.core).decls }
    ensures table { seat.new.core ≡ seat.old.core }
    ensures rooms { (view_of seat.new).holding ≡ no_rooms }
    ensures answer { FindGives (shape_of seat.old.core) (view_of seat.old) decl
        (view_of seat.new).turns.known 1 result (view_of seat.new) }
    ensures dated { IsDatedBy result (view_of seat.new) }
{
    if let Some(again) = seat.lookup_again(decl) {
        return FindAnswer::Held {
            id: again.id,
            number: again.number,
            entry: again.entry,
        };
    }
    find_in_pool(rt, seat, decl)
}
