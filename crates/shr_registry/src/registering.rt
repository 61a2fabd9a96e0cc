// SPDX-License-Identifier: GPL-2.0-only
//! Registering a cache.

ghost use Rattle.std.specs.Prelude.{◌≡◌, ◌<◌, ◌≤◌, ◌*◌, length, true};
ghost use Rattle.shr_seats.specs.Standing.{IsWhole};
ghost use Rattle.shr_seats.specs.Weights.{Begins};
ghost use Rattle.shr_model.specs.PoolEnds.{dying_in};
ghost use Rattle.shr_core.specs.Parts.{no_rooms};
ghost use Rattle.shr_core.specs.Seats.{view_of, shape_of};
ghost use Rattle.shr_registry.specs.Adding.{only_pool, IsFree};
ghost use Rattle.shr_registry.specs.Answers.{RegisterGives};

use crate::answers::RegisterAnswer;
use crate::searching::{free_id, live_id};
use shr_base::journals::PoolEntry;
use shr_base::log::Log;
use shr_core::seat::Seat;
use std::sync::Wait;

// Registers a declaration with the pool in hand, whose journal is this one.
fn enter(seat: &mut Seat<'_>, decl: u8, entries: &mut Log<PoolEntry>) -> RegisterAnswer
    requires pool { (view_of seat.old).holding ≡ only_pool (shape_of seat.old.core) entries.old.items }
    requires free { IsFree (view_of seat.old) }
    requires decl { decl < (shape_of seat.old.core).decls }
    requires spare { dying_in (shape_of seat.old.core).ids entries.old.items ≤ entries.old.spare }
    requires few { length entries.old.items ≤ 65535 * (shape_of seat.old.core).ids }
    requires seen { Begins (view_of seat.old).turns.known entries.old.items }
    ensures table { seat.new.core ≡ seat.old.core }
    ensures pool { (view_of seat.new).holding ≡ only_pool (shape_of seat.old.core) entries.new.items }
    ensures spare { dying_in (shape_of seat.old.core).ids entries.new.items ≤ entries.new.spare }
    ensures known { (view_of seat.new).turns.known ≡ (view_of seat.old).turns.known }
    ensures longer { Begins entries.old.items entries.new.items }
    ensures answer { RegisterGives seat.old.core.setting (view_of seat.old) decl entries.new.items 0
        result (view_of seat.new) }
    ensures made { length entries.old.items ≤ length (view_of seat.old).turns.made
        → length entries.new.items ≤ length (view_of seat.new).turns.made }
{
    let entry = entries.len() as u32;
    if let Some(_live) = live_id(seat, decl) {
        return RegisterAnswer::AlreadyRegistered { entry };
    }
    let Some(id) = free_id(seat) else {
        return RegisterAnswer::NoId { entry };
    };
    // Beside the new entry the journal keeps a spare for each id that is dying.
    let Ok(()) = entries.reserve(seat.core().shape().ids as usize + 1) else {
        return RegisterAnswer::Memory;
    };
    let word = seat.phase(id, decl);
    entries.push(PoolEntry::Registered {
        decl,
        id,
        from: word.lookups,
    });
    RegisterAnswer::Registered { id, entry }
}

/// Registers a cache by its declaration with the lowest idle id that has two phases left. The seat
/// holds nothing, owns nothing and has no room in hand.
///
/// The answers are tried in this order: `AlreadyRegistered`, `NoId`, `Memory`, `Registered`. Each
/// is by the pool's journal, which the seat then knows, and on the first three nothing is
/// registered.
///
/// Linux: `shrinker_alloc` and `shrinker_register` in mm/shrinker.c. There an id comes from the idr
/// at the allocation, and a shrinker is registered once.
pub fn register<R: Wait>(rt: &R, seat: &mut Seat<'_>, decl: u8) -> RegisterAnswer
    requires rooms { (view_of seat.old).holding ≡ no_rooms }
    requires free { IsFree (view_of seat.old) }
    requires decl { decl < (shape_of seat.old.core).decls }
    ensures table { seat.new.core ≡ seat.old.core }
    ensures rooms { (view_of seat.new).holding ≡ no_rooms }
    ensures answer { RegisterGives seat.old.core.setting (view_of seat.old) decl
        (view_of seat.new).turns.known 1 result (view_of seat.new) }
    // A seat that is alone has made all that it then knows.
    ensures alone { (view_of seat.old).standing.first ≡ true
        → IsWhole (view_of seat.old).standing
        → length (view_of seat.new).turns.known ≤ length (view_of seat.new).turns.made }
{
    let mut pool = seat.take_pool(rt);
    let answer = enter(seat, decl, &mut pool.entries);
    seat.give_pool(pool);
    answer
}
