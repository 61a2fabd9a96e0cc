// SPDX-License-Identifier: GPL-2.0-only
//! The two phase steps that end a registration: from live to dying, and from dying to idle.

ghost use Rattle.std.specs.Prelude.{◌≡◌, ◌+◌, ◌*◌, ◌<◌, ◌≤◌, ℕ, List, [], ◌∷◌, ◌++◌, length, true, IfSome, Some, None};
ghost use Rattle.shr_base.specs.declared.journals.PoolEntry.{PoolEntry as PoolEntryValue};
ghost use Rattle.shr_base.specs.declared.journals.PoolEntry.TheVariants.{Idle};
ghost use Rattle.shr_model.specs.PoolEnds.{dying_in};
ghost use Rattle.shr_model.specs.Pool.{from_of, from_after};
ghost use Rattle.shr_seats.specs.Weights.{Begins};
ghost use Rattle.shr_core.specs.Parts.{Turn, no_rooms};
ghost use Rattle.shr_seats.specs.Views.{Each};
ghost use Rattle.shr_core.specs.Rule.{mark_of};
ghost use Rattle.shr_core.specs.Seats.{view_of, shape_of};
ghost use Rattle.shr_registry.specs.Adding.{only_pool, IsFree};
ghost use Rattle.shr_registry.specs.Ending.{RetireGives, Rests};

use crate::searching::live_id;
use shr_base::journals::PoolEntry;
use shr_base::log::Log;
use shr_core::seat::Seat;
use std::sync::Wait;

/// What the step from live to dying answers.
#[derive(Clone, Copy)]
pub enum Retired {
    /// The declaration is not live.
    NoCache {
        entry: u32,
    },
    /// There was no memory, and nothing changed.
    Memory,
    /// The id is dying and the seat owns it. `entry` is the Unregistered.
    Dying {
        id: u16,
        entry: u32,
        from: u32,
        to: u32,
    },
}

// The number where a registration of an id begins, if the entry begins one.
fn begun(entry: PoolEntry, id: u16) -> Option<u32>
    ensures begun { IfSome result (λ from. (before : ℕ) → from_after id before entry ≡ from) }
    ensures other { result ≡ None → (before : ℕ) → from_after id before entry ≡ before }
{
    match entry {
        PoolEntry::Registered {
            decl: _,
            id: other,
            from,
        } => { if other == id { Some(from) } else { None } }
        PoolEntry::Unregistered {
            decl: _,
            id: _,
            to: _,
        } => None,
        PoolEntry::Idle { id: _ } => None,
    }
}

// The number where the last registration of an id begins. It is looked for from the end, where that of a live id is
// mostly near.
fn last_begun(entries: &Log<PoolEntry>, id: u16) -> u32
    ensures { result ≡ from_of id entries.now.items }
{
    let entries = entries.as_slice();
    let mut left = entries.len();
    while left > 0 {
        left -= 1;
        if let Some(from) = begun(entries[left], id) {
            return from;
        }
    }
    0
}

// The step to dying with the pool in hand, whose journal is this one.
fn end(seat: &mut Seat<'_>, decl: u8, entries: &mut Log<PoolEntry>) -> Retired
    requires pool { (view_of seat.old).holding ≡ only_pool (shape_of seat.old.core) entries.old.items }
    requires free { IsFree (view_of seat.old) }
    requires decl { decl < (shape_of seat.old.core).decls }
    requires spare { dying_in (shape_of seat.old.core).ids entries.old.items ≤ entries.old.spare }
    requires few { length entries.old.items ≤ 65535 * (shape_of seat.old.core).ids }
    requires seen { Begins (view_of seat.old).turns.known entries.old.items }
    requires later { Each (λ (x : Turn). x.number < length entries.old.items)
        (view_of seat.old).turns.made }
    ensures table { seat.new.core ≡ seat.old.core }
    ensures pool { (view_of seat.new).holding ≡ only_pool (shape_of seat.old.core) entries.new.items }
    ensures spare { dying_in (shape_of seat.old.core).ids entries.new.items ≤ entries.new.spare }
    ensures known { (view_of seat.new).turns.known ≡ (view_of seat.old).turns.known }
    ensures longer { Begins entries.old.items entries.new.items }
    ensures answer { RetireGives (shape_of seat.old.core) (view_of seat.old) decl entries.new.items 0
        result (view_of seat.new) }
{
    let entry = entries.len() as u32;
    let Some(id) = live_id(seat, decl) else {
        return Retired::NoCache { entry };
    };
    // Beside the Unregistered the journal keeps a spare for each id that is dying: this id's is for
    // its Idle.
    let Ok(()) = entries.reserve(seat.core().shape().ids as usize + 1) else {
        return Retired::Memory;
    };
    let from = last_begun(entries, id);
    let word = seat.phase(id, decl);
    let to = word.lookups;
    entries.push(PoolEntry::Unregistered { decl, id, to });
    Retired::Dying {
        id,
        entry,
        from,
        to,
    }
}

/// Makes the id of a live declaration dying. From then on each lookup of the id fails until it is
/// live again.
///
/// Linux: the `shrinker_put` of the first reference in `shrinker_free` of mm/shrinker.c. There
/// `shrinker_try_get` fails only once the last reference is gone.
pub(crate) fn retire<R: Wait>(rt: &R, seat: &mut Seat<'_>, decl: u8) -> Retired
    requires rooms { (view_of seat.old).holding ≡ no_rooms }
    requires free { IsFree (view_of seat.old) }
    requires decl { decl < (shape_of seat.old.core).decls }
    ensures table { seat.new.core ≡ seat.old.core }
    ensures rooms { (view_of seat.new).holding ≡ no_rooms }
    ensures answer { RetireGives (shape_of seat.old.core) (view_of seat.old) decl
        (view_of seat.new).turns.known 1 result (view_of seat.new) }
{
    let mut pool = seat.take_pool(rt);
    let answer = end(seat, decl, &mut pool.entries);
    seat.give_pool(pool);
    answer
}

// The step to idle with the pool in hand. The journal has a spare for the Idle since the step to
// dying.
fn free(seat: &mut Seat<'_>, id: u16, entries: &mut Log<PoolEntry>)
    requires pool { (view_of seat.old).holding ≡ only_pool (shape_of seat.old.core) entries.old.items }
    requires owns { (view_of seat.old).claims.owner ≡ Some id }
    requires quiet { (view_of seat.old).claims.quiet ≡ true }
    requires id { id < (shape_of seat.old.core).ids }
    requires drained { (node : ℕ) → node < (shape_of seat.old.core).nodes
        → mark_of (view_of seat.old).claims node ≡ 0 }
    requires spare { dying_in (shape_of seat.old.core).ids entries.old.items ≤ entries.old.spare }
    ensures table { seat.new.core ≡ seat.old.core }
    ensures pool { (view_of seat.new).holding ≡ only_pool (shape_of seat.old.core) entries.new.items }
    ensures spare { dying_in (shape_of seat.old.core).ids entries.new.items ≤ entries.new.spare }
    ensures known { (view_of seat.new).turns.known ≡ (view_of seat.old).turns.known }
    ensures longer { entries.new.items ≡ entries.old.items ++ Idle id ∷ [] }
    ensures rests { Rests (view_of seat.old) (view_of seat.new) id entries.old.items 0 }
{
    let word = seat.word_of(id);
    seat.phase(id, word.decl);
    entries.push(PoolEntry::Idle { id });
}

/// Makes the id idle that the seat owns, once each of its lists is empty.
///
/// Linux: `shrinker_memcg_remove` in mm/shrinker.c gives the id back to `shrinker_idr`.
pub(crate) fn make_idle<R: Wait>(rt: &R, seat: &mut Seat<'_>, id: u16)
    requires rooms { (view_of seat.old).holding ≡ no_rooms }
    requires owns { (view_of seat.old).claims.owner ≡ Some id }
    requires quiet { (view_of seat.old).claims.quiet ≡ true }
    requires id { id < (shape_of seat.old.core).ids }
    requires drained { (node : ℕ) → node < (shape_of seat.old.core).nodes
        → mark_of (view_of seat.old).claims node ≡ 0 }
    ensures table { seat.new.core ≡ seat.old.core }
    ensures rooms { (view_of seat.new).holding ≡ no_rooms }
    ensures rests { (then : List PoolEntryValue) × Begins (view_of seat.old).turns.known then
        × ((view_of seat.new).turns.known ≡ then ++ Idle id ∷ []) × Rests (view_of seat.old)
        (view_of seat.new) id then 1 }
{
    let mut pool = seat.take_pool(rt);
    free(seat, id, &mut pool.entries);
    seat.give_pool(pool);
}
