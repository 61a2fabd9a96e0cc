// SPDX-License-Identifier: GPL-2.0-only
//! Searching the ids by what is kept in their words. While the pool is in hand, its journal says
//! what that is.

ghost use Rattle.std.specs.Prelude.{◌≡◌, ◌<◌, Option, Some, None, IfSome, false, ◌%◌, ◌==◌, ◌&&◌, nat_lt};
ghost use Rattle.shr_model.specs.Pool.{is_live, decl_of, is_live_decl, lowest_idle};
ghost use Rattle.shr_core.specs.Seats.{view_of, shape_of};
ghost use Rattle.shr_core.specs.Tells.{HasPool, pool_of};
ghost use Rattle.shr_registry.specs.Adding.{Loads, IsLiveAs};

use shr_base::ends::LookupWord;
use shr_core::seat::Seat;

/// From this phase on an idle id is registered no more.
const LAST_PHASE: u16 = 65533;

// The word of an id that is live with a declaration.
fn lives_as(word: LookupWord, decl: u8) -> bool
    ensures { result ≡ ((word.phase % 3 == 1) && (word.decl == decl)) }
{
    word.phase % 3 == 1 && word.decl == decl
}

// The word of an id that can be registered.
fn can_register(word: LookupWord) -> bool
    ensures { result ≡ ((word.phase % 3 == 0) && nat_lt word.phase 65533) }
{
    word.phase % 3 == 0 && word.phase < LAST_PHASE
}

// Whether an id is live with a declaration, by one load of its word.
fn is_live_as(seat: &mut Seat<'_>, id: u16, decl: u8) -> bool
    requires pool { HasPool (shape_of seat.old.core) (view_of seat.old) }
    requires id { id < (shape_of seat.old.core).ids }
    ensures table { seat.new.core ≡ seat.old.core }
    ensures loads { Loads (view_of seat.old) (view_of seat.new) }
    ensures live { let pool = pool_of (shape_of seat.old.core) (view_of seat.old) in
        result ≡ (is_live id pool && (decl_of id pool == decl)) }
{
    let word = seat.word_of(id);
    lives_as(word, decl)
}

// The id that is live with a declaration, when one is known not to be, by one load of each other id's word.
fn other_live_id(seat: &mut Seat<'_>, known: u16, decl: u8) -> Option<u16>
    requires pool { HasPool (shape_of seat.old.core) (view_of seat.old) }
    requires known { let pool = pool_of (shape_of seat.old.core) (view_of seat.old) in
        known < (shape_of seat.old.core).ids → (is_live known pool && (decl_of known pool == decl))
        ≡ false }
    ensures table { seat.new.core ≡ seat.old.core }
    ensures loads { Loads (view_of seat.old) (view_of seat.new) }
    ensures found { IfSome result (λ id. IsLiveAs (shape_of seat.old.core) (pool_of (shape_of seat.old.core)
        (view_of seat.old)) id decl) }
    ensures missing { result ≡ None → is_live_decl (shape_of seat.old.core).ids decl
        (pool_of (shape_of seat.old.core) (view_of seat.old)) ≡ false }
{
    for id in 0..seat.core().shape().ids {
        if id != known && is_live_as(seat, id, decl) {
            return Some(id);
        }
    }
    None
}

/// The id that is live with a declaration, by at most one load of each id's word.
///
/// The declaration's own number is looked at first: caches that are on from the start have it as their id if none
/// before them is off.
pub(crate) fn live_id(seat: &mut Seat<'_>, decl: u8) -> Option<u16>
    requires pool { HasPool (shape_of seat.old.core) (view_of seat.old) }
    ensures table { seat.new.core ≡ seat.old.core }
    ensures loads { Loads (view_of seat.old) (view_of seat.new) }
    ensures found { IfSome result (λ id. IsLiveAs (shape_of seat.old.core) (pool_of (shape_of seat.old.core)
        (view_of seat.old)) id decl) }
    ensures missing { result ≡ None → is_live_decl (shape_of seat.old.core).ids decl
        (pool_of (shape_of seat.old.core) (view_of seat.old)) ≡ false }
{
    let own = u16::from(decl);
    if own < seat.core().shape().ids && is_live_as(seat, own, decl) {
        return Some(own);
    }
    other_live_id(seat, own, decl)
}

/// The lowest id that can be registered, by at most one load of each id's word.
///
/// Linux: `idr_alloc` in `shrinker_memcg_alloc` of mm/shrinker.c.
pub(crate) fn free_id(seat: &mut Seat<'_>) -> Option<u16>
    requires pool { HasPool (shape_of seat.old.core) (view_of seat.old) }
    ensures table { seat.new.core ≡ seat.old.core }
    ensures loads { Loads (view_of seat.old) (view_of seat.new) }
    ensures lowest { result ≡ lowest_idle (shape_of seat.old.core).ids (pool_of (shape_of seat.old.core)
        (view_of seat.old)) }
{
    for id in 0..seat.core().shape().ids {
        let word = seat.word_of(id);
        if can_register(word) {
            return Some(id);
        }
    }
    None
}
