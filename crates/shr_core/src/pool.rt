// SPDX-License-Identifier: GPL-2.0-only
//! The pool's room, and the phases of ids.
ghost use Rattle.std.specs.Prelude.{◌≡◌, ◌-◌, ◌*◌, ◌^◌, ◌<◌, ◌≤◌, [], MatchBool, false, length};
ghost use Rattle.atomic_table.specs.Table.{rest};
ghost use Rattle.shr_model.specs.Pool.{decl_of};
ghost use Rattle.shr_model.specs.PoolEnds.{dying_in};
ghost use Rattle.shr_core.specs.Layout.{places_in, row_in};
ghost use Rattle.shr_seats.specs.Shapes.{sizes_of};
ghost use Rattle.shr_core.specs.Rule.{has_room, pool_content};
ghost use Rattle.shr_core.specs.Steps.{with_taken, IsTakenPool, with_pool_given, with_phase, in_hand, MayPhase};
ghost use Rattle.shr_core.specs.Moves.{IsHere, IsSameSeat};
ghost use Rattle.shr_core.specs.Tells.{TakesRoom, turns_content, MadeAll, PoolTold, IsOfPool, raise, Raises};
ghost use Rattle.shr_core.specs.Seats.{HasFirst, view_of, shape_of};

use crate::lookups::unpack;
use crate::rooms::one_more;
use crate::seat::Seat;
use crate::slot::Slot;
use crate::table::Core;
use crate::view::View;
use crate::words::{ONE_DECL, ONE_PHASE, PLACES_AN_ID, lock_word, lookup_word};
use atomic_table::Seat as Token;
use crossbeam_utils::Backoff;
use shr_base::ends::LookupWord;
use shr_base::journals::PoolEntry;
use shr_base::log::Log;
use std::marker::Brand;
use std::sync::Wait;

/// The pool's room in hand: the journal of registrations.
///
/// Linux: what `shrinker_mutex` guards in mm/shrinker.c.
#[derive(Drop)]
pub struct Pool {
    pub entries: Log<PoolEntry>,
}

impl Core {
    // The number of the pool's room.
    fn pool_room(&self) -> usize
        ensures { result ≡ places_in (shape_of self.now).ids }
    {
        PLACES_AN_ID * self.setting.shape.ids as usize
    }

    // The row of the pool's room, after those of all places.
    fn pool_row(&self) -> usize
        ensures row { result
            ≡ row_in (sizes_of (shape_of self.now)) (places_in (shape_of self.now).ids) }
        ensures small { result < 2 ^ 40 }
    {
        self.setting.shape.sizes().rows()
    }

    // One compare and exchange of the pool's lock word.
    fn take_pool_once(&self, token: &mut Token<Slot, View>, room: usize, row: usize) -> bool
        requires seat { IsHere self.now token.old }
        requires room { room ≡ places_in (shape_of self.now).ids }
        requires row { (row ≡ row_in (sizes_of (shape_of self.now))
            (places_in (shape_of self.now).ids)) × (row < 2 ^ 40) }
        ensures id { IsSameSeat token.old token.new }
        ensures took { MatchBool result (TakesRoom token.old.me (places_in (shape_of self.now).ids) row
            turns_content (PoolTold (shape_of self.now) token.old.me.0) token.new.me) (token.new.me
            ≡ token.old.me) }
    {
        self.exchange_as::<Brand>(token, lock_word(row), room, row) == 0
    }

    fn wait_for_pool<R: Wait>(&self, rt: &R, token: &mut Token<Slot, View>, room: usize, row: usize)
        requires seat { IsHere self.now token.old }
        requires room { room ≡ places_in (shape_of self.now).ids }
        requires row { (row ≡ row_in (sizes_of (shape_of self.now))
            (places_in (shape_of self.now).ids)) × (row < 2 ^ 40) }
        ensures id { IsSameSeat token.old token.new }
        ensures took { TakesRoom token.old.me (places_in (shape_of self.now).ids) row turns_content
            (PoolTold (shape_of self.now) token.old.me.0) token.new.me }
    {
        let backoff = Backoff::new();
        for _ in rt.forever() {
            if self.take_pool_once(token, room, row) {
                return;
            }
            backoff.snooze();
        }
        unreachable!()
    }

    // The pool's journal goes back into its slot, and the lock word is freed.
    fn give_pool_front(&self, token: &mut Token<Slot, View>, number: usize, row: usize, slot: Slot)
        requires seat { IsHere self.now token.old }
        requires room { number ≡ places_in (shape_of self.now).ids }
        requires row { (row ≡ row_in (sizes_of (shape_of self.now))
            (places_in (shape_of self.now).ids)) × (row < 2 ^ 40) }
        requires front { HasFirst token.old.me.1 row }
        requires has { 0 < has_room (places_in (shape_of self.now).ids) token.old.me.0.holding }
        requires same { slot.pool.items
            ≡ (in_hand token.old.me.0 (places_in (shape_of self.now).ids)).pool }
        requires spare { dying_in (shape_of self.now).ids slot.pool.items ≤ slot.pool.spare }
        ensures given { token.new ≡ record token.old {
          me = (
            with_pool_given token.old.me.0
                (places_in (shape_of self.now).ids),
            rest token.old.me.1,
          );
        } }
    {
        self.table.shared.exchange(token, row, slot);
        self.free_as::<Brand>(token, lock_word(row), number);
    }

    // The addition of a phase step.
    fn raise_phase(&self, token: &mut Token<Slot, View>, id: u16, decl: u8, more: u64) -> LookupWord
        requires seat { IsHere self.now token.old }
        requires may { MayPhase (shape_of self.now) token.old.me.0 id decl }
        requires more { more ≡ raise (decl_of id (in_hand token.old.me.0
            (places_in (shape_of self.now).ids)).pool) decl }
        ensures raised { token.new ≡ record token.old {
          me = (
            with_phase (shape_of self.now) token.old.me.0 id decl
                result,
            token.old.me.1,
          );
        } }
        ensures of_pool { IsOfPool self.now.setting token.old.me.0 id result }
    {
        unpack(self.add_as::<Brand>(token, lookup_word(id), more, id, decl))
    }
}

impl<'a> Seat<'a> {
    /// Takes the pool's room, and waits for it. The seat has no room in hand.
    ///
    /// Linux: `mutex_lock(&shrinker_mutex)` in mm/shrinker.c.
    pub fn take_pool<R: Wait>(&mut self, rt: &R) -> Pool
        requires rooms { (view_of self.old).holding.hands ≡ [] }
        ensures taken { self.new ≡ record self.old {
          view = with_taken (view_of self.old)
              (places_in (shape_of self.old.core).ids) (pool_content result.entries.items);
        } }
        ensures told { IsTakenPool (view_of self.old) result.entries.items }
        ensures spare { dying_in (shape_of self.old.core).ids result.entries.items
            ≤ result.entries.spare }
        ensures few { length result.entries.items ≤ 65535 * (shape_of self.old.core).ids }
        ensures alone { MadeAll (view_of self.old) result.entries.items }
    {
        let room = self.core.pool_room();
        let row = self.core.pool_row();
        self.core.wait_for_pool(rt, &mut self.token, room, row);
        let entries = self.core.lift(&mut self.token, row).into_pool();
        self.rooms = one_more(self.rooms, room);
        Pool { entries }
    }

    /// Gives the pool's room back. Its journal is the one that was taken, with the entries of this
    /// seat's phase steps appended in order, and it has a spare for each dying id.
    ///
    /// Linux: `mutex_unlock(&shrinker_mutex)` in mm/shrinker.c.
    pub fn give_pool(&mut self, pool: Pool)
        requires has { 0 < has_room (places_in (shape_of self.old.core).ids) (view_of self.old).holding }
        requires same { pool.entries.items
            ≡ (in_hand (view_of self.old) (places_in (shape_of self.old.core).ids)).pool }
        requires spare { dying_in (shape_of self.old.core).ids pool.entries.items ≤ pool.entries.spare }
        ensures given { self.new ≡ record self.old {
          view = with_pool_given (view_of self.old)
              (places_in (shape_of self.old.core).ids);
        } }
    {
        let Pool { entries } = pool;
        let room = self.core.pool_room();
        let row = self.core.pool_row();
        self.rooms = self.core.to_front(&mut self.token, self.rooms, room);
        let slot = Slot::of_pool(self.core.alloc, entries);
        self.met = None;
        self.core.give_pool_front(&mut self.token, room, row, slot);
    }

    /// Raises an id's phase by one, with the pool in hand, and gives the word as the step found it.
    /// The step to dying makes the seat the owner of the id. The word is loaded first, for its
    /// declaration.
    ///
    /// Linux: in mm/shrinker.c idle to live is `shrinker_alloc` and `shrinker_register`, live to
    /// dying and dying to idle are `shrinker_free`.
    pub fn phase(&mut self, id: u16, decl: u8) -> LookupWord
        requires may { MayPhase (shape_of self.old.core) (view_of self.old) id decl }
        ensures raised { Raises self.old.core.setting (view_of self.old) id decl result
            (view_of self.new) }
        ensures table { self.new.core ≡ self.old.core }
    {
        let before = unpack(self.core.peek(&mut self.token, id));
        let more = raised_by(before.decl, decl);
        self.core.raise_phase(&mut self.token, id, decl, more)
    }
}

// What a phase step adds to a word with the declaration `old`.
fn raised_by(old: u8, decl: u8) -> u64
    ensures { result ≡ raise old decl }
{
    let new = decl as u64 * ONE_DECL;
    let less = old as u64 * ONE_DECL;
    ONE_PHASE.wrapping_add(new.wrapping_sub(less))
}
