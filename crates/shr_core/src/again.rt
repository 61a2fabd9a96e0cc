// SPDX-License-Identifier: GPL-2.0-only
//! Looking up again an id that the seat met.
ghost use Rattle.std.specs.Prelude.{◌≡◌, ◌%◌, ◌<◌, false, None, IfSome};
ghost use Rattle.shr_model.specs.Pool.{phase_of};
ghost use Rattle.shr_core.specs.Lookup.{word_in, lookups_of, phase_in, last_lookups};
ghost use Rattle.shr_core.specs.Steps.{with_word};
ghost use Rattle.shr_core.specs.Moves.{IsHere, IsSameSeat};
ghost use Rattle.shr_core.specs.Tells.{IsOfPool};
ghost use Rattle.shr_core.specs.Seats.{IsMet, view_of, shape_of};
ghost use Rattle.shr_core.specs.Again.{looked_again, DrawsAgain, FindsAgain, KnowsNone};

use crate::lookups::{LAST_LOOKUPS, unpack};
use crate::seat::{Met, Seat};
use crate::slot::Slot;
use crate::table::Core;
use crate::view::View;
use crate::words::{ONE_LOOKUP, ONE_REFERENCE, lookup_word};
use atomic_table::Seat as Token;
use std::marker::Brand;

/// A lookup of an id that the seat met: the id is held by the lookup with this number, and what the
/// seat knows of the journal has `entry` entries.
#[derive(Clone, Copy)]
pub struct Again {
    pub id: u16,
    pub number: u32,
    pub entry: u32,
}

/// So often a compare and exchange is tried: it misses where a reference was taken or given back
/// meanwhile.
const TRIES: usize = 8;

impl Core {
    /// One load of an id's lookup word.
    pub(crate) fn peek(&self, token: &mut Token<Slot, View>, id: u16) -> u64
        requires seat { IsHere self.now token.old }
        requires id { id < (shape_of self.now).ids }
        ensures loaded { token.new ≡ record token.old {
          me = (
            with_word token.old.me.0 id (word_in result),
            token.old.me.1,
          );
        } }
        ensures of_pool { IsOfPool self.now.setting token.old.me.0 id (word_in result) }
    {
        self.load_as::<Brand>(token, lookup_word(id), id as usize)
    }

    // One compare and exchange, which draws a number where it finds the word that is wanted.
    fn draw_again(&self, token: &mut Token<Slot, View>, id: u16, wanted: u64) -> u64
        requires seat { IsHere self.now token.old }
        requires id { id < (shape_of self.now).ids }
        requires view { (token.old.me.0.claims.may ≡ None) × (token.old.me.0.claims.held ≡ None)
            × (token.old.me.0.claims.probe ≡ None) }
        requires left { lookups_of wanted < last_lookups }
        requires phase { (phase_in wanted ≡ phase_of id token.old.me.0.turns.known)
            × (phase_in wanted % 3 ≡ 1) }
        ensures id { IsSameSeat token.old token.new }
        ensures drawn { looked_again token.old.me id wanted result token.new.me }
    {
        let drawn = wanted.wrapping_add(ONE_LOOKUP + ONE_REFERENCE);
        self.swap_as::<Brand>(token, lookup_word(id), wanted, drawn, id)
    }

    // Some of these, the first of which wants a word that was loaded. The answer is the number.
    fn draw_some(&self, token: &mut Token<Slot, View>, met: Met, first: u64) -> Option<u32>
        requires seat { IsHere self.now token.old }
        requires view { (token.old.me.0.claims.may ≡ None) × (token.old.me.0.claims.held ≡ None)
            × (token.old.me.0.claims.probe ≡ None) }
        requires met { IsMet (shape_of self.now) token.old.me.0.turns.known met }
        ensures id { IsSameSeat token.old token.new }
        ensures missed { result ≡ None → token.new.me ≡ token.old.me }
        ensures drawn { IfSome result (λ number. DrawsAgain token.old.me met first number
            token.new.me) }
    {
        let mut wanted = first;
        for _ in 0..TRIES {
            let word = unpack(wanted);
            // The phase tells one registration of the id from each other.
            if word.phase != met.phase || word.lookups >= LAST_LOOKUPS {
                return None;
            }
            let found = self.draw_again(token, met.id, wanted);
            if found == wanted {
                return Some(word.lookups);
            }
            wanted = found;
        }
        None
    }
}

impl<'a> Seat<'a> {
    /// Looks up the id that the seat met last, if that was for this declaration, and takes a
    /// reference if the id is still in the registration that the seat knows. The seat holds no id
    /// before. `None` says nothing of the declaration: another one was met last, or the id's phase
    /// isn't what it was, or its numbers are used up, or other seats changed its word each time.
    ///
    /// Linux: `shrinker_try_get` in `shrink_slab_memcg` of mm/shrinker.c.
    pub fn lookup_again(&mut self, decl: u8) -> Option<Again>
        requires free { (view_of self.old).claims.held ≡ None }
        ensures unknown { result ≡ None → KnowsNone (view_of self.old) (view_of self.new) }
        ensures found { IfSome result (λ again. FindsAgain (shape_of self.old.core)
            (view_of self.old) decl again (view_of self.new)) }
        ensures table { self.new.core ≡ self.old.core }
    {
        let Some(met) = self.met else {
            return None;
        };
        if met.decl != decl {
            return None;
        }
        let first = self.core.peek(&mut self.token, met.id);
        let Some(number) = self.core.draw_some(&mut self.token, met, first) else {
            return None;
        };
        self.held = Some(met.id);
        Some(Again {
            id: met.id,
            number,
            entry: met.entry,
        })
    }

    /// Keeps a registration that was met, by all that the seat knows of the pool's journal.
    pub fn keep(&mut self, met: Met)
        requires met { IsMet (shape_of self.old.core) (view_of self.old).turns.known met }
        ensures same { self.new ≡ self.old }
    {
        self.met = Some(met);
    }
}
