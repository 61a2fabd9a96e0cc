// SPDX-License-Identifier: GPL-2.0-only
//! Lookup words, but for their phases.
ghost use Rattle.std.specs.Prelude.{◌≡◌, ◌≢◌, ◌+◌, ◌-◌, ◌<◌, ◌⊎◌, false, ℕ, Option, Some, None};
ghost use Rattle.shr_core.specs.Lookup.{word_in};
ghost use Rattle.shr_core.specs.Steps.{with_word, with_leave, with_given_up, with_lookup, with_put};
ghost use Rattle.shr_core.specs.Moves.{IsHere};
ghost use Rattle.shr_core.specs.Tells.{IsOfPool};
ghost use Rattle.shr_core.specs.Seats.{view_of, shape_of};
ghost use Rattle.shr_core.specs.Answers.{Finds, IsDeclared, MetBy};

use crate::seat::Seat;
use crate::slot::Slot;
use crate::table::Core;
use crate::view::View;
use crate::words::{ONE_LOOKUP, ONE_REFERENCE, lookup_word};
use atomic_table::Seat as Token;
use shr_base::ends::LookupWord;
use std::marker::Brand;

/// What a lookup answers. Its number is how many lookups of this id came before it.
///
/// Linux: `shrinker_try_get` in include/linux/shrinker.h answers true or false. Numbers, and
/// running out of them, are our own.
#[derive(Clone, Copy, Debug, PartialEq, Eq)]
pub enum Lookup {
    /// The id's numbers are used up: a load showed `seen` lookups.
    Worn { seen: u32 },
    /// The id is live and held, with the declaration of its registration.
    Held { number: u32, decl: u8 },
    /// The id is not live.
    Gone { number: u32 },
}

/// From this many lookups on, 2^32 - 256, an id is looked up no more.
pub(crate) const LAST_LOOKUPS: u32 = u32::MAX - 255;

/// Takes a lookup word apart.
pub(crate) fn unpack(word: u64) -> LookupWord
    ensures { result ≡ word_in word }
{
    LookupWord {
        decl: (word / (1 << 56)) as u8,
        phase: (word / (1 << 40) % (1 << 16)) as u16,
        lookups: (word / (1 << 8) % (1 << 32)) as u32,
        refs: (word % (1 << 8)) as u8,
    }
}

impl Core {
    // The load before a lookup.
    fn allow(&self, token: &mut Token<Slot, View>, id: u16) -> LookupWord
        requires seat { IsHere self.now token.old }
        requires id { id < (shape_of self.now).ids }
        requires view { token.old.me.0.claims.may ≡ None }
        ensures allowed { token.new ≡ record token.old { me = (with_leave token.old.me.0 id result, token.old.me.1) } }
    {
        unpack(self.load_as::<Brand>(token, lookup_word(id), id as usize))
    }

    // The addition that takes the number.
    fn draw(&self, token: &mut Token<Slot, View>, id: u16) -> LookupWord
        requires seat { IsHere self.now token.old }
        requires id { id < (shape_of self.now).ids }
        requires view { (token.old.me.0.claims.may ≡ Some id) × (token.old.me.0.claims.held ≡ None)
            × (token.old.me.0.claims.probe ≡ None) }
        ensures drawn { token.new ≡ record token.old { me = (with_lookup token.old.me.0 id result, token.old.me.1) } }
        ensures of_pool { IsOfPool self.now.setting token.old.me.0 id result }
    {
        unpack(self.add_as::<Brand>(token, lookup_word(id), ONE_LOOKUP + ONE_REFERENCE, id, 0))
    }

    // The reference is given back.
    fn put_back(&self, token: &mut Token<Slot, View>, id: u16)
        requires seat { IsHere self.now token.old }
        requires id { id < (shape_of self.now).ids }
        requires has { ((token.old.me.0.claims.held ≡ Some id)
            × (token.old.me.0.claims.probe ≡ None))
            ⊎ ((token.old.me.0.claims.held ≡ None) × (token.old.me.0.claims.probe ≡ Some id)) }
        ensures back { token.new ≡ record token.old { me = (with_put token.old.me.0, token.old.me.1) } }
    {
        self.sub_as::<Brand>(token, lookup_word(id), ONE_REFERENCE);
    }
}

impl<'a> Seat<'a> {
    /// One load of an id's lookup word.
    pub fn word_of(&mut self, id: u16) -> LookupWord
        requires id { id < (shape_of self.old.core).ids }
        ensures loaded { self.new ≡ record self.old { view = with_word (view_of self.old) id result } }
        ensures of_pool { IsOfPool self.old.core.setting (view_of self.old) id result }
    {
        let word = self.core.peek(&mut self.token, id);
        unpack(word)
    }

    /// Gives up the id that the seat owns, with one load of its lookup word. The id stays dying.
    pub fn give_up(&mut self, id: u16) -> LookupWord
        requires id { id < (shape_of self.old.core).ids }
        requires owned { (view_of self.old).claims.owner ≡ Some id }
        ensures given_up { self.new ≡ record self.old { view = with_given_up (view_of self.old) id result } }
    {
        unpack(
            self.core
                .load_as::<Brand>(&mut self.token, lookup_word(id), id as usize),
        )
    }

    /// The id that the seat holds a reference to, if it holds one.
    pub fn holds(&self) -> Option<u16>
        ensures held { (id : ℕ) → result ≡ Some id → (view_of self.now).claims.held ≡ Some id }
        ensures free { result ≡ None → (view_of self.now).claims.held ≡ None }
    {
        self.held
    }

    /// Looks an id up, and takes a reference if it is live. The seat holds no id before. `Worn` is
    /// tested first: then no number is drawn.
    ///
    /// Linux: `idr_find` and `shrinker_try_get` in `shrink_slab_memcg` of mm/shrinker.c. Here the
    /// reference is counted before the phase is known, and given back if the id is not live.
    pub fn lookup(&mut self, id: u16) -> Lookup
        requires id { id < (shape_of self.old.core).ids }
        requires free { (view_of self.old).claims.held ≡ None }
        ensures found { Finds (view_of self.old) id (view_of self.new) result }
        ensures table { self.new.core ≡ self.old.core }
        ensures declared { IsDeclared (shape_of self.old.core).decls result }
        ensures met { MetBy (shape_of self.old.core) (view_of self.old) id result }
    {
        let first = self.core.allow(&mut self.token, id);
        if first.lookups >= LAST_LOOKUPS {
            return Lookup::Worn {
                seen: first.lookups,
            };
        }
        let found = self.core.draw(&mut self.token, id);
        if found.phase % 3 == 1 {
            self.held = Some(id);
            return Lookup::Held {
                number: found.lookups,
                decl: found.decl,
            };
        }
        self.core.put_back(&mut self.token, id);
        Lookup::Gone {
            number: found.lookups,
        }
    }

    /// Gives back the reference to the held id.
    ///
    /// Linux: `shrinker_put` in include/linux/shrinker.h. There the last one completes
    /// `shrinker->done`; here the owner of the id loads the word until it shows no reference.
    pub fn put(&mut self)
        requires holds { (view_of self.old).claims.held ≢ None }
        ensures back { self.new ≡ record self.old { view = with_put (view_of self.old) } }
    {
        if let Some(held) = self.held {
            self.core.put_back(&mut self.token, held);
            self.held = None;
        }
    }
}
