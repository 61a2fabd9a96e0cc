// SPDX-License-Identifier: GPL-2.0-only
//! Taking what is deferred, and deferring more.

ghost use Rattle.std.specs.Prelude.{◌≡◌, ℕ, ◌+◌, ◌<◌, ◌%◌, ◌^◌};
ghost use Rattle.atomic_table.specs.Table.{Allows};
ghost use Rattle.shr_seats.specs.Rows.{IsPlaceOf};
ghost use Rattle.shr_deferred.specs.Moves.{take_of, give_of};
ghost use Rattle.shr_deferred.specs.Rule.{IsDeferredSound};
ghost use Rattle.shr_deferred.specs.Alone.{IsAlone, left_at};
ghost use Rattle.shr_deferred.specs.Seat.{GainsMoves, moves_of, deferred_standing};

use crate::table::{Deferred, DeferredSeat, Token};
use crate::view::View;
use shr_base::places::Place;
use shr_seats::telling::{Tells, Told};
use std::marker::Brand;

impl Deferred {
    fn swap_as<T: Tells<(), View>>(&self, seat: &mut Token, word: usize, _place: Place) -> u64
        requires seat { seat.old.table_id ≡ self.now.table.shared.table_id }
        requires word { word < self.now.table.shared.table_id.words }
        requires step { Allows (IsDeferredSound self.now.table.shared.key)
            self.now.table.shared.table_id.slots seat.old.id seat.old.me word (λ _. 0) T.tells }
        ensures told { (seat.new ≡ record seat.old { me = seat.new.me }) × T.tells result seat.new.me }
    {
        self.table.shared.swap::<Told<T>>(seat, word, 0)
    }

    fn add_as<T: Tells<(), View>>(&self, seat: &mut Token, word: usize, n: u64, _place: Place)
        requires seat { seat.old.table_id ≡ self.now.table.shared.table_id }
        requires word { word < self.now.table.shared.table_id.words }
        requires step { Allows (IsDeferredSound self.now.table.shared.key)
            self.now.table.shared.table_id.slots seat.old.id seat.old.me word
            (λ y. (y + n) % 2 ^ 64) T.tells }
        ensures told { (seat.new ≡ record seat.old { me = seat.new.me })
            × ((found : ℕ) × T.tells found seat.new.me) }
    {
        self.table.shared.fetch_add::<Told<T>>(seat, word, n);
    }
}

impl<'a> DeferredSeat<'a> {
    /// Takes all that is deferred at the place, in objects, and leaves 0 there, in one step.
    ///
    /// Linux: `xchg_nr_deferred` in mm/shrinker.c, which is `xchg_nr_deferred_memcg` for a shrinker
    /// of groups.
    pub fn take(&mut self, place: Place) -> u64
        requires place { IsPlaceOf self.old.deferred.sizes place }
        ensures step { GainsMoves self.old self.new (take_of place result) }
        ensures alone { IsAlone (deferred_standing self.old) → result
            ≡ left_at place (moves_of self.old) }
    {
        let word = self.deferred.sizes.row(place);
        self.deferred.swap_as::<Brand>(&mut self.token, word, place)
    }

    /// Defers `n` objects more at the place, modulo 2^64, in one step.
    ///
    /// Linux: `add_nr_deferred` in mm/shrinker.c, which is `add_nr_deferred_memcg` for a shrinker
    /// of groups. Its counter is signed.
    pub fn give(&mut self, place: Place, n: u64)
        requires place { IsPlaceOf self.old.deferred.sizes place }
        ensures step { GainsMoves self.old self.new (give_of place n) }
    {
        let word = self.deferred.sizes.row(place);
        self.deferred
            .add_as::<Brand>(&mut self.token, word, n, place);
    }
}
