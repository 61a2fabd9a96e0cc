// SPDX-License-Identifier: GPL-2.0-only
//! The steps on words.

ghost use Rattle.std.specs.Prelude.{◌≡◌, ◌<◌, ◌==◌};
ghost use prog.Atomic.{either};
ghost use Rattle.atomic_table.specs.Table.{Allows};
ghost use Rattle.shr_plain.specs.Rule.{IsPools};
ghost use Rattle.shr_plain.specs.Taking.{Changes};

use crate::slot::Slot;
use crate::table::{Pools, UnitSeat};
use crate::view::View;
use shr_base::journals::PlainEntry;
use shr_seats::telling::{Tells, Told};

/// Each room has eight words: the first is its lock word, the second its count word. The others stay
/// 0: where the table begins in the first half of a line of a processor's cache, no two rooms share
/// a line.
pub(crate) const WORDS_A_ROOM: usize = 8;

impl Pools {
    /// One load of a word. `T` says what that tells.
    pub(crate) fn load_as<T: Tells<Slot, View>>(
        &self,
        seat: &mut UnitSeat,
        word: usize,
        _room: usize,
    ) -> u64
        requires seat { seat.old.table_id ≡ self.now.table.shared.table_id }
        requires word { word < self.now.table.shared.table_id.words }
        requires step { Allows (IsPools self.now.table.shared.key)
            self.now.table.shared.table_id.slots seat.old.id seat.old.me word (λ y. y) T.tells }
        ensures told { Changes (λ _. T.tells result) seat.old seat.new }
    {
        self.table.shared.load::<Told<T>>(seat, word)
    }

    /// One compare and exchange of a lock word, which gives what it was. `T` says what that tells.
    pub(crate) fn lock_as<T: Tells<Slot, View>>(
        &self,
        seat: &mut UnitSeat,
        word: usize,
        _room: usize,
    ) -> u64
        requires seat { seat.old.table_id ≡ self.now.table.shared.table_id }
        requires word { word < self.now.table.shared.table_id.words }
        requires step { Allows (IsPools self.now.table.shared.key)
            self.now.table.shared.table_id.slots seat.old.id seat.old.me word
            (λ y. either (y == 0) 1 y) T.tells }
        ensures told { Changes (λ _. T.tells result) seat.old seat.new }
    {
        self.table
            .shared
            .compare_exchange::<Told<T>>(seat, word, 0, 1)
    }

    /// Stores the count of a room that has one entry more. `T` says what that tells.
    pub(crate) fn store_as<T: Tells<Slot, View>>(
        &self,
        seat: &mut UnitSeat,
        word: usize,
        new: u64,
        _room: usize,
        _entry: PlainEntry,
    )
        requires seat { seat.old.table_id ≡ self.now.table.shared.table_id }
        requires word { word < self.now.table.shared.table_id.words }
        requires step { Allows (IsPools self.now.table.shared.key)
            self.now.table.shared.table_id.slots seat.old.id seat.old.me word (λ _. new)
            (λ _. T.tells new) }
        ensures told { Changes (λ _. T.tells new) seat.old seat.new }
    {
        self.table.shared.store::<Told<T>>(seat, word, new);
    }

    /// Stores 0 in a lock word. `T` says what that tells.
    pub(crate) fn free_as<T: Tells<Slot, View>>(
        &self,
        seat: &mut UnitSeat,
        word: usize,
        _room: usize,
    )
        requires seat { seat.old.table_id ≡ self.now.table.shared.table_id }
        requires word { word < self.now.table.shared.table_id.words }
        requires step { Allows (IsPools self.now.table.shared.key)
            self.now.table.shared.table_id.slots seat.old.id seat.old.me word (λ _. 0)
            (λ _. T.tells 0) }
        ensures told { Changes (λ _. T.tells 0) seat.old seat.new }
    {
        self.table.shared.store::<Told<T>>(seat, word, 0);
    }
}
