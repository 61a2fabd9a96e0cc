// SPDX-License-Identifier: GPL-2.0-only
//! The steps on words.

ghost use Rattle.std.specs.Prelude.{◌≡◌, ◌+◌, ◌<◌, ◌%◌, ◌^◌, ◌==◌};
ghost use prog.Atomic.{either};
ghost use Rattle.atomic_table.specs.Table.{Allows};
ghost use Rattle.shr_charge.specs.Rule.{IsChargeSound};

use crate::table::{Charge, Token};
use crate::view::View;
use shr_base::journals::TreeEntry;
use shr_base::log::Log;
use shr_base::places::Serial;
use shr_seats::telling::{Tells, Told};

/// Each group has eight words: the second is its usage, the third its state, and the first of the
/// root is the lock word of the tree room. The others stay 0: where the table begins in the first
/// half of a line of a processor's cache, no two groups share a line.
pub(crate) const WORDS_A_GROUP: usize = 8;

impl Charge {
    /// Adds to a word modulo 2^64, and gives what it was. `T` says what that tells.
    pub(crate) fn add_as<T: Tells<Log<TreeEntry>, View>>(
        &self,
        token: &mut Token,
        word: usize,
        n: u64,
        _group: u16,
        _by: Serial,
        _first: bool,
    ) -> u64
        requires table { token.old.table_id ≡ self.now.table.shared.table_id }
        requires word { word < self.now.table.shared.table_id.words }
        requires step { Allows (IsChargeSound self.now.table.shared.key)
            self.now.table.shared.table_id.slots token.old.id token.old.me word
            (λ y. (y + n) % 2 ^ 64) T.tells }
        ensures same { token.new ≡ record token.old { me = token.new.me } }
        ensures told { T.tells result token.new.me }
    {
        self.table.shared.fetch_add::<Told<T>>(token, word, n)
    }

    /// One load of a word. `T` says what that tells.
    pub(crate) fn load_as<T: Tells<Log<TreeEntry>, View>>(
        &self,
        token: &mut Token,
        word: usize,
        _group: u16,
    ) -> u64
        requires table { token.old.table_id ≡ self.now.table.shared.table_id }
        requires word { word < self.now.table.shared.table_id.words }
        requires step { Allows (IsChargeSound self.now.table.shared.key)
            self.now.table.shared.table_id.slots token.old.id token.old.me word (λ y. y) T.tells }
        ensures same { token.new ≡ record token.old { me = token.new.me } }
        ensures told { T.tells result token.new.me }
    {
        self.table.shared.load::<Told<T>>(token, word)
    }

    /// Stores a number in a word. `T` says what that tells.
    pub(crate) fn store_as<T: Tells<Log<TreeEntry>, View>>(
        &self,
        token: &mut Token,
        word: usize,
        new: u64,
        _group: u16,
    )
        requires table { token.old.table_id ≡ self.now.table.shared.table_id }
        requires word { word < self.now.table.shared.table_id.words }
        requires step { Allows (IsChargeSound self.now.table.shared.key)
            self.now.table.shared.table_id.slots token.old.id token.old.me word (λ _. new)
            (λ _. T.tells new) }
        ensures same { token.new ≡ record token.old { me = token.new.me } }
        ensures told { T.tells new token.new.me }
    {
        self.table.shared.store::<Told<T>>(token, word, new);
    }

    /// One compare and exchange of the lock word from 0 to 1, which gives what it was. `T` says
    /// what that tells.
    pub(crate) fn lock_as<T: Tells<Log<TreeEntry>, View>>(&self, token: &mut Token) -> u64
        requires table { token.old.table_id ≡ self.now.table.shared.table_id }
        requires word { 0 < self.now.table.shared.table_id.words }
        requires step { Allows (IsChargeSound self.now.table.shared.key)
            self.now.table.shared.table_id.slots token.old.id token.old.me 0 (λ y. either (y == 0) 1
            y) T.tells }
        ensures same { token.new ≡ record token.old { me = token.new.me } }
        ensures told { T.tells result token.new.me }
    {
        self.table
            .shared
            .compare_exchange::<Told<T>>(token, 0, 0, 1)
    }
}
