// SPDX-License-Identifier: GPL-2.0-only
//! Each kind of atomic operation once. The call that makes it says what it tells.
ghost use Rattle.std.specs.Prelude.{ℕ, ◌+◌, ◌-◌, ◌%◌, ◌^◌, ◌<◌, bit_or, bit_and, ◌==◌};
ghost use prog.Atomic.{either};
ghost use Rattle.shr_core.specs.Moves.{MayStep, IsTold};

use crate::slot::Slot;
use crate::table::Core;
use crate::view::View;
use atomic_table::Seat as Token;
use shr_list::list::List;
use shr_seats::telling::{Tells, Told};

impl Core {
    /// One load of a word. `T` says what it tells of the number found and of the view after it.
    pub(crate) fn load_as<T: Tells<Slot, View>>(
        &self,
        token: &mut Token<Slot, View>,
        word: usize,
        _at: usize,
    ) -> u64
        requires { MayStep self.now token.old word (λ n. n) T.tells }
        ensures { IsTold token.old token.new (T.tells result) }
    {
        self.table.shared.load::<Told<T>>(token, word)
    }

    /// Sets the bits of `mask` in a word, which tells what `T` says.
    pub(crate) fn or_as<T: Tells<Slot, View>>(
        &self,
        token: &mut Token<Slot, View>,
        word: usize,
        mask: u64,
        _at: usize,
    )
        requires { MayStep self.now token.old word (λ n. bit_or n mask) T.tells }
        ensures { (n : ℕ) × IsTold token.old token.new (T.tells n) }
    {
        self.table.shared.fetch_or::<Told<T>>(token, word, mask);
    }

    /// Clears the bits of a word that `mask` lacks, which tells what `T` says.
    pub(crate) fn and_as<T: Tells<Slot, View>>(
        &self,
        token: &mut Token<Slot, View>,
        word: usize,
        mask: u64,
        _at: usize,
    )
        requires { MayStep self.now token.old word (λ n. bit_and n mask) T.tells }
        ensures { (n : ℕ) × IsTold token.old token.new (T.tells n) }
    {
        self.table.shared.fetch_and::<Told<T>>(token, word, mask);
    }

    /// Stores a number in a word, which tells what `T` says.
    pub(crate) fn store_as<T: Tells<Slot, View>>(
        &self,
        token: &mut Token<Slot, View>,
        word: usize,
        new: u64,
        _at: usize,
        _list: &List,
    )
        requires { MayStep self.now token.old word (λ _. new) (λ _. T.tells new) }
        ensures { IsTold token.old token.new (T.tells new) }
    {
        self.table.shared.store::<Told<T>>(token, word, new);
    }

    /// Stores 0 in a lock word, which tells what `T` says.
    pub(crate) fn free_as<T: Tells<Slot, View>>(
        &self,
        token: &mut Token<Slot, View>,
        word: usize,
        _at: usize,
    )
        requires { MayStep self.now token.old word (λ _. 0) (λ _. T.tells 0) }
        ensures { IsTold token.old token.new (T.tells 0) }
    {
        self.table.shared.store::<Told<T>>(token, word, 0);
    }

    /// Adds to a word modulo 2^64, and gives what it was. `T` says what that tells.
    pub(crate) fn add_as<T: Tells<Slot, View>>(
        &self,
        token: &mut Token<Slot, View>,
        word: usize,
        more: u64,
        _id: u16,
        _decl: u8,
    ) -> u64
        requires { MayStep self.now token.old word (λ n. (n + more) % 2 ^ 64) T.tells }
        ensures { IsTold token.old token.new (T.tells result) }
    {
        self.table.shared.fetch_add::<Told<T>>(token, word, more)
    }

    /// Subtracts from a word modulo 2^64, and gives what it was. `T` says what that tells.
    pub(crate) fn sub_as<T: Tells<Slot, View>>(
        &self,
        token: &mut Token<Slot, View>,
        word: usize,
        less: u64,
    ) -> u64
        requires { MayStep self.now token.old word (λ n. (n + (2 ^ 64 - less)) % 2 ^ 64) T.tells }
        ensures { IsTold token.old token.new (T.tells result) }
    {
        self.table.shared.fetch_sub::<Told<T>>(token, word, less)
    }

    /// One compare and exchange of a lock word from 0 to 1, which gives what it was. `T` says what
    /// that tells.
    pub(crate) fn exchange_as<T: Tells<Slot, View>>(
        &self,
        token: &mut Token<Slot, View>,
        word: usize,
        _room: usize,
        _row: usize,
    ) -> u64
        requires { MayStep self.now token.old word (λ n. either (n == 0) 1 n) T.tells }
        ensures { IsTold token.old token.new (T.tells result) }
    {
        self.table
            .shared
            .compare_exchange::<Told<T>>(token, word, 0, 1)
    }

    /// One compare and exchange of a word, which gives what it was. `T` says what that tells.
    pub(crate) fn swap_as<T: Tells<Slot, View>>(
        &self,
        token: &mut Token<Slot, View>,
        word: usize,
        old: u64,
        new: u64,
        _id: u16,
    ) -> u64
        requires { MayStep self.now token.old word (λ n. either (n == old) new n) T.tells }
        ensures { IsTold token.old token.new (T.tells result) }
    {
        self.table
            .shared
            .compare_exchange::<Told<T>>(token, word, old, new)
    }
}
