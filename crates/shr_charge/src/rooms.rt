// SPDX-License-Identifier: GPL-2.0-only
//! The tree room: taking it, and giving it back.

ghost use Rattle.std.specs.Prelude.{◌≡◌, ◌+◌, ◌<◌, true, false, [], ◌∷◌, ◌++◌, length, MatchBool};
ghost use Rattle.shr_base.specs.declared.journals.TreeEntry.TheVariants.{Done as DoneEntry};
ghost use Rattle.shr_model.specs.TreeJournal.{MayBegin, MayBeDone, MayBeMade};
ghost use Rattle.shr_seats.specs.Shapes.{hierarchy_of};
ghost use Rattle.shr_charge.specs.Offlining.{IsHome};
ghost use Rattle.shr_charge.specs.Rooms.{HoldsTreeRoom, Shown};
ghost use Rattle.shr_charge.specs.Seat.{IsTokenOf};
ghost use Rattle.shr_charge.specs.Steps.{with_tree_given, with_begin, with_made, with_done};
ghost use Rattle.shr_charge.specs.Told.{TakesTreeRoom, with_tree, with_room_back};

use crate::table::{Charge, Token};
use crate::words::WORDS_A_GROUP;
use crossbeam_utils::Backoff;
use shr_base::journals::TreeEntry;
use shr_base::log::Log;
use std::marker::Brand;
use std::sync::Wait;

impl Charge {
    // One compare and exchange of the lock word.
    fn try_take(&self, token: &mut Token) -> bool
        requires seat { IsTokenOf self.now token.old }
        requires bare { token.old.me.1 ≡ [] }
        requires out { token.old.me.0.tree.in_hand ≡ false }
        ensures same { token.new ≡ record token.old { me = token.new.me } }
        ensures taken { MatchBool result (TakesTreeRoom (hierarchy_of self.now.shape) token.old.me
            token.new.me) (token.new.me ≡ token.old.me) }
    {
        self.lock_as::<Brand>(token) == 0
    }

    /// Waits for the room, and takes its journal out of it.
    pub(crate) fn take_tree<R: Wait>(&self, rt: &R, token: &mut Token) -> Log<TreeEntry>
        requires seat { IsTokenOf self.now token.old }
        requires bare { token.old.me.1 ≡ [] }
        requires out { token.old.me.0.tree.in_hand ≡ false }
        ensures room { HoldsTreeRoom token.old token.new result.items }
        ensures shown { Shown (hierarchy_of self.now.shape) token.old.me.0.tree result }
    {
        let backoff = Backoff::new();
        for _turn in rt.forever() {
            if self.try_take(token) {
                return self.table.shared.exchange(token, 0, Log::new(self.alloc));
            }
            backoff.snooze();
        }
        unreachable!()
    }

    /// Gives the room back with its journal.
    pub(crate) fn give_tree(&self, token: &mut Token, room: Log<TreeEntry>)
        requires seat { IsTokenOf self.now token.old }
        requires hand { token.old.me.0.tree.in_hand ≡ true }
        requires slot { (left : _) × (token.old.me.1 ≡ (0, left) ∷ []) }
        requires home { IsHome (length self.now.shape.parents.items) token.old.me.0.tree.hand room }
        ensures given { token.new ≡ record token.old {
          me = with_room_back token.old.me
              (with_tree_given token.old.me.0.tree);
        } }
    {
        self.table.shared.exchange(token, 0, room);
        self.store_as::<Brand>(token, 0, 0, 0);
    }

    /// Gives the room back with its journal, which has the Done of a group more.
    pub(crate) fn give_done(&self, token: &mut Token, room: Log<TreeEntry>, group: u16)
        requires seat { IsTokenOf self.now token.old }
        requires hand { token.old.me.0.tree.in_hand ≡ true }
        requires slot { (left : _) × (token.old.me.1 ≡ (0, left) ∷ []) }
        requires group { group < length self.now.shape.parents.items }
        requires may { MayBeDone token.old.me.0.tree.hand group }
        requires home { IsHome (length self.now.shape.parents.items) (token.old.me.0.tree.hand
            ++ DoneEntry group ∷ []) room }
        ensures given { token.new ≡ record token.old {
          me = with_room_back token.old.me
              (with_done token.old.me.0.tree group);
        } }
    {
        self.table.shared.exchange(token, 0, room);
        self.store_as::<Brand>(token, 0, 0, group);
    }

    /// Stores the group word of a group that begins to go offline by the entry with this number.
    pub(crate) fn store_begin(&self, token: &mut Token, group: u16, entry: u32)
        requires seat { IsTokenOf self.now token.old }
        requires hand { token.old.me.0.tree.in_hand ≡ true }
        requires may { MayBegin (hierarchy_of self.now.shape) token.old.me.0.tree.hand group }
        requires entry { entry ≡ length token.old.me.0.tree.hand }
        ensures begun { token.new ≡ record token.old {
          me = with_tree token.old.me
              (with_begin token.old.me.0.tree group);
        } }
    {
        self.store_as::<Brand>(
            token,
            WORDS_A_GROUP * group as usize + 2,
            entry as u64 + 1,
            group,
        );
    }

    /// Stores 0 in the group word of a later group, which makes it.
    pub(crate) fn store_made(&self, token: &mut Token, group: u16)
        requires seat { IsTokenOf self.now token.old }
        requires hand { token.old.me.0.tree.in_hand ≡ true }
        requires may { MayBeMade (hierarchy_of self.now.shape) token.old.me.0.tree.hand group }
        ensures made { token.new ≡ record token.old {
          me = with_tree token.old.me
              (with_made token.old.me.0.tree group);
        } }
    {
        self.store_as::<Brand>(token, WORDS_A_GROUP * group as usize + 2, 0, group);
    }
}
