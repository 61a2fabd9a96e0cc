// SPDX-License-Identifier: GPL-2.0-only
//! Whether a group is online, making it, and taking it offline.

ghost use Rattle.std.specs.Prelude.{◌≡◌, ◌*◌, ◌<◌, ◌≤◌, true, IsSome, None, List, length};
ghost use Rattle.shr_base.specs.declared.journals.TreeEntry.{TreeEntry};
ghost use Rattle.shr_model.specs.Groups.{is_later};
ghost use Rattle.shr_model.specs.TreeJournal.{begin_of, done_of, made_of, is_made, undone_child, MayBeMade, IsTreeJournal};
ghost use Rattle.shr_seats.specs.Shapes.{hierarchy_of};
ghost use Rattle.shr_model.specs.TreeJournal as journal;
ghost use Rattle.shr_charge.specs.Answers.{KnowsTree, BeginTells, BeginLeaves, IfGiven, MakeTells, MakeLeaves, DoneTells, DoneLeaves};
ghost use Rattle.shr_charge.specs.Offlining.{opens, state_at};
ghost use Rattle.shr_charge.specs.Rooms.{Decides, Settles, hand_by, hand_made};
ghost use Rattle.shr_charge.specs.Searching.{AreMarkedGroups};
ghost use Rattle.shr_charge.specs.Seat.{IsTokenOf, tree_of};
ghost use Rattle.shr_charge.specs.Steps.{with_load};
ghost use Rattle.shr_charge.specs.Told.{Shows, IsWord, state_in, with_tree};

use crate::answers::{BeginAnswer, DoneAnswer, GroupState, MakeAnswer};
use crate::searching::{Marks, first_like};
use crate::table::{Charge, ChargeSeat, Token};
use crate::words::WORDS_A_GROUP;
use shr_base::journals::TreeEntry;
use shr_base::log::Log;
use std::marker::Brand;
use std::sync::Wait;

/// The word of a group that is later and isn't made.
pub(crate) const NOT_MADE: u64 = 1 << 63;

// What a group word tells.
fn state_of(word: u64) -> GroupState
    requires { IsWord 256 word }
    ensures { result ≡ state_in word }
{
    if word == 0 {
        GroupState::Online
    } else if word == NOT_MADE {
        GroupState::NotMade
    } else {
        GroupState::Offline {
            entry: (word - 1) as u32,
        }
    }
}

impl Charge {
    // Whether a group isn't there at the start.
    fn is_later(&self, group: u16) -> bool
        requires group { group < length self.now.shape.parents.items }
        ensures { result ≡ is_later self.now.shape.later.items group }
    {
        self.shape.later.as_slice()[group as usize]
    }

    // What a group's word tells while the room is in hand: what the journal says.
    fn state_in_hand(&self, token: &mut Token, group: u16) -> GroupState
        requires seat { IsTokenOf self.now token.old }
        requires hand { token.old.me.0.tree.in_hand ≡ true }
        requires group { group < length self.now.shape.parents.items }
        ensures same { token.new ≡ token.old }
        ensures state { result ≡ state_at (hierarchy_of self.now.shape)
            token.old.me.0.tree.hand group }
    {
        let at = WORDS_A_GROUP * group as usize + 2;
        state_of(self.load_as::<Brand>(token, at, group))
    }

    // The number of a group's Done, which stands behind its Begin.
    fn done_in(&self, token: &mut Token, entries: &[TreeEntry], group: u16) -> Option<u32>
        requires seat { IsTokenOf self.now token.old }
        requires hand { token.old.me.0.tree.in_hand ≡ true }
        requires journal { token.old.me.0.tree.hand ≡ entries.now }
        requires legal { IsTreeJournal (hierarchy_of self.now.shape) entries.now }
        requires group { group < length self.now.shape.parents.items }
        requires short { length entries.now ≤ 3 * length self.now.shape.parents.items }
        ensures same { token.new ≡ token.old }
        ensures done { result ≡ done_of entries.now group }
    {
        match self.state_in_hand(token, group) {
            GroupState::Offline { entry } => {
                first_like(entries, TreeEntry::Done { group }, entry as usize + 1)
            }
            GroupState::Online | GroupState::NotMade => None,
        }
    }

    // The number of a group's Made, which has none where its word tells that it isn't made.
    fn made_in(&self, token: &mut Token, entries: &[TreeEntry], group: u16) -> Option<u32>
        requires seat { IsTokenOf self.now token.old }
        requires hand { token.old.me.0.tree.in_hand ≡ true }
        requires journal { token.old.me.0.tree.hand ≡ entries.now }
        requires group { group < length self.now.shape.parents.items }
        requires short { length entries.now ≤ 3 * length self.now.shape.parents.items }
        ensures same { token.new ≡ token.old }
        ensures made { result ≡ made_of entries.now group }
    {
        match self.state_in_hand(token, group) {
            GroupState::Online | GroupState::Offline { entry: _ } => {
                first_like(entries, TreeEntry::Made { group }, 0)
            }
            GroupState::NotMade => None,
        }
    }

    // Whether a group is a child that is made and isn't done.
    fn is_undone(&self, marks: &Marks, group: u16, child: u16) -> bool
        requires child { child < length self.now.shape.parents.items }
        ensures { (entries : List TreeEntry) → AreMarkedGroups entries marks.now
            → result ≡ journal.is_undone_child (hierarchy_of self.now.shape) entries group child }
    {
        child > 0
            && self.parent(child) == group
            && (!self.is_later(child) || marks.made[child as usize])
            && !marks.done[child as usize]
    }

    // The lowest child that is made and isn't done.
    fn undone_child(&self, entries: &[TreeEntry], group: u16) -> Option<u16>
        ensures { result ≡ undone_child (hierarchy_of self.now.shape) entries.now group }
    {
        let marks = Marks::of(entries);
        for child in 0..self.shape.parents.len() {
            if self.is_undone(&marks, group, child as u16) {
                return Some(child as u16);
            }
        }
        None
    }

    // Begins to take a group offline that is online and isn't the root, with the room in hand.
    fn begin_online(&self, token: &mut Token, room: &mut Log<TreeEntry>, group: u16) -> BeginAnswer
        requires seat { IsTokenOf self.now token.old }
        requires hand { token.old.me.0.tree.in_hand ≡ true }
        requires journal { token.old.me.0.tree.hand ≡ room.old.items }
        requires group { group < length self.now.shape.parents.items }
        requires above { 0 < group }
        requires made { is_made (hierarchy_of self.now.shape) room.old.items group ≡ true }
        requires fresh { begin_of room.old.items group ≡ None }
        requires undone { done_of room.old.items group ≡ None }
        requires spare { opens (length self.now.shape.parents.items) room.old.items
            ≤ room.old.spare }
        requires short { length room.old.items ≤ 3 * length self.now.shape.parents.items }
        ensures view { token.new ≡ record token.old {
          me = with_tree token.old.me
              (hand_by group result token.old.me.0.tree);
        } }
        ensures decides { Decides (hierarchy_of self.now.shape) group result room.old.items
            room.new.items }
        ensures spare { opens (length self.now.shape.parents.items) room.new.items
            ≤ room.new.spare }
    {
        let entry = room.len() as u32;
        if let Some(child) = self.undone_child(room.as_slice(), group) {
            return BeginAnswer::HasChildren { child, entry };
        }
        // The Begin, and a Done for each group.
        if room.reserve(self.shape.parents.len() + 2).is_err() {
            return BeginAnswer::Memory;
        }
        room.push(TreeEntry::Begin { group });
        self.store_begin(token, group, entry);
        BeginAnswer::Begun { entry }
    }

    // Begins to take a group offline that isn't the root, with the room in hand.
    fn begin_in(&self, token: &mut Token, room: &mut Log<TreeEntry>, group: u16) -> BeginAnswer
        requires seat { IsTokenOf self.now token.old }
        requires hand { token.old.me.0.tree.in_hand ≡ true }
        requires journal { token.old.me.0.tree.hand ≡ room.old.items }
        requires legal { IsTreeJournal (hierarchy_of self.now.shape) room.old.items }
        requires group { group < length self.now.shape.parents.items }
        requires above { 0 < group }
        requires spare { opens (length self.now.shape.parents.items) room.old.items
            ≤ room.old.spare }
        requires short { length room.old.items ≤ 3 * length self.now.shape.parents.items }
        ensures view { token.new ≡ record token.old {
          me = with_tree token.old.me
              (hand_by group result token.old.me.0.tree);
        } }
        ensures decides { Decides (hierarchy_of self.now.shape) group result room.old.items
            room.new.items }
        ensures spare { opens (length self.now.shape.parents.items) room.new.items
            ≤ room.new.spare }
    {
        if let Some(entry) = self.done_in(token, room.as_slice(), group) {
            return BeginAnswer::AlreadyDone { entry };
        }
        match self.state_in_hand(token, group) {
            GroupState::Offline { entry } => BeginAnswer::Resumed { entry },
            GroupState::NotMade => BeginAnswer::NotMade { group },
            GroupState::Online => self.begin_online(token, room, group),
        }
    }

    // Makes a later group that isn't made, below a parent that is online, with the room in hand.
    fn make_online(&self, token: &mut Token, room: &mut Log<TreeEntry>, group: u16) -> MakeAnswer
        requires seat { IsTokenOf self.now token.old }
        requires hand { token.old.me.0.tree.in_hand ≡ true }
        requires journal { token.old.me.0.tree.hand ≡ room.old.items }
        requires may { MayBeMade (hierarchy_of self.now.shape) room.old.items group }
        requires spare { opens (length self.now.shape.parents.items) room.old.items
            ≤ room.old.spare }
        requires short { length room.old.items ≤ 3 * length self.now.shape.parents.items }
        ensures view { token.new ≡ record token.old {
          me = with_tree token.old.me
              (hand_made group result token.old.me.0.tree);
        } }
        ensures settles { Settles (hierarchy_of self.now.shape) group result room.old.items
            room.new.items }
        ensures spare { opens (length self.now.shape.parents.items) room.new.items
            ≤ room.new.spare }
    {
        let entry = room.len() as u32;
        // The Made, and a Done for each group.
        if room.reserve(self.shape.parents.len() + 1).is_err() {
            return MakeAnswer::Memory;
        }
        room.push(TreeEntry::Made { group });
        self.store_made(token, group);
        MakeAnswer::Made { entry }
    }

    // Makes a later group, with the room in hand.
    fn make_in(&self, token: &mut Token, room: &mut Log<TreeEntry>, group: u16) -> MakeAnswer
        requires seat { IsTokenOf self.now token.old }
        requires hand { token.old.me.0.tree.in_hand ≡ true }
        requires journal { token.old.me.0.tree.hand ≡ room.old.items }
        requires legal { IsTreeJournal (hierarchy_of self.now.shape) room.old.items }
        requires group { group < length self.now.shape.parents.items }
        requires late { is_later self.now.shape.later.items group ≡ true }
        requires spare { opens (length self.now.shape.parents.items) room.old.items
            ≤ room.old.spare }
        requires short { length room.old.items ≤ 3 * length self.now.shape.parents.items }
        ensures view { token.new ≡ record token.old {
          me = with_tree token.old.me
              (hand_made group result token.old.me.0.tree);
        } }
        ensures settles { Settles (hierarchy_of self.now.shape) group result room.old.items
            room.new.items }
        ensures spare { opens (length self.now.shape.parents.items) room.new.items
            ≤ room.new.spare }
    {
        if let Some(entry) = self.made_in(token, room.as_slice(), group) {
            return MakeAnswer::AlreadyMade { entry };
        }
        let parent = self.parent(group);
        match self.state_in_hand(token, parent) {
            GroupState::NotMade => MakeAnswer::NotMade { group: parent },
            GroupState::Offline { entry } => MakeAnswer::Offline { entry },
            GroupState::Online => self.make_online(token, room, group),
        }
    }
}

impl<'a> ChargeSeat<'a> {
    /// Begins to take a group offline: stores its group word and appends its Begin, or tells why
    /// not.
    ///
    /// It waits for the tree room, and takes memory for the journal. Linux:
    /// `mem_cgroup_css_offline` in mm/memcontrol.c.
    pub fn begin_offline<R: Wait>(&mut self, rt: &R, group: u16) -> BeginAnswer
        requires group { group < length self.old.charge.shape.parents.items }
        ensures tells { BeginTells (hierarchy_of self.old.charge.shape) group result (tree_of self.old)
            (tree_of self.new).known }
        ensures view { BeginLeaves group result (tree_of self.old) (tree_of self.new) }
        ensures knows { IfGiven result (KnowsTree (hierarchy_of self.old.charge.shape) (tree_of self.old)
            (tree_of self.new)) }
        ensures rest { self.new ≡ record self.old { tree = tree_of self.new } }
    {
        if group == 0 {
            return BeginAnswer::Root;
        }
        let mut room = self.charge.take_tree(rt, &mut self.token);
        let answer = self.charge.begin_in(&mut self.token, &mut room, group);
        self.charge.give_tree(&mut self.token, room);
        answer
    }

    /// Makes a later group: stores its group word and appends its Made, or tells why not.
    ///
    /// It waits for the tree room, and takes memory for the journal. Linux: `cgroup_mkdir` in
    /// kernel/cgroup/cgroup.c, which refuses below a parent that is dying.
    pub fn make_group<R: Wait>(&mut self, rt: &R, group: u16) -> MakeAnswer
        requires group { group < length self.old.charge.shape.parents.items }
        requires late { is_later self.old.charge.shape.later.items group ≡ true }
        ensures tells { MakeTells (hierarchy_of self.old.charge.shape) group result (tree_of self.old)
            (tree_of self.new).known }
        ensures view { MakeLeaves group result (tree_of self.old) (tree_of self.new) }
        ensures knows { KnowsTree (hierarchy_of self.old.charge.shape) (tree_of self.old)
            (tree_of self.new) }
        ensures rest { self.new ≡ record self.old { tree = tree_of self.new } }
    {
        let mut room = self.charge.take_tree(rt, &mut self.token);
        let answer = self.charge.make_in(&mut self.token, &mut room, group);
        self.charge.give_tree(&mut self.token, room);
        answer
    }

    /// Finishes taking a group offline whose Begin is known: appends its Done.
    ///
    /// It waits for the tree room, and takes no memory: its room was made by `begin_offline`.
    ///
    /// Linux: `offline_css` in kernel/cgroup/cgroup.c, which clears `CSS_ONLINE` only here, after
    /// `mem_cgroup_css_offline`.
    pub fn done_offline<R: Wait>(&mut self, rt: &R, group: u16) -> DoneAnswer
        requires group { group < length self.old.charge.shape.parents.items }
        requires begun { IsSome (begin_of (tree_of self.old).known group) }
        ensures tells { DoneTells (hierarchy_of self.old.charge.shape) group result (tree_of self.old)
            (tree_of self.new).known }
        ensures view { DoneLeaves group result (tree_of self.old) (tree_of self.new) }
        ensures knows { KnowsTree (hierarchy_of self.old.charge.shape) (tree_of self.old)
            (tree_of self.new) }
        ensures rest { self.new ≡ record self.old { tree = tree_of self.new } }
    {
        let mut room = self.charge.take_tree(rt, &mut self.token);
        if let Some(entry) = self.charge.done_in(&mut self.token, room.as_slice(), group) {
            self.charge.give_tree(&mut self.token, room);
            return DoneAnswer::AlreadyDone { entry };
        }
        let entry = room.len() as u32;
        room.push(TreeEntry::Done { group });
        self.charge.give_done(&mut self.token, room, group);
        DoneAnswer::Done { entry }
    }

    /// Whether a group is made and online, by one load.
    ///
    /// It takes no memory and doesn't wait. Linux: `mem_cgroup_online` in
    /// include/linux/memcontrol.h.
    pub fn state(&mut self, group: u16) -> GroupState
        requires group { group < length self.old.charge.shape.parents.items }
        ensures loaded { self.new ≡ record self.old {
          tree = with_load (tree_of self.old) group result;
        } }
        ensures shows { Shows (hierarchy_of self.old.charge.shape) (tree_of self.old) group result }
    {
        let at = WORDS_A_GROUP * group as usize + 2;
        state_of(self.charge.load_as::<Brand>(&mut self.token, at, group))
    }
}
