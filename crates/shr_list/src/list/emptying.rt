// SPDX-License-Identifier: GPL-2.0-only
//! Emptying a list: into its parent's, or for good.

ghost use Rattle.std.specs.Prelude.{◌≡◌, ◌<◌, false, length};
ghost use Rattle.shr_model.specs.Items.{is_closed};
ghost use Rattle.shr_list.specs.Answers.{CloseGives, ListDrainGives};

use crate::answers::{CloseAnswer, DrainAnswer};
use crate::list::List;
use shr_base::journals::Entry;
use shr_base::places::Serial;

impl List {
    /// Puts the objects before the head of the parent's list, in their order, and closes this list:
    /// it takes no entry any more. `child` is the group of this list.
    ///
    /// The entry that closes a list is not counted against its `most_entries`.
    ///
    /// Linux: `memcg_reparent_list_lru_one` in mm/list_lru.c, which splices to the head too.
    pub fn close_into(&mut self, parent: &mut List, child: u16) -> CloseAnswer
        requires child_open { is_closed self.old.entries ≡ false }
        requires parent_open { is_closed parent.old.entries ≡ false }
        ensures { CloseGives self.old parent.old child result self.new parent.new }
    {
        let objects = self.contents.len() as u32;
        let entries = parent.contents.entries().len() as u32 + 1;
        let items = parent.contents.len() as u32 + objects;
        if entries > parent.most_entries || items > parent.most_items {
            return CloseAnswer::Worn { entries, items };
        }
        if self.contents.reserve().is_err() || parent.contents.reserve().is_err() {
            return CloseAnswer::Memory;
        }
        if parent.contents.put_before(&mut self.contents).is_err() {
            return CloseAnswer::Memory;
        }
        parent.contents.log(Entry::MovedIn { child, objects });
        self.contents.close();
        CloseAnswer::Moved { objects }
    }

    /// Takes all objects out, for the `unregister` of this command.
    ///
    /// Our own: the kernel leaves the objects of a freed shrinker to the cache's owner.
    pub fn drain(&mut self, by: Serial) -> DrainAnswer
        requires was_open { is_closed self.old.entries ≡ false }
        requires holds_one { 0 < length self.old.items }
        ensures { ListDrainGives self.old by result self.new }
    {
        let entry = self.contents.entries().len() as u32;
        if entry + 1 > self.most_entries {
            return DrainAnswer::Worn {
                entries: entry + 1,
                items: 0,
            };
        }
        let objects = self.contents.len() as u32;
        if self.contents.reserve().is_err() {
            return DrainAnswer::Memory;
        }
        let Ok(all) = self.contents.take_all() else {
            return DrainAnswer::Memory;
        };
        self.contents.log(Entry::Drained { by, objects });
        DrainAnswer::Drained { objects: all }
    }
}
