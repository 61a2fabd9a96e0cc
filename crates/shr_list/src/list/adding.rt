// SPDX-License-Identifier: GPL-2.0-only
//! Adding an object.

ghost use Rattle.std.specs.Prelude.{IfErr, OnOk, []};
ghost use Rattle.shr_list.specs.Answers.{ListAddGives, HasRoom, IsWorn, add_entry};

use crate::answers::AddAnswer;
use crate::list::List;
use shr_base::journals::Entry;
use shr_base::objects::Object;

impl List {
    // Whether the journal and the list have room for this object, else their numbers with it. The
    // object is looked up only where a limit is near.
    fn room_for(&self, object: &Object) -> Result<(), (u32, u32)>
        ensures room { OnOk result (HasRoom self.now [] (add_entry self.now object.now)) }
        ensures worn { IfErr result (λ then. IsWorn self.now [] (add_entry self.now object.now)
            then.0 then.1) }
    {
        let entries = self.contents.entries().len() as u32 + 1;
        let items = self.contents.len() as u32;
        if entries <= self.most_entries && items < self.most_items {
            return Ok(());
        }
        let held = self.contents.holds(object.birth, &object.key);
        let items = items + u32::from(!held);
        if entries > self.most_entries || items > self.most_items {
            return Err((entries, items));
        }
        Ok(())
    }

    /// Adds an object at the tail, unmarked and unpinned, if none of its birth group and key is
    /// there.
    ///
    /// Linux: `list_lru_add` in mm/list_lru.c, which tests `list_empty` of the object's own link
    /// instead.
    pub fn add(&mut self, object: Object) -> AddAnswer
        ensures { ListAddGives self.old object result self.new }
    {
        if self.contents.closed() {
            return AddAnswer::Closed;
        }
        if let Err((entries, items)) = self.room_for(&object) {
            return AddAnswer::Worn { entries, items };
        }
        let Ok(key) = object.key.copy() else {
            return AddAnswer::Memory { object };
        };
        let Ok(value) = object.value.copy() else {
            return AddAnswer::Memory { object };
        };
        if self.contents.reserve().is_err() {
            return AddAnswer::Memory { object };
        }
        let entry = self.contents.entries().len() as u32;
        let by = object.serial;
        let birth = object.birth;
        let added = match self.contents.push(object) {
            Ok(added) => added,
            Err(object) => return AddAnswer::Memory { object },
        };
        self.contents.log(Entry::Add {
            by,
            birth,
            key,
            value,
            added,
        });
        if added {
            AddAnswer::Added { entry }
        } else {
            AddAnswer::Exists { entry }
        }
    }
}
