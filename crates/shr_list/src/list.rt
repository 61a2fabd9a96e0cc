// SPDX-License-Identifier: GPL-2.0-only
//! The list.

ghost use Rattle.std.specs.Prelude.{◌≡◌, ◌^◌, ◌≤◌, [], length, slice_get, option_copied};
ghost use Rattle.shr_model.specs.Items.{is_closed};
ghost use Rattle.shr_list.specs.Listed.{IsSound};
ghost use Rattle.shr_list.specs.Nodes.{slot_at, IsApart};

use crate::answers::Slot;
use crate::contents::Contents;
use shr_base::items::Items;
use shr_base::journals::Entry;
use shr_base::log::Log;
use shr_base::memory::Memory;
use shr_base::objects::Object;
use std::alloc::Global;
use std::marker::Model;

mod adding;
mod emptying;
mod scanning;
mod tenants;

/// The objects of one place from the head, and the journal that made them.
///
/// Contracts see the journal, the objects, the keys under which they are kept and the two limits.
/// Every entry was made by a call of this type, so the objects are what the journal leaves.
///
/// Linux: `struct list_lru_one` in include/linux/list_lru.h, which keeps a count and no journal.
#[derive(Drop)]
pub struct List {
    contents: Contents,
    most_items: u32,
    most_entries: u32,
}

impl Model for List {
    ghost use Rattle.shr_list.specs.Listed.{Listed, IsKept};

    ghost Value = { Listed };

    ghost view = { λ l. record {
      entries = l.contents.entries;
      items = l.contents.objects.items;
      keys = l.contents.objects.keys;
      most_items = l.most_items;
      most_entries = l.most_entries;
    } };

    ghost invariant = { λ l. IsKept l.contents.closed (record {
      entries = l.contents.entries;
      items = l.contents.objects.items;
      keys = l.contents.objects.keys;
      most_items = l.most_items;
      most_entries = l.most_entries;
    }) };
}

impl List {
    /// An empty list whose journal takes at most `most_entries` entries, and which holds at most
    /// `most_items` objects. It takes no memory.
    ///
    /// Linux: `init_one_lru` in mm/list_lru.c.
    pub fn new(alloc: Global, most_items: u32, most_entries: u32) -> List
        requires items { most_items ≤ 2 ^ 20 }
        requires entries { most_entries ≤ 2 ^ 31 }
        ensures { result ≡ record {
          entries = [];
          items = [];
          keys = [];
          most_items = most_items;
          most_entries = most_entries;
        } }
    {
        List {
            contents: Contents::new(alloc),
            most_items,
            most_entries,
        }
    }

    /// The journal, oldest entry first.
    pub fn entries(&self) -> &[Entry]
        ensures journal { result.now ≡ self.now.entries }
        ensures sound { IsSound self.now }
    {
        self.contents.entries()
    }

    /// The number of objects. Linux: `nr_items` of `struct list_lru_one`.
    pub fn len(&self) -> u32
        ensures { result ≡ length self.now.items }
    {
        self.contents.len() as u32
    }

    /// Whether the list was emptied into its parent's and takes no entries any more.
    ///
    /// Our own: in Linux `kmemcg_id` of the group leads to its parent's list from then on.
    pub fn closed(&self) -> bool
        ensures { result ≡ is_closed self.now.entries }
    {
        self.contents.closed()
    }

    /// An object, counted from the head from 0.
    pub fn item(&self, i: u32) -> Option<&Object>
        ensures { option_copied result ≡ slice_get self.now.items i }
    {
        self.contents.item(i as usize)
    }

    /// Where an object is kept, counted from the head from 0, and where its neighbours are.
    ///
    /// The slots of neighbours name each other's keys, the first has no `prev`, the last no `next`,
    /// and all keys differ. Over `add`, `look`, `drop_key`, `set_pin` and `scan` an object that
    /// stays listed keeps its key: it is not moved in memory. It costs the number of objects before
    /// it.
    ///
    /// Linux: `struct list_head` in the object, whose address is the key.
    pub fn slot(&self, i: u32) -> Option<Slot>
        ensures slot { result ≡ slot_at self.now.keys i }
        ensures apart { IsApart self.now.keys }
        ensures each { length self.now.keys ≡ length self.now.items }
    {
        self.contents.slot(i as usize)
    }

    /// Ends the list, and gives the journal and the objects from the head.
    pub fn into_parts(self) -> (Log<Entry>, Items)
        ensures journal { result.0.items ≡ self.entries }
        ensures items { result.1.items ≡ self.items }
        ensures sound { IsSound self }
    {
        self.contents.into_parts()
    }
}
