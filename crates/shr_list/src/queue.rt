// SPDX-License-Identifier: GPL-2.0-only
//! The objects of a list in their order, and an index of them by birth group and key.

ghost use Rattle.std.specs.Prelude.{◌≡◌, [], ◌∷◌, ◌++◌, length, slice_get, option_copied, option_map, OnOk, OnErr, IfOk, IfErr};
ghost use Rattle.shr_base.specs.declared.objects.Object.{Object};
ghost use Rattle.shr_model.specs.Items.{drop_kind_of, after_drop};
ghost use Rattle.shr_model.specs.Objects.{is_named, holds, named_in, marked_object, unmarked_object, pinned_object, change_first};
ghost use Rattle.shr_list.specs.Nodes.{IsQueueWhole, slot_at, IsApart, KeepsKeys, PushGives, first_key, key_named, IsAt, AtNode, loose_of};

use crate::answers::Slot;
use crate::queue::index::Index;
use crate::queue::links::Links;
use shr_base::items::Items;
use shr_base::journals::DropKind;
use shr_base::log::Log;
use shr_base::memory::Memory;
use shr_base::objects::Object;
use shr_base::text::Text;
use std::alloc::Global;
use std::marker::Model;

mod chain;
mod clashes;
mod index;
mod links;
mod names;
pub mod scanning;
mod splicing;

/// Objects from the head to the tail. Contracts see them, and the keys under which they are kept.
///
/// Linux: `list` of `struct list_lru_one` in include/linux/list_lru.h. The index is our own.
#[derive(Drop)]
pub struct Queue {
    links: Links,
    index: Index,
    alloc: Global,
}

impl Model for Queue {
    ghost use Rattle.shr_list.specs.Nodes.{Queued, keys_of, objects_of};
    ghost use Rattle.shr_list.specs.Known.{KnowsNames};

    ghost Value = { Queued };

    ghost view = { λ q. record {
      nodes = q.links.nodes;
      keys = keys_of q.links.nodes;
      items = objects_of q.links.nodes;
    } };

    ghost invariant = { λ q. KnowsNames q.index q.links.nodes };
}

impl Queue {
    /// No object. It takes no memory.
    ///
    /// Linux: `INIT_LIST_HEAD` in include/linux/list.h.
    pub fn new(alloc: Global) -> Queue
        ensures { result.items ≡ [] }
    {
        Queue {
            links: Links::new(alloc),
            index: Index::Few,
            alloc,
        }
    }

    /// The number of objects.
    ///
    /// Linux: `nr_items` of `struct list_lru_one` in include/linux/list_lru.h.
    pub fn len(&self) -> usize
        ensures { result ≡ length self.now.items }
    {
        self.links.len()
    }

    /// An object, counted from the head from 0. It costs the number of objects before it.
    pub fn item(&self, i: usize) -> Option<&Object>
        ensures { option_copied result ≡ slice_get self.now.items i }
    {
        match self.links.at(i) {
            None => None,
            Some(node) => Some(self.links.object(node)),
        }
    }

    /// Where an object is kept, counted from the head from 0. It costs the number of objects before
    /// it.
    pub fn slot(&self, i: usize) -> Option<Slot>
        ensures slot { result ≡ slot_at self.now.keys i }
        ensures apart { IsApart self.now.keys }
        ensures each { length self.now.keys ≡ length self.now.items }
    {
        self.links.slot(i)
    }

    // The node of the first object of this birth group and key.
    fn locate(&self, birth: u16, key: &Text) -> Option<u32>
        ensures named { result ≡ key_named birth key.now self.now.nodes }
        ensures whole { IsQueueWhole self.now }
    {
        self.index.find(&self.links, birth, key)
    }

    /// Whether an object has this birth group and key.
    pub fn holds(&self, birth: u16, key: &Text) -> bool
        ensures { result ≡ holds birth key.now self.now.items }
    {
        self.locate(birth, key).is_some()
    }

    /// The first object of this birth group and key.
    pub fn get(&self, birth: u16, key: &Text) -> Option<&Object>
        ensures { option_copied result ≡ named_in birth key.now self.now.items }
    {
        match self.locate(birth, key) {
            None => None,
            Some(node) => Some(self.links.object(node)),
        }
    }

    // Makes the index, where with this many more there are more than a few objects. The objects stay,
    // on `Memory` too.
    fn prepare(&mut self, more: usize) -> Result<(), Memory>
        ensures { self.new ≡ self.old }
    {
        self.index.prepare(self.alloc, &self.links, more)
    }

    // Appends an object as `push` does.
    fn append(&mut self, mut object: Object) -> Result<bool, Object>
        ensures told { IfOk result (λ pushed. PushGives self.old object pushed self.new) }
        ensures keys { KeepsKeys self.old.keys self.old.items self.new.keys self.new.items }
        ensures kept { OnErr result (self.new ≡ self.old) }
        ensures back { IfErr result (λ given. given ≡ object) }
    {
        match self.index.admit(&mut self.links, object.birth, &object.key) {
            Ok(true) => {}
            Ok(false) => return Ok(false),
            Err(Memory) => return Err(object),
        }
        object.marked = false;
        object.pinned = false;
        self.links.push_back(object);
        Ok(true)
    }

    /// Appends an object, unmarked and unpinned, if no other has its birth group and key, and
    /// answers whether none has. If there is no memory it comes back as it was, and the objects
    /// stay.
    ///
    /// Linux: `list_add_tail` in include/linux/list.h.
    pub fn push(&mut self, object: Object) -> Result<bool, Object>
        ensures told { IfOk result (λ pushed. PushGives self.old object pushed self.new) }
        ensures keys { KeepsKeys self.old.keys self.old.items self.new.keys self.new.items }
        ensures kept { OnErr result (self.new ≡ self.old) }
        ensures back { IfErr result (λ given. given ≡ object) }
    {
        if self.prepare(1).is_err() {
            return Err(object);
        }
        self.append(object)
    }

    /// Marks the first object of this birth group and key and gives its value, if there is one. If
    /// there is no memory for the value the object stays as it was.
    pub fn look(&mut self, birth: u16, key: &Text) -> Result<Option<Text>, Memory>
        ensures value { IfOk result (λ value. value ≡ option_map (λ (o : Object). o.value)
            (named_in birth key.now self.old.items)) }
        ensures items { OnOk result (self.new.items ≡ change_first (is_named birth key.now)
            marked_object self.old.items) }
        ensures keys { KeepsKeys self.old.keys self.old.items self.new.keys self.new.items }
        ensures kept { OnErr result (self.new ≡ self.old) }
    {
        let Some(node) = self.locate(birth, key) else {
            return Ok(None);
        };
        let value = self.links.object(node).value.copy()?;
        self.links.set_mark(node, true);
        Ok(Some(value))
    }

    /// Pins the first object of this birth group and key, or takes its pin away, and answers whether
    /// there is one.
    pub fn set_pin(&mut self, birth: u16, key: &Text, pinned: bool) -> bool
        ensures told { result ≡ holds birth key.now self.old.items }
        ensures items { self.new.items ≡ change_first (is_named birth key.now)
            (pinned_object pinned) self.old.items }
        ensures keys { KeepsKeys self.old.keys self.old.items self.new.keys self.new.items }
    {
        let Some(node) = self.locate(birth, key) else {
            return false;
        };
        self.links.set_pin(node, pinned);
        true
    }

    /// Takes the first object of this birth group and key out, if it is not pinned.
    ///
    /// Linux: `list_del_init` in `list_lru_del` of mm/list_lru.c.
    pub fn take(&mut self, birth: u16, key: &Text) -> (DropKind, Option<Object>)
        ensures kind { result.0 ≡ drop_kind_of (named_in birth key.now self.old.items) }
        ensures taken { result.1 ≡ loose_of (named_in birth key.now self.old.items) }
        ensures items { self.new.items ≡ after_drop birth key.now self.old.items
            (named_in birth key.now self.old.items) }
        ensures keys { KeepsKeys self.old.keys self.old.items self.new.keys self.new.items }
    {
        let Some(node) = self.locate(birth, key) else {
            return (DropKind::Miss, None);
        };
        if self.links.object(node).pinned {
            return (DropKind::Pinned, None);
        }
        (DropKind::Dropped, Some(self.free(node)))
    }

    /// The key of the first object's node.
    ///
    /// Linux: `list_first_entry` in include/linux/list.h.
    pub fn head(&self) -> Option<u32>
        ensures first { result ≡ first_key self.now.nodes }
        ensures whole { IsQueueWhole self.now }
    {
        self.links.head()
    }

    /// The key of the node after this one.
    ///
    /// Linux: `list_next_entry` in include/linux/list.h.
    pub fn next(&self, node: u32) -> Option<u32>
        requires { IsAt self.now.nodes node }
        ensures { AtNode self.now.nodes node (λ xs o ys. result ≡ first_key ys) }
    {
        self.links.next(node)
    }

    /// The object in the node with this key.
    ///
    /// Linux: `list_entry` in include/linux/list.h.
    pub fn object(&self, node: u32) -> &Object
        requires { IsAt self.now.nodes node }
        ensures { AtNode self.now.nodes node (λ xs o ys. result.now ≡ o) }
    {
        self.links.object(node)
    }

    /// Takes out the object in the node with this key.
    ///
    /// Linux: `list_lru_isolate` in mm/list_lru.c.
    pub fn free(&mut self, node: u32) -> Object
        requires { IsAt self.old.nodes node }
        ensures taken { AtNode self.old.nodes node (λ xs o ys. result ≡ o) }
        ensures nodes { AtNode self.old.nodes node (λ xs o ys. self.new.nodes ≡ xs ++ ys) }
        ensures whole { IsQueueWhole self.new }
    {
        let object = self.links.remove(node);
        self.index.remove(object.birth, &object.key);
        object
    }

    /// Clears the object's mark and moves the object to the tail. Its node does not change.
    ///
    /// Linux: `list_move_tail` in include/linux/list.h; the mark is `DCACHE_REFERENCED` of a
    /// dentry.
    pub fn rotate(&mut self, node: u32)
        requires { IsAt self.old.nodes node }
        ensures nodes { AtNode self.old.nodes node (λ xs o ys. self.new.nodes ≡ (xs ++ ys)
            ++ (node, unmarked_object o) ∷ []) }
        ensures whole { IsQueueWhole self.new }
    {
        self.links.set_mark(node, false);
        self.links.rotate(node);
    }

    /// Moves the objects into a list of its own. They stay if there is no memory for it.
    pub fn take_all(&mut self) -> Result<Log<Object>, Memory>
        ensures taken { IfOk result (λ all. (all.items ≡ self.old.items) × (self.new.items ≡ [])) }
        ensures kept { OnErr result (self.new ≡ self.old) }
    {
        let mut all = Log::new(self.alloc);
        all.reserve(self.links.len())?;
        self.links.empty_into(&mut all);
        self.index = Index::Few;
        Ok(all)
    }

    /// The objects at rest, where they lie.
    pub fn into_items(self) -> Items
        ensures { result.items ≡ self.items }
    {
        self.links.into_items()
    }
}
