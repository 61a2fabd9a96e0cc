// SPDX-License-Identifier: GPL-2.0-only
//! The objects of a list, linked in a slab: each stays in its node while it is there.

ghost use Rattle.std.specs.Prelude.{◌≡◌, ◌+◌, ◌<◌, ◌≤◌, ◌^◌, [], ◌∷◌, ◌++◌, length, OnOk, IfSome, IfNone, List};
ghost use Rattle.slab.specs.Slab.{HasRoomFor};
ghost use Rattle.shr_model.specs.Objects.{is_named, pinned_object};
ghost use Rattle.shr_list.specs.Nodes.{Keyed, with_mark, objects_of, keys_of, slot_at, IsApart, first_key, last_key, key_at, key_named, IsAt, AtNode};

use crate::answers::Slot;
use crate::queue::chain::Chain;
use shr_base::items::{Items, Node};
use shr_base::log::Log;
use shr_base::memory::Memory;
use shr_base::objects::Object;
use shr_base::text::Text;
use slab::Slab;
use std::alloc::{AllocError, Global};
use std::marker::Model;

// A key has 32 bits: there are so many.
const KEYS: usize = 1 << 32;

// A list of fewer nodes grows by as many as it wants, since most lists hold one object or two.
const FEW: usize = 4;

// Makes room for this many more nodes, and for no others while they are few.
fn make_room(nodes: &mut Slab<Node>, more: usize) -> Result<(), AllocError>
    ensures room { OnOk result (HasRoomFor nodes.new more) }
    ensures kept { nodes.new ≡ record nodes.old { capacity = nodes.new.capacity } }
{
    if nodes.capacity() < FEW {
        nodes.reserve_exact(more)
    } else {
        nodes.reserve(more)
    }
}

/// Objects from the head to the tail, each under a key of its own. Contracts see keys and objects
/// in this order, how many more fit without memory, and the key that the next one gets.
///
/// Linux: `struct list_head` in include/linux/types.h.
#[derive(Drop)]
pub struct Links {
    chain: Chain,
}

impl Model for Links {
    ghost use Rattle.shr_list.specs.Nodes.{Held};
    ghost use Rattle.shr_list.specs.Links.{IsLinked, nodes_of, spare_in};

    ghost Value = { Held };

    ghost view = { λ l. record {
      nodes = nodes_of l.chain;
      spare = spare_in l.chain.nodes;
      vacant = l.chain.nodes.vacant_key;
    } };

    ghost invariant = { λ l. IsLinked l.chain (nodes_of l.chain) };
}

impl Links {
    /// No object, and room for none.
    ///
    /// Linux: `INIT_LIST_HEAD` in include/linux/list.h.
    pub fn new(alloc: Global) -> Links
        ensures { result.nodes ≡ [] }
    {
        Links {
            chain: Chain {
                nodes: Slab::new(alloc),
                head: None,
                tail: None,
            },
        }
    }

    /// Makes room for this many more objects. Where their keys would not fit 32 bits it is as where
    /// there is no memory. The objects stay, whatever comes.
    pub fn reserve(&mut self, more: usize) -> Result<(), Memory>
        ensures nodes { self.new.nodes ≡ self.old.nodes }
        ensures spare { OnOk result (more ≤ self.new.spare) }
    {
        make_room(&mut self.chain.nodes, more)?;
        if self.chain.nodes.capacity() > KEYS {
            return Err(Memory);
        }
        Ok(())
    }

    /// The number of objects.
    pub fn len(&self) -> usize
        ensures { result ≡ length self.now.nodes }
    {
        self.chain.nodes.len()
    }

    /// The key of the first object's node.
    ///
    /// Linux: `list_first_entry` in include/linux/list.h.
    pub fn head(&self) -> Option<u32>
        ensures first { result ≡ first_key self.now.nodes }
        ensures apart { IsApart (keys_of self.now.nodes) }
    {
        self.chain.head
    }

    /// The key of the last object's node.
    ///
    /// Linux: `list_last_entry` in include/linux/list.h.
    pub fn tail(&self) -> Option<u32>
        ensures { result ≡ last_key self.now.nodes }
    {
        self.chain.tail
    }

    /// The key of the node after this one.
    ///
    /// Linux: `list_next_entry` in include/linux/list.h.
    pub fn next(&self, node: u32) -> Option<u32>
        requires { IsAt self.now.nodes node }
        ensures { AtNode self.now.nodes node (λ xs o ys. result ≡ first_key ys) }
    {
        self.chain.next(node)
    }

    /// The key of the node before this one.
    ///
    /// Linux: `list_prev_entry` in include/linux/list.h.
    pub fn prev(&self, node: u32) -> Option<u32>
        requires { IsAt self.now.nodes node }
        ensures { AtNode self.now.nodes node (λ xs o ys. result ≡ last_key xs) }
    {
        self.chain.prev(node)
    }

    /// The object in the node with this key.
    ///
    /// Linux: `list_entry` in include/linux/list.h.
    pub fn object(&self, node: u32) -> &Object
        requires { IsAt self.now.nodes node }
        ensures { AtNode self.now.nodes node (λ xs o ys. result.now ≡ o) }
    {
        self.chain.object(node)
    }

    /// Whether the object in the node with this key has this birth group and key.
    pub fn has_name(&self, node: u32, birth: u16, key: &Text) -> bool
        requires { IsAt self.now.nodes node }
        ensures { AtNode self.now.nodes node (λ xs o ys. result ≡ is_named birth key.now o) }
    {
        let object = self.object(node);
        object.birth == birth && object.key.same(key)
    }

    /// The key that the next object gets, or `None` where it has more than 32 bits.
    pub fn vacant(&self) -> Option<u32>
        ensures key { IfSome result (λ key. key ≡ self.now.vacant) }
        ensures large { IfNone result (2 ^ 32 ≤ self.now.vacant) }
    {
        let key = self.chain.nodes.vacant_key();
        if key >= KEYS {
            return None;
        }
        Some(key as u32)
    }

    /// Puts an object at the tail, and gives the key of its node.
    ///
    /// Linux: `list_add_tail` in include/linux/list.h.
    pub fn push_back(&mut self, object: Object) -> u32
        requires { 0 < self.old.spare }
        ensures key { result ≡ self.old.vacant }
        ensures nodes { self.new.nodes ≡ self.old.nodes ++ (self.old.vacant, object) ∷ [] }
        ensures spare { self.new.spare + 1 ≡ self.old.spare }
    {
        let tail = self.chain.tail;
        let node = self.chain.insert(object);
        self.chain.join(tail, Some(node));
        self.chain.join(Some(node), None);
        node
    }

    /// Puts an object before the head, and gives the key of its node.
    ///
    /// Linux: `list_add` in include/linux/list.h.
    pub fn push_front(&mut self, object: Object) -> u32
        requires { 0 < self.old.spare }
        ensures nodes { self.new.nodes ≡ (result, object) ∷ self.old.nodes }
        ensures spare { self.new.spare + 1 ≡ self.old.spare }
    {
        let head = self.chain.head;
        let node = self.chain.insert(object);
        self.chain.join(Some(node), head);
        self.chain.join(None, Some(node));
        node
    }

    /// Takes out the object in the node with this key.
    ///
    /// Linux: `list_del` in include/linux/list.h.
    pub fn remove(&mut self, node: u32) -> Object
        requires { IsAt self.old.nodes node }
        ensures taken { AtNode self.old.nodes node (λ xs o ys. result ≡ o) }
        ensures nodes { AtNode self.old.nodes node (λ xs o ys. self.new.nodes ≡ xs ++ ys) }
    {
        let prev = self.chain.prev(node);
        let next = self.chain.next(node);
        self.chain.join(prev, next);
        self.chain.remove(node)
    }

    /// Moves the object in the node with this key to the tail. It is not moved in memory, and keeps
    /// its node.
    ///
    /// Linux: `list_move_tail` in include/linux/list.h.
    pub fn rotate(&mut self, node: u32)
        requires { IsAt self.old.nodes node }
        ensures { AtNode self.old.nodes node (λ xs o ys. self.new.nodes ≡ (xs ++ ys) ++ (node, o)
            ∷ []) }
    {
        let prev = self.chain.prev(node);
        let next = self.chain.next(node);
        self.chain.join(prev, next);
        let last = self.chain.tail;
        self.chain.join(last, Some(node));
        self.chain.join(Some(node), None);
    }

    /// Marks the object under a key, or takes its mark away.
    pub fn set_mark(&mut self, node: u32, marked: bool)
        requires { IsAt self.old.nodes node }
        ensures { AtNode self.old.nodes node (λ xs o ys. self.new.nodes
            ≡ xs ++ (node, with_mark marked o) ∷ ys) }
    {
        self.chain.set_mark(node, marked);
    }

    /// Pins the object under a key, or takes its pin away.
    pub fn set_pin(&mut self, node: u32, pinned: bool)
        requires { IsAt self.old.nodes node }
        ensures { AtNode self.old.nodes node (λ xs o ys. self.new.nodes
            ≡ xs ++ (node, pinned_object pinned o) ∷ ys) }
    {
        self.chain.set_pin(node, pinned);
    }

    /// The key of an object's node, counted from the head from 0. It costs the number of objects
    /// before it.
    pub fn at(&self, i: usize) -> Option<u32>
        ensures key { result ≡ key_at i self.now.nodes }
        ensures apart { IsApart (keys_of self.now.nodes) }
    {
        let mut at = self.head();
        for met in 0..i {
            match at {
                None => return None,
                Some(node) => at = self.next(node),
            }
        }
        at
    }

    /// Where an object is kept, counted from the head from 0. It costs the number of objects before
    /// it.
    pub fn slot(&self, i: usize) -> Option<Slot>
        ensures slot { result ≡ slot_at (keys_of self.now.nodes) i }
        ensures apart { IsApart (keys_of self.now.nodes) }
    {
        match self.at(i) {
            None => None,
            Some(key) => Some(Slot {
                key,
                prev: self.prev(key),
                next: self.next(key),
            }),
        }
    }

    /// The key of the node of the first object with this birth group and key, searched from the
    /// head.
    pub fn find(&self, birth: u16, key: &Text) -> Option<u32>
        ensures { result ≡ key_named birth key.now self.now.nodes }
    {
        let mut at = self.head();
        for met in 0..self.len() {
            let Some(node) = at else {
                return None;
            };
            if self.has_name(node, birth, key) {
                return Some(node);
            }
            at = self.next(node);
        }
        None
    }

    /// Moves the objects from the head into a list. It costs their number.
    pub fn empty_into(&mut self, all: &mut Log<Object>)
        requires { length self.old.nodes ≤ all.old.spare }
        ensures taken { all.new.items ≡ all.old.items ++ objects_of self.old.nodes }
        ensures emptied { self.new.nodes ≡ [] }
    {
        self.chain.empty_into(all);
    }

    /// The objects at rest, where they lie.
    pub fn into_items(self) -> Items
        ensures { result.items ≡ objects_of self.nodes }
    {
        self.chain.into_items()
    }

    /// Moves the objects of another before the head, in their order. It costs their number.
    ///
    /// Linux: `list_splice_init` in include/linux/list.h, which links the two ends only.
    pub fn put_before(&mut self, other: &mut Links)
        requires { length other.old.nodes ≤ self.old.spare }
        ensures moved { (front : List Keyed) × (self.new.nodes ≡ front ++ self.old.nodes)
            × (objects_of front ≡ objects_of other.old.nodes) }
        ensures emptied { other.new.nodes ≡ [] }
    {
        while let Some(node) = other.tail() {
            let object = other.remove(node);
            self.push_front(object);
        }
    }
}
