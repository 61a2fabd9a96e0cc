// SPDX-License-Identifier: GPL-2.0-only
//! Nodes in a slab, each with the node before and the node after. A node is named by its key in the slab.

ghost use Rattle.std.specs.Prelude.{◌≡◌, ◌+◌, ◌++◌, ◌<◌, ◌≤◌, length, None, Some, []};
ghost use Rattle.shr_list.specs.Links.{IsLinked, nodes_of, IsStop, IsStored, SetsNext, SetsPrev, Joins, Inserts, Removes, SetsObject, object_at, stop_after, prev_of, spare_in};
ghost use Rattle.shr_model.specs.Objects.{pinned_object};
ghost use Rattle.shr_list.specs.Nodes.{objects_of, with_mark};

use shr_base::items::{Items, Node};
use shr_base::log::Log;
use shr_base::memory::Memory;
use shr_base::objects::Object;
use slab::Slab;

/// Nodes, with the first and the last. `None` stands for the place between the last and
/// the first, so what follows it is the head.
///
/// Linux: the `struct list_head` of a list, which stands for both ends.
#[derive(Drop)]
pub struct Chain {
    pub nodes: Slab<Node>,
    pub head: Option<u32>,
    pub tail: Option<u32>,
}

impl Chain {
    /// Makes `next` what follows `at`.
    ///
    /// Linux: `prev->next = next` of `__list_del` in include/linux/list.h.
    pub fn set_next(&mut self, at: Option<u32>, next: Option<u32>)
        requires { IsStop self.old at }
        ensures { SetsNext self.old self.new at next }
    {
        match at {
            None => self.head = next,
            Some(node) => self.nodes[node as usize].next = next,
        }
    }

    /// Makes `prev` what stands before `at`.
    ///
    /// Linux: `next->prev = prev` of `__list_del` in include/linux/list.h.
    pub fn set_prev(&mut self, at: Option<u32>, prev: Option<u32>)
        requires { IsStop self.old at }
        ensures { SetsPrev self.old self.new at prev }
    {
        match at {
            None => self.tail = prev,
            Some(node) => self.nodes[node as usize].prev = prev,
        }
    }

    /// Links the two: the second follows the first.
    ///
    /// Linux: `__list_del` in include/linux/list.h.
    pub fn join(&mut self, before: Option<u32>, after: Option<u32>)
        requires before { IsStop self.old before }
        requires after { IsStop self.old after }
        ensures { Joins self.old self.new before after }
    {
        self.set_next(before, after);
        self.set_prev(after, before);
    }

    /// Stores an object in a node that is not linked yet, and gives its key.
    pub fn insert(&mut self, object: Object) -> u32
        requires { 0 < spare_in self.old.nodes }
        ensures { Inserts self.old self.new result object }
    {
        self.nodes.insert_reserved(Node {
            object,
            prev: None,
            next: None,
        }) as u32
    }

    /// Takes a node away that is not linked any more.
    pub fn remove(&mut self, node: u32) -> Object
        requires { IsStored self.old node }
        ensures { Removes self.old self.new node result }
    {
        self.nodes.remove(node as usize).object
    }

    /// The key that follows this one.
    ///
    /// Linux: `next` of `struct list_head`, in include/linux/types.h.
    pub fn next(&self, node: u32) -> Option<u32>
        requires { IsStored self.now node }
        ensures { result ≡ stop_after self.now (Some node) }
    {
        self.nodes[node as usize].next
    }

    /// The key before this one.
    ///
    /// Linux: `prev` of `struct list_head`, in include/linux/types.h.
    pub fn prev(&self, node: u32) -> Option<u32>
        requires { IsStored self.now node }
        ensures { result ≡ prev_of self.now (Some node) }
    {
        self.nodes[node as usize].prev
    }

    /// The object in the node with this key.
    ///
    /// Linux: `list_entry` in include/linux/list.h.
    pub fn object(&self, node: u32) -> &Object
        requires { IsStored self.now node }
        ensures { object_at self.now node ≡ Some result.now }
    {
        &self.nodes[node as usize].object
    }

    /// Moves the objects from the head into a list.
    pub fn empty_into(&mut self, all: &mut Log<Object>)
        requires linked { IsLinked self.old (nodes_of self.old) }
        requires room { length (nodes_of self.old) ≤ all.old.spare }
        ensures taken { all.new.items ≡ all.old.items ++ objects_of (nodes_of self.old) }
        ensures emptied { IsLinked self.new [] }
    {
        let mut next = self.head;
        // All go, from the head on, so the links between those that are left can stay.
        while let Some(at) = next {
            let node = self.nodes.remove(at as usize);
            all.push(node.object);
            next = node.next;
        }
        self.head = None;
        self.tail = None;
    }

    /// The objects at rest, where they lie.
    #[tactic(auto, using(crate::proofs::Rested::rested, crate::proofs::Rested::rested_length))]
    pub fn into_items(self) -> Items
        requires { IsLinked self (nodes_of self) }
        ensures { result.items ≡ objects_of (nodes_of self) }
    {
        Items::of(self.nodes, self.head)
    }

    /// Marks the object under a key, or takes its mark away.
    pub fn set_mark(&mut self, node: u32, marked: bool)
        requires { IsStored self.old node }
        ensures { SetsObject self.old self.new node (with_mark marked) }
    {
        self.nodes[node as usize].object.marked = marked;
    }

    /// Pins the object under a key, or takes its pin away.
    pub fn set_pin(&mut self, node: u32, pinned: bool)
        requires { IsStored self.old node }
        ensures { SetsObject self.old self.new node (pinned_object pinned) }
    {
        self.nodes[node as usize].object.pinned = pinned;
    }
}
