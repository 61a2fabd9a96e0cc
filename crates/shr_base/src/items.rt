// SPDX-License-Identifier: GPL-2.0-only
//! The objects of a list at rest.

ghost use Rattle.std.specs.Prelude.{◌≡◌, [], ◌∷◌, length, IfSome, IfNone};
ghost use Rattle.slab.specs.Slab.{slab_len};
ghost use Rattle.shr_base.specs.Rest.{objects_from};

use crate::objects::Object;
use slab::Slab;
use std::alloc::Global;
use std::marker::Model;

/// An object, and the keys of its neighbours in the order of the list. A key has 32 bits: a list is
/// of less than 2^32 objects.
///
/// Linux: an object with its `struct list_head`, of include/linux/types.h.
#[derive(Drop)]
pub struct Node {
    pub object: Object,
    pub prev: Option<u32>,
    pub next: Option<u32>,
}

/// The objects of a list that has ended, from the head. They stay where they lay while it ran: each
/// node names the next. Contracts see them as those of a list with no spare.
#[derive(Drop)]
pub struct Items {
    nodes: Slab<Node>,
    head: Option<u32>,
}

impl Model for Items {
    ghost use Rattle.std.specs.Prelude.{◌≡◌, length};
    ghost use Rattle.slab.specs.Slab.{slab_len};
    ghost use Rattle.shr_base.specs.declared.objects.Object.{Object};
    ghost use Rattle.shr_base.specs.Kept.{Kept};
    ghost use Rattle.shr_base.specs.Rest.{objects_from};

    ghost Value = { Kept Object };

    ghost view = { λ i. record { items = objects_from i.nodes (slab_len i.nodes) i.head; spare = 0 } };

    ghost invariant = { λ i. length (objects_from i.nodes (slab_len i.nodes) i.head)
        ≡ slab_len i.nodes };
}

impl Items {
    /// No objects. It takes no memory.
    pub fn new(alloc: Global) -> Items
        ensures { result.items ≡ [] }
    {
        Items {
            nodes: Slab::new(alloc),
            head: None,
        }
    }

    /// The objects in these nodes, from the head on, of which each node is one.
    pub fn of(nodes: Slab<Node>, head: Option<u32>) -> Items
        requires { length (objects_from nodes (slab_len nodes) head) ≡ slab_len nodes }
        ensures { result.items ≡ objects_from nodes (slab_len nodes) head }
    {
        Items { nodes, head }
    }

    /// The number of objects.
    pub fn len(&self) -> usize
        ensures { result ≡ length self.now.items }
    {
        self.nodes.len()
    }

    /// A walk over the objects from the head.
    pub fn walk(&self) -> Walk
        ensures { result ≡ self.now.items }
    {
        Walk {
            nodes: &self.nodes,
            at: self.head,
            left: self.nodes.len(),
        }
    }
}

/// A walk over objects, which contracts see as those that it has not met yet.
#[derive(Drop)]
pub struct Walk<'a> {
    nodes: &'a Slab<Node>,
    at: Option<u32>,
    left: usize,
}

impl<'a> Model for Walk<'a> {
    ghost use Rattle.std.specs.Prelude.{List};
    ghost use Rattle.shr_base.specs.declared.objects.Object.{Object};
    ghost use Rattle.shr_base.specs.Rest.{objects_from};

    ghost Value = { List Object };

    ghost view = { λ w. objects_from w.nodes.now w.left w.at };
}

impl<'a> Walk<'a> {
    /// The next object.
    pub fn next(&mut self) -> Option<&'a Object>
        ensures met { IfSome result (λ o. self.old ≡ o.now ∷ self.new) }
        ensures ended { IfNone result (self.old ≡ []) }
    {
        if self.left == 0 {
            return None;
        }
        let key = self.at?;
        let node = self.nodes.get(key as usize)?;
        self.at = node.next;
        self.left -= 1;
        Some(&node.object)
    }
}
