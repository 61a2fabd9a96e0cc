// SPDX-License-Identifier: GPL-2.0-only
//! How a queue takes in another's objects, and its index their names.

ghost use Rattle.std.specs.Prelude.{◌≡◌, ◌↔◌, ◌≤◌, ◌++◌, [], List, true, false, length, take, OnOk, OnErr, IfOk};
ghost use Rattle.shr_list.specs.Nodes.{Keyed, objects_of};
ghost use Rattle.shr_list.specs.Names.{AreNewNames, AreStrangers, Withdraws, IsIndexed};
ghost use Rattle.shr_list.specs.Known.{EntersNodes};

use crate::queue::Queue;
use crate::queue::index::Index;
use crate::queue::links::Links;
use crate::queue::names::Names;
use shr_base::memory::Memory;
use std::mem::swap;

// Takes the names of the first `count` objects out, which are there.
fn withdraw(names: &mut Names, links: &Links, count: usize)
    requires { count ≤ length links.now.nodes }
    ensures { Withdraws names.old names.new (take count links.now.nodes) }
{
    let mut at = links.head();
    for met in 0..count {
        let Some(node) = at else {
            return;
        };
        let object = links.object(node);
        names.remove(object.birth, &object.key);
        at = links.next(node);
    }
}

/// Puts the names of another list's objects into an index, by the nodes that they have there, and
/// answers whether each has a place. If there is no memory the names stay.
pub fn enlist(names: &mut Names, links: &Links, other: &Links) -> Result<bool, Memory>
    requires indexed { IsIndexed names.old links.now.nodes }
    requires strangers { AreStrangers links.now.nodes other.now.nodes }
    ensures placed { IfOk result (λ placed. placed ≡ true → IsIndexed names.new (links.now.nodes
        ++ other.now.nodes)) }
    ensures kept { OnErr result (IsIndexed names.new links.now.nodes) }
{
    let mut at = other.head();
    for met in 0..other.len() {
        let Some(node) = at else {
            return Ok(false);
        };
        let object = other.object(node);
        match names.put(object.birth, &object.key, node) {
            Ok(true) => {}
            Ok(false) => return Ok(false),
            Err(Memory) => {
                withdraw(names, other, met);
                return Err(Memory);
            }
        }
        at = other.next(node);
    }
    Ok(true)
}

// Makes the first `count` objects the nodes of their names, which are there.
fn enter(index: &mut Index, links: &Links, count: usize)
    requires { count ≤ length links.now.nodes }
    ensures { EntersNodes index.old index.new (take count links.now.nodes) }
{
    let mut at = links.head();
    for met in 0..count {
        let Some(node) = at else {
            return;
        };
        let object = links.object(node);
        index.turn(object.birth, &object.key, node);
        at = links.next(node);
    }
}

// Moves the objects of another list behind the tail, in their order, and makes their nodes those of
// their names. It costs their number.
//
// Linux: `list_splice_tail_init` in include/linux/list.h, which links the two ends only.
fn move_behind(index: &mut Index, links: &mut Links, other: &mut Links)
    requires { length other.old.nodes ≤ links.old.spare }
    ensures moved { (back : List Keyed) × (links.new.nodes ≡ links.old.nodes ++ back)
        × (objects_of back ≡ objects_of other.old.nodes) × EntersNodes index.old index.new back }
    ensures emptied { other.new.nodes ≡ [] }
{
    while let Some(node) = other.head() {
        let moved = links.push_back(other.remove(node));
        let object = links.object(moved);
        index.turn(object.birth, &object.key, moved);
    }
}

impl Queue {
    /// Moves the objects of another queue before the head, in their order. If there is no memory
    /// both stay. It costs the number of objects of the shorter one, which it moves; a longer one
    /// takes in those of this and takes its place.
    ///
    /// Linux: `list_splice_init` in include/linux/list.h.
    pub fn put_before(&mut self, other: &mut Queue) -> Result<(), Memory>
        ensures moved { OnOk result (self.new.items ≡ other.old.items ++ self.old.items) }
        ensures emptied { OnOk result (other.new.items ≡ []) }
        ensures kept { OnErr result (self.new ≡ self.old) }
        ensures kept_other { OnErr result (other.new ≡ other.old) }
    {
        if self.links.len() < other.links.len() {
            other.put_behind(self)?;
            swap(self, other);
            return Ok(());
        }
        let count = other.links.len();
        self.prepare(count)?;
        let apart = self.is_apart_from(other);
        self.links.reserve(count)?;
        self.index.take_in(&self.links, &other.links, apart)?;
        self.links.put_before(&mut other.links);
        enter(&mut self.index, &self.links, count);
        other.index = Index::Few;
        Ok(())
    }

    // Moves the objects of another queue behind the tail, in their order. If there is no memory both
    // stay.
    fn put_behind(&mut self, other: &mut Queue) -> Result<(), Memory>
        ensures moved { OnOk result (self.new.items ≡ self.old.items ++ other.old.items) }
        ensures emptied { OnOk result (other.new.items ≡ []) }
        ensures kept { OnErr result (self.new ≡ self.old) }
        ensures kept_other { OnErr result (other.new ≡ other.old) }
    {
        let count = other.links.len();
        self.prepare(count)?;
        let apart = self.is_apart_from(other);
        self.links.reserve(count)?;
        self.index.take_in(&self.links, &other.links, apart)?;
        move_behind(&mut self.index, &mut self.links, &mut other.links);
        other.index = Index::Few;
        Ok(())
    }

    // Whether an object of another queue has the name of one of this.
    fn holds_any(&self, other: &Queue) -> bool
        ensures { result ≡ false ↔ AreNewNames self.now.nodes other.now.nodes }
    {
        let mut at = other.head();
        for met in 0..other.len() {
            let Some(node) = at else {
                return true;
            };
            let object = other.object(node);
            if self.locate(object.birth, &object.key).is_some() {
                return true;
            }
            at = other.next(node);
        }
        false
    }

    // Whether no two objects of this queue and another are known to have one name.
    fn is_apart_from(&self, other: &Queue) -> bool
        ensures { result ≡ true → AreStrangers self.now.nodes other.now.nodes }
    {
        !self.index.is_given_up() && !other.index.is_given_up() && !self.holds_any(other)
    }
}
