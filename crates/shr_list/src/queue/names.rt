// SPDX-License-Identifier: GPL-2.0-only
//! An index of objects: from a birth group and a key to a node.

ghost use Rattle.std.specs.Prelude.{◌≡◌, [], None, IfOk, OnErr, Some};
ghost use Rattle.shr_list.specs.Nodes.{key_named};
ghost use Rattle.shr_list.specs.Names.{print_of, IsIndexed, AddsName, PutsName, KeepsFound, TurnsName};

use crate::queue::clashes::{Added, Clashes};
use crate::queue::links::Links;
use shr_base::memory::Memory;
use shr_base::text::Text;
use std::alloc::Global;
use std::collections::HashMap;
use std::collections::hash_map::Entry;
use std::hash::{FoldHasher, Hasher};

/// A table of prints, and the names whose print another has, by a second one. A print has a node
/// alone: whose it is stands at the object. Strangers choose the keys, and can choose them so that
/// their prints share a place of the table; a look-up then goes over these, and over no more than
/// the list has objects.
///
/// A name both of whose prints other names have gets no place here, and its list gives the index
/// up. Both have to be hit at once, the first of 32 bits and the second of 128: keys of one first
/// print are soon made, but as far as is known some 2^64 of them have to be tried before two have
/// one second print too.
#[derive(Drop)]
pub struct Names {
    prints: HashMap<u32, u32>,
    clashes: Clashes,
}

// A number that is the same for the same name.
#[tactic(auto, unfolding(crate::specs::Names::print_of))]
fn print_of(birth: u16, key: &Text) -> u32
    ensures { result ≡ print_of birth key.now }
{
    let mut hasher = FoldHasher::default();
    hasher.write(key.bytes());
    let hash = hasher.finish() % (1 << 32);
    (hash as u32).wrapping_add(birth as u32)
}

impl Names {
    /// No name. It takes no memory.
    pub fn new(alloc: Global) -> Names
        ensures { IsIndexed result [] }
    {
        Names {
            prints: HashMap::new(alloc),
            clashes: Clashes::new(alloc),
        }
    }

    /// The node of this birth group and key, among these.
    pub fn get(&self, links: &Links, birth: u16, key: &Text) -> Option<u32>
        requires { IsIndexed self.now links.now.nodes }
        ensures { result ≡ key_named birth key.now links.now.nodes }
    {
        match self.prints.get(&print_of(birth, key)) {
            Some(node) if links.has_name(*node, birth, key) => Some(*node),
            _ => self.clashes.get(birth, key),
        }
    }

    /// Makes this the node of a name, if none of these has it and it has a place, and answers which
    /// of these is so. If it is not made so, also for want of memory, the names stay.
    pub fn add(&mut self, links: &Links, birth: u16, key: &Text, node: u32) -> Result<Added, Memory>
        requires { IsIndexed self.old links.now.nodes }
        ensures told { IfOk result (λ added. AddsName self.old self.new links.now.nodes
            (birth, key.now) node added) }
        ensures kept { OnErr result (KeepsFound self.old self.new) }
    {
        match self.prints.entry(print_of(birth, key))? {
            Entry::Vacant(place) => {
                if self.clashes.get(birth, key).is_some() {
                    return Ok(Added::Known);
                }
                place.insert(node);
                Ok(Added::New)
            }
            Entry::Occupied(place) => {
                if links.has_name(*place.get(), birth, key) {
                    return Ok(Added::Known);
                }
                self.clashes.add(birth, key, node)
            }
        }
    }

    /// Makes this the node of a name that is new, if it has a place, and answers whether it has. If
    /// it has none, or for want of memory, the names stay.
    pub fn put(&mut self, birth: u16, key: &Text, node: u32) -> Result<bool, Memory>
        ensures put { IfOk result (λ placed. PutsName self.old self.new (birth, key.now) node
            placed) }
        ensures kept { OnErr result (KeepsFound self.old self.new) }
    {
        match self.prints.entry(print_of(birth, key))? {
            Entry::Vacant(place) => {
                place.insert(node);
                Ok(true)
            }
            Entry::Occupied(_) => match self.clashes.add(birth, key, node)? {
                Added::New | Added::Known => Ok(true),
                Added::Crowded => Ok(false),
            },
        }
    }

    /// Makes this the node of a name that is there. It takes no memory.
    pub fn turn(&mut self, birth: u16, key: &Text, node: u32)
        ensures { TurnsName self.old self.new (birth, key.now) (Some node) }
    {
        if self.clashes.get(birth, key).is_some() {
            self.clashes.turn(birth, key, node);
        } else if let Some(place) = self.prints.get_mut(&print_of(birth, key)) {
            *place = node;
        }
    }

    /// Takes a name out that is there.
    pub fn remove(&mut self, birth: u16, key: &Text)
        ensures { TurnsName self.old self.new (birth, key.now) None }
    {
        if self.clashes.get(birth, key).is_some() {
            self.clashes.remove(birth, key);
        } else {
            self.prints.remove(&print_of(birth, key));
        }
    }
}
