// SPDX-License-Identifier: GPL-2.0-only
//! How a list finds its objects by name.

ghost use Rattle.std.specs.Prelude.{◌≡◌, ◌++◌, true, false, OnOk, OnErr, IfOk};
ghost use Rattle.shr_list.specs.Nodes.{key_named, IsApart};
ghost use Rattle.shr_list.specs.Names.{names_of, AreStrangers};
ghost use Rattle.shr_list.specs.Known.{KnowsNames, AdmitsName, LosesName, MovesName};

use crate::queue::clashes::Added;
use crate::queue::links::Links;
use crate::queue::names::Names;
use crate::queue::splicing::enlist;
use shr_base::memory::Memory;
use shr_base::text::Text;
use std::alloc::Global;

// So many objects are found as soon from the head as by an index.
const FEW: usize = 8;

/// The index of a list, if it has one. Most lists are of a few objects and have none, so it is in a
/// box.
#[derive(Drop)]
pub enum Index {
    /// No two objects have one name. The list never had more than a few, and is searched from the
    /// head.
    Few,
    /// It has all objects.
    Made(Box<Names>),
    /// The list is searched from the head until it is emptied. It took in an object of a name that
    /// it has, or one both of whose prints others have.
    GivenUp,
}

impl Index {
    /// The node of the first of these objects with this birth group and key.
    pub fn find(&self, links: &Links, birth: u16, key: &Text) -> Option<u32>
        requires { KnowsNames self.now links.now.nodes }
        ensures { result ≡ key_named birth key.now links.now.nodes }
    {
        match self {
            Index::Made(names) => names.get(links, birth, key),
            _ => links.find(birth, key),
        }
    }

    // An index of these objects.
    fn of(alloc: Global, links: &Links) -> Result<Index, Memory>
        requires { IsApart (names_of links.now.nodes) }
        ensures { IfOk result (λ index. KnowsNames index links.now.nodes) }
    {
        let mut names = Box::new(alloc, Names::new(alloc))?;
        let none = Links::new(alloc);
        if enlist(&mut names, &none, links)? {
            return Ok(Index::Made(names));
        }
        Ok(Index::GivenUp)
    }

    /// Makes the index, where with this many more there are more than a few objects and it was not
    /// given up. What is known of the objects stays, on `Memory` too.
    pub fn prepare(&mut self, alloc: Global, links: &Links, more: usize) -> Result<(), Memory>
        requires { KnowsNames self.old links.now.nodes }
        ensures { KnowsNames self.new links.now.nodes }
    {
        if links.len() == 0 && self.is_given_up() {
            *self = Index::Few;
        }
        let few = links.len().saturating_add(more) <= FEW;
        if few || !matches!(self, Index::Few) {
            return Ok(());
        }
        *self = Index::of(alloc, links)?;
        Ok(())
    }

    /// Makes room for an object of this name at the tail, and tells the index of it, if none of
    /// these has the name, and answers whether none has. If there is no memory all stays.
    pub fn admit(&mut self, links: &mut Links, birth: u16, key: &Text) -> Result<bool, Memory>
        requires { KnowsNames self.old links.old.nodes }
        ensures told { IfOk result (λ admitted. AdmitsName self.new links.new (birth, key.now)
            admitted) }
        ensures nodes { links.new.nodes ≡ links.old.nodes }
        ensures kept { OnErr result (KnowsNames self.new links.new.nodes) }
    {
        let Index::Made(names) = self else {
            if links.find(birth, key).is_some() {
                return Ok(false);
            }
            links.reserve(1)?;
            return Ok(true);
        };
        links.reserve(1)?;
        let Some(node) = links.vacant() else {
            return Err(Memory);
        };
        match names.add(links, birth, key, node)? {
            Added::New => Ok(true),
            Added::Known => Ok(false),
            Added::Crowded => {
                *self = Index::GivenUp;
                Ok(true)
            }
        }
    }

    /// Takes a name out that is there.
    pub fn remove(&mut self, birth: u16, key: &Text)
        ensures { LosesName self.old self.new (birth, key.now) }
    {
        if let Index::Made(names) = self {
            names.remove(birth, key);
        }
    }

    /// Makes this the node of a name that is there. It takes no memory.
    pub fn turn(&mut self, birth: u16, key: &Text, node: u32)
        ensures { MovesName self.old self.new (birth, key.now) node }
    {
        if let Index::Made(names) = self {
            names.turn(birth, key, node);
        }
    }

    /// Takes in the names of another list's objects, by the nodes that they have there. Where two
    /// objects of both lists may have one name, or a name has no place, it is given up. If there is
    /// no memory all stays.
    pub fn take_in(&mut self, links: &Links, other: &Links, apart: bool) -> Result<(), Memory>
        requires knows { KnowsNames self.old links.now.nodes }
        requires strangers { apart ≡ true → AreStrangers links.now.nodes other.now.nodes }
        ensures taken { OnOk result (KnowsNames self.new (links.now.nodes ++ other.now.nodes)) }
        ensures kept { OnErr result (KnowsNames self.new links.now.nodes) }
    {
        if !apart {
            *self = Index::GivenUp;
            return Ok(());
        }
        let Index::Made(names) = self else {
            return Ok(());
        };
        if !enlist(names, links, other)? {
            *self = Index::GivenUp;
        }
        Ok(())
    }

    /// Whether it was given up.
    pub fn is_given_up(&self) -> bool
        ensures { (nodes : _) → KnowsNames self.now nodes → result ≡ false → IsApart (names_of nodes) }
    {
        matches!(self, Index::GivenUp)
    }
}
