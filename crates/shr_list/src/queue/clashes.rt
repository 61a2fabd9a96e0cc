// SPDX-License-Identifier: GPL-2.0-only
//! The names whose print another name has: from a birth group and a key to the node.

ghost use Rattle.std.specs.Prelude.{◌≡◌, Some, None, IfOk, OnErr, IsSome};
ghost use Rattle.shr_list.specs.Clashes.{is_same, second_of, named_by, found_clash, AddsClash, PutsClash, IsSameClashes};

use shr_base::memory::Memory;
use shr_base::text::Text;
use std::alloc::Global;
use std::collections::BTreeMap;
use std::collections::btree_map::Entry;
use std::hash::{DefaultHasher, Hasher};

/// What became of a name that was to be added.
#[derive(Clone, Copy)]
pub enum Added {
    /// It was not there, and has its node now.
    New,
    /// It is there.
    Known,
    /// It is not there, and has no place: other names have both its prints.
    Crowded,
}

/// A name and the key of its node.
#[derive(Drop)]
struct Named {
    birth: u16,
    key: Text,
    node: u32,
}

/// A tree of second prints, each with the name that has it.
#[derive(Drop)]
pub struct Clashes {
    seconds: BTreeMap<u128, Named>,
}

// Another number that is the same for the same name: the hashes of its key and of its key twice.
#[tactic(auto, unfolding(crate::specs::Clashes::second_of))]
fn second_of(birth: u16, key: &Text) -> u128
    ensures { result ≡ second_of birth key.now }
{
    let mut hasher = DefaultHasher::default();
    hasher.write(key.bytes());
    let low = hasher.finish() as u128;
    hasher.write(key.bytes());
    let high = (hasher.finish() as u128).wrapping_mul(1 << 64);
    high.wrapping_add(low).wrapping_add(birth as u128)
}

impl Named {
    // Whether it is this name.
    fn is(&self, birth: u16, key: &Text) -> bool
        ensures { result ≡ is_same (named_by self.now) (birth, key.now) }
    {
        self.birth == birth && self.key.same(key)
    }
}

impl Clashes {
    /// No name. It takes no memory.
    pub fn new(alloc: Global) -> Clashes
        ensures { (name : _) → found_clash result name ≡ None }
    {
        Clashes {
            seconds: BTreeMap::new(alloc),
        }
    }

    /// The node of this birth group and key.
    pub fn get(&self, birth: u16, key: &Text) -> Option<u32>
        ensures { result ≡ found_clash self.now (birth, key.now) }
    {
        if self.seconds.is_empty() {
            return None;
        }
        self.search(birth, key)
    }

    // Apart from `get`, since mostly no name clashes.
    #[inline(never)]
    fn search(&self, birth: u16, key: &Text) -> Option<u32>
        ensures { result ≡ found_clash self.now (birth, key.now) }
    {
        match self.seconds.get(&second_of(birth, key)) {
            Some(named) if named.is(birth, key) => Some(named.node),
            _ => None,
        }
    }

    /// Makes this the node of the name, if it is not there and its second print is no other's, and
    /// answers which of these is so. If it is not made so, also for want of memory, the names stay.
    pub fn add(&mut self, birth: u16, key: &Text, node: u32) -> Result<Added, Memory>
        ensures told { IfOk result (λ added. AddsClash self.old self.new (birth, key.now) node
            added) }
        ensures kept { OnErr result (IsSameClashes self.old self.new) }
    {
        match self.seconds.entry(second_of(birth, key))? {
            Entry::Vacant(place) => {
                let key = key.copy()?;
                place.insert(Named { birth, key, node });
                Ok(Added::New)
            }
            Entry::Occupied(place) => {
                if place.get().is(birth, key) {
                    return Ok(Added::Known);
                }
                Ok(Added::Crowded)
            }
        }
    }

    /// Makes this the node of a name that is there. It takes no memory.
    pub fn turn(&mut self, birth: u16, key: &Text, node: u32)
        requires { IsSome (found_clash self.old (birth, key.now)) }
        ensures { PutsClash self.old self.new (birth, key.now) (Some node) }
    {
        if let Some(named) = self.seconds.get_mut(&second_of(birth, key)) {
            named.node = node;
        }
    }

    /// Takes the name out.
    pub fn remove(&mut self, birth: u16, key: &Text)
        ensures { PutsClash self.old self.new (birth, key.now) None }
    {
        let second = second_of(birth, key);
        if let Some(named) = self.seconds.get(&second) {
            if named.is(birth, key) {
                self.seconds.remove(&second);
            }
        }
    }
}
