// SPDX-License-Identifier: GPL-2.0-only
//! A cache of at most n objects over a list: the oldest go when it is full.

ghost use Rattle.std.specs.Prelude.{◌≡◌, ◌^◌, ◌<◌, ◌≤◌, [], length};
ghost use Rattle.std.specs.Bool.{MatchBool};
ghost use Rattle.shr_callers.specs.Bounded.{AddGives, TrimLeaves, with_room, maker};
ghost use Rattle.shr_list.specs.Answers.{ListLookGives};

use crate::recent::{Trimmed, trim_to};
use shr_base::objects::{Object, Policy};
use shr_base::places::Serial;
use shr_base::text::Text;
use shr_list::answers::{AddAnswer, ListScan, LookAnswer};
use shr_list::list::List;
use std::alloc::Global;

const MAKER: Serial = Serial {
    worker: 0,
    command: 0,
};

/// A cache that holds at most `most` objects.
#[derive(Drop)]
pub struct Cache {
    pub list: List,
    pub most: u32,
    ghost some: { 1 ≤ most },
    ghost bounded: { length list.items ≤ most },
}

/// What `add` did.
#[derive(Clone, Copy, Debug, PartialEq, Eq)]
pub enum Added {
    /// The object is the newest now.
    Done,
    /// An object of this key is there and stays.
    Exists,
    /// No room could be made: the cache is as it was.
    Full,
    /// Room was made, and then the list's own limits or memory refused the object.
    Refused,
}

impl Cache {
    /// An empty cache of at most `most` objects.
    pub fn new(alloc: Global, most: u32) -> Cache
        requires { (1 ≤ most) × (most ≤ 2 ^ 20) }
        ensures empty { result.list.items ≡ [] }
        ensures most { result.most ≡ most }
    {
        let list = List::new(alloc, most, 1 << 31);
        Cache { list, most }
    }

    // Frees the oldest objects, so that there is room for one more.
    fn make_room(&mut self) -> bool
        ensures most { self.new.most ≡ self.old.most }
        ensures made { MatchBool result ((self.new.list.items ≡ with_room self.old.most
            self.old.list.items) × (length self.new.list.items < self.old.most))
            (self.new.list.items ≡ self.old.list.items) }
    {
        if self.list.len() < self.most {
            return true;
        }
        let keep = self.most - 1;
        match trim_to(&mut self.list, keep) {
            Trimmed::Freed { objects: _ } => true,
            Trimmed::Closed => false,
            Trimmed::Worn { .. } => false,
            Trimmed::Memory => false,
        }
    }

    /// Adds an object as the newest, after the oldest went if the cache was full.
    pub fn add(&mut self, key: Text, value: Text) -> Added
        ensures most { self.new.most ≡ self.old.most }
        ensures answer { AddGives self.old.most self.old.list.items key value result
            self.new.list.items }
    {
        if !self.make_room() {
            return Added::Full;
        }
        match self.list.add(Object {
            serial: MAKER,
            key,
            value,
            birth: 0,
            marked: false,
            pinned: false,
        }) {
            AddAnswer::Added { .. } => Added::Done,
            AddAnswer::Exists { .. } => Added::Exists,
            AddAnswer::Closed => Added::Refused,
            AddAnswer::Worn { .. } => Added::Refused,
            AddAnswer::Memory { .. } => Added::Refused,
        }
    }

    /// Looks an object up and marks it, so that the next `trim` spares it once.
    pub fn look(&mut self, key: &Text) -> LookAnswer
        ensures most { self.new.most ≡ self.old.most }
        ensures answer { ListLookGives self.old.list maker 0 key.now result self.new.list }
    {
        self.list.look(MAKER, 0, key)
    }

    /// One scan of at most `asked` visits from the oldest object. It frees what was not looked up
    /// since the last one, and says how many; `None` if the list's own limits or memory forbid it.
    pub fn trim(&mut self, asked: u32) -> Option<usize>
        ensures most { self.new.most ≡ self.old.most }
        ensures answer { TrimLeaves self.old.list.items asked result self.new.list.items }
    {
        match self.list.scan(0, 0, Policy::Clock, asked) {
            ListScan::Scanned { freed, .. } => Some(freed.len()),
            ListScan::Closed => None,
            ListScan::Worn { .. } => None,
            ListScan::Memory => None,
        }
    }
}
