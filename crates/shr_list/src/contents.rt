// SPDX-License-Identifier: GPL-2.0-only
//! The journal and the objects of a list in a box, so that a list is small.

ghost use Rattle.std.specs.Prelude.{◌≡◌, ◌<◌, ◌++◌, ◌∷◌, [], true, length, slice_get, option_copied, option_map, OnOk, OnErr, IfOk, IfErr};
ghost use Rattle.shr_base.specs.declared.journals.Entry.TheVariants.{Closed};
ghost use Rattle.shr_base.specs.declared.objects.Object.{Object};
ghost use Rattle.shr_model.specs.Items.{drop_kind_of, after_drop};
ghost use Rattle.shr_model.specs.Objects.{is_named, holds, named_in, marked_object, pinned_object, change_first};
ghost use Rattle.shr_model.specs.Scan.{scan_of};
ghost use Rattle.shr_list.specs.Boxes.{no_contents, KeepsJournal};
ghost use Rattle.shr_list.specs.Nodes.{slot_at, IsApart, KeepsKeys, PushGives, loose_of};
ghost use Rattle.shr_list.specs.Scanning.{IsScan};

use crate::answers::Slot;
use crate::queue::Queue;
use crate::queue::scanning::Scan;
use shr_base::items::Items;
use shr_base::journals::{DropKind, Entry};
use shr_base::log::Log;
use shr_base::memory::Memory;
use shr_base::objects::{Object, Policy};
use shr_base::text::Text;
use std::alloc::Global;
use std::marker::Model;
use std::mem::swap;

// A journal begins with room for so many entries, since most lists take one or two.
const FIRST_ENTRIES: usize = 2;

// What is in the box.
#[derive(Drop)]
struct Inside {
    entries: Log<Entry>,
    queue: Queue,
    closed: bool,
}

/// A journal and a queue, or none as long as there is no entry: most lists of a core are never
/// used, and a room that is taken moves its list.
#[derive(Drop)]
pub struct Contents {
    inside: Option<Box<Inside>>,
    alloc: Global,
}

impl Model for Contents {
    ghost use Rattle.shr_list.specs.Boxes.{Stored, contents_in};

    ghost Value = { Stored };

    ghost view = { λ c. contents_in c.inside };
}

impl Contents {
    /// No entry and no object. It takes no memory.
    pub fn new(alloc: Global) -> Contents
        ensures { result ≡ no_contents }
    {
        Contents {
            inside: None,
            alloc,
        }
    }

    /// The journal, oldest entry first.
    pub fn entries(&self) -> &[Entry]
        ensures { result.now ≡ self.now.entries }
    {
        match &self.inside {
            None => &[],
            Some(inside) => inside.entries.as_slice(),
        }
    }

    /// Whether the list was closed.
    pub fn closed(&self) -> bool
        ensures { result ≡ self.now.closed }
    {
        match &self.inside {
            None => false,
            Some(inside) => inside.closed,
        }
    }

    // Makes the box where there is none.
    fn make(&mut self) -> Result<(), Memory>
        ensures { self.new ≡ self.old }
    {
        if self.inside.is_none() {
            let inside = Inside {
                entries: Log::from_vec(Vec::with_capacity(self.alloc, FIRST_ENTRIES)?),
                queue: Queue::new(self.alloc),
                closed: false,
            };
            self.inside = Some(Box::new(self.alloc, inside)?);
        }
        Ok(())
    }

    /// Makes room for an entry.
    #[inline(always)]
    pub fn reserve(&mut self) -> Result<(), Memory>
        ensures spare { OnOk result (0 < self.new.spare) }
        ensures entries { self.new.entries ≡ self.old.entries }
        ensures objects { self.new.objects ≡ self.old.objects }
        ensures closed { self.new.closed ≡ self.old.closed }
    {
        self.make()?;
        match &mut self.inside {
            None => Err(Memory),
            Some(inside) => inside.entries.reserve(1),
        }
    }

    /// Puts an entry at the end of the journal, in the room that was made for it.
    // Inlined, since an entry is moved by pieces where it is an argument.
    #[inline(always)]
    pub fn log(&mut self, entry: Entry)
        requires { 0 < self.old.spare }
        ensures entries { self.new.entries ≡ self.old.entries ++ entry ∷ [] }
        ensures objects { self.new.objects ≡ self.old.objects }
        ensures closed { self.new.closed ≡ self.old.closed }
    {
        if let Some(inside) = &mut self.inside {
            inside.entries.push(entry);
        }
    }

    /// Closes the list by its last entry, in the room that was made for it.
    pub fn close(&mut self)
        requires { 0 < self.old.spare }
        ensures entries { self.new.entries ≡ self.old.entries ++ Closed ∷ [] }
        ensures objects { self.new.objects ≡ self.old.objects }
        ensures closed { self.new.closed ≡ true }
    {
        if let Some(inside) = &mut self.inside {
            inside.entries.push(Entry::Closed);
            inside.closed = true;
        }
    }

    /// The number of objects.
    pub fn len(&self) -> usize
        ensures { result ≡ length self.now.objects.items }
    {
        match &self.inside {
            None => 0,
            Some(inside) => inside.queue.len(),
        }
    }

    /// `Queue::item`.
    pub fn item(&self, i: usize) -> Option<&Object>
        ensures { option_copied result ≡ slice_get self.now.objects.items i }
    {
        match &self.inside {
            None => None,
            Some(inside) => inside.queue.item(i),
        }
    }

    /// `Queue::slot`.
    pub fn slot(&self, i: usize) -> Option<Slot>
        ensures slot { result ≡ slot_at self.now.objects.keys i }
        ensures apart { IsApart self.now.objects.keys }
        ensures each { length self.now.objects.keys ≡ length self.now.objects.items }
    {
        match &self.inside {
            None => None,
            Some(inside) => inside.queue.slot(i),
        }
    }

    /// Whether an object has this birth group and key.
    pub fn holds(&self, birth: u16, key: &Text) -> bool
        ensures { result ≡ holds birth key.now self.now.objects.items }
    {
        match &self.inside {
            None => false,
            Some(inside) => inside.queue.holds(birth, key),
        }
    }

    /// The first object of this birth group and key.
    pub fn get(&self, birth: u16, key: &Text) -> Option<&Object>
        ensures { option_copied result ≡ named_in birth key.now self.now.objects.items }
    {
        match &self.inside {
            None => None,
            Some(inside) => inside.queue.get(birth, key),
        }
    }

    /// `Queue::push`.
    pub fn push(&mut self, object: Object) -> Result<bool, Object>
        ensures told { IfOk result (λ pushed. PushGives self.old.objects object pushed
            self.new.objects) }
        ensures keys { KeepsKeys self.old.objects.keys self.old.objects.items
            self.new.objects.keys self.new.objects.items }
        ensures kept { OnErr result (self.new.objects ≡ self.old.objects) }
        ensures back { IfErr result (λ given. given ≡ object) }
        ensures journal { KeepsJournal self.old self.new }
    {
        match &mut self.inside {
            None => Err(object),
            Some(inside) => inside.queue.push(object),
        }
    }

    /// `Queue::look`.
    pub fn look(&mut self, birth: u16, key: &Text) -> Result<Option<Text>, Memory>
        ensures value { IfOk result (λ value. value ≡ option_map (λ (o : Object). o.value)
            (named_in birth key.now self.old.objects.items)) }
        ensures items { OnOk result (self.new.objects.items ≡ change_first
            (is_named birth key.now) marked_object self.old.objects.items) }
        ensures keys { KeepsKeys self.old.objects.keys self.old.objects.items
            self.new.objects.keys self.new.objects.items }
        ensures kept { OnErr result (self.new.objects ≡ self.old.objects) }
        ensures journal { KeepsJournal self.old self.new }
    {
        match &mut self.inside {
            None => Ok(None),
            Some(inside) => inside.queue.look(birth, key),
        }
    }

    /// `Queue::set_pin`.
    pub fn set_pin(&mut self, birth: u16, key: &Text, pinned: bool) -> bool
        ensures told { result ≡ holds birth key.now self.old.objects.items }
        ensures items { self.new.objects.items ≡ change_first (is_named birth key.now)
            (pinned_object pinned) self.old.objects.items }
        ensures keys { KeepsKeys self.old.objects.keys self.old.objects.items
            self.new.objects.keys self.new.objects.items }
        ensures journal { KeepsJournal self.old self.new }
    {
        match &mut self.inside {
            None => false,
            Some(inside) => inside.queue.set_pin(birth, key, pinned),
        }
    }

    /// `Queue::take`.
    pub fn take(&mut self, birth: u16, key: &Text) -> (DropKind, Option<Object>)
        ensures kind { result.0 ≡ drop_kind_of (named_in birth key.now self.old.objects.items) }
        ensures taken { result.1 ≡ loose_of (named_in birth key.now self.old.objects.items) }
        ensures items { self.new.objects.items ≡ after_drop birth key.now self.old.objects.items
            (named_in birth key.now self.old.objects.items) }
        ensures keys { KeepsKeys self.old.objects.keys self.old.objects.items
            self.new.objects.keys self.new.objects.items }
        ensures journal { KeepsJournal self.old self.new }
    {
        match &mut self.inside {
            None => (DropKind::Miss, None),
            Some(inside) => inside.queue.take(birth, key),
        }
    }

    /// `Queue::put_before`; into an empty one the other's queue moves whole. Who has room for an
    /// entry has a box; where one has none it is as where there is no memory.
    pub fn put_before(&mut self, other: &mut Contents) -> Result<(), Memory>
        ensures moved { OnOk result (self.new.objects.items ≡ other.old.objects.items
            ++ self.old.objects.items) }
        ensures emptied { OnOk result (other.new.objects.items ≡ []) }
        ensures kept { OnErr result (self.new.objects ≡ self.old.objects) }
        ensures kept_other { OnErr result (other.new.objects ≡ other.old.objects) }
        ensures journal { KeepsJournal self.old self.new }
        ensures other_journal { KeepsJournal other.old other.new }
    {
        match (&mut self.inside, &mut other.inside) {
            (Some(_), Some(front)) if front.queue.len() == 0 => Ok(()),
            (Some(inside), Some(front)) if inside.queue.len() == 0 => {
                swap(&mut inside.queue, &mut front.queue);
                Ok(())
            }
            (Some(inside), Some(front)) => inside.queue.put_before(&mut front.queue),
            _ => Err(Memory),
        }
    }

    /// `Queue::take_all`.
    pub fn take_all(&mut self) -> Result<Log<Object>, Memory>
        ensures taken { IfOk result (λ all. (all.items ≡ self.old.objects.items)
            × (self.new.objects.items ≡ [])) }
        ensures kept { OnErr result (self.new.objects ≡ self.old.objects) }
        ensures journal { KeepsJournal self.old self.new }
    {
        match &mut self.inside {
            None => Ok(Log::new(self.alloc)),
            Some(inside) => inside.queue.take_all(),
        }
    }

    /// `Queue::scan`.
    pub fn scan(&mut self, policy: Policy, asked: u32) -> Result<Scan, Memory>
        ensures scanned { IfOk result (λ scan. IsScan policy asked self.old.objects.items
            self.new.objects.items scan) }
        ensures kept { OnErr result (self.new.objects ≡ self.old.objects) }
        ensures keys { KeepsKeys self.old.objects.keys self.old.objects.items
            self.new.objects.keys self.new.objects.items }
        ensures journal { KeepsJournal self.old self.new }
    {
        match &mut self.inside {
            None => Ok(Scan {
                freed: Log::new(self.alloc),
                visits: 0,
                stopped: false,
            }),
            Some(inside) => inside.queue.scan(policy, asked),
        }
    }

    /// How many objects such a scan would free.
    pub fn count_freed(&self, policy: Policy, asked: u32) -> usize
        ensures { result ≡ length (scan_of policy asked self.now.objects.items).freed }
    {
        match &self.inside {
            None => 0,
            Some(inside) => inside.queue.count_freed(policy, asked),
        }
    }

    /// The journal and the objects from the head.
    pub fn into_parts(self) -> (Log<Entry>, Items)
        ensures journal { result.0.items ≡ self.entries }
        ensures items { result.1.items ≡ self.objects.items }
    {
        let Contents { inside, alloc } = self;
        match inside {
            None => (Log::new(alloc), Items::new(alloc)),
            Some(inside) => {
                let Inside { entries, queue, .. } = Box::into_inner(inside);
                (entries, queue.into_items())
            }
        }
    }
}
