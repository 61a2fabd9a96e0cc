// SPDX-License-Identifier: GPL-2.0-only
//! One journal, replayed.

ghost use Rattle.std.specs.Prelude.{◌≡◌, [], true, if◌then◌else◌, IfOk, OnOk};
ghost use Rattle.shr_model.specs.Families.{lists_moved};
ghost use Rattle.shr_model.specs.Items.{is_closing};
ghost use Rattle.shr_audit_case.specs.Replayed.{took_of, took_after, KeepsOthers};
ghost use Rattle.shr_audit_case.specs.Journals.{IsNew, Advances, Finishes, IsReplayed, given_from};

use crate::items::are_items;
use crate::replayed::replay_with;
use crate::tags::{FreedTag, Tag, note_freed, tags_in};
use crate::values::{FoundValue, note_value};
use shr_base::items::Items;
use shr_base::journals::Entry;
use shr_base::memory::Memory;
use shr_list::queue::Queue;
use std::alloc::Global;
use std::mem::replace;

/// What a journal tells of its list.
#[derive(Drop)]
pub struct Replayed {
    /// The number of objects before each entry, and behind these the number after the last.
    pub lens: Vec<usize>,
    /// The objects that its entries freed, in order.
    pub freed: Vec<FreedTag>,
    /// The values of the objects that its Looks found, in order.
    pub values: Vec<FoundValue>,
    /// The objects that are left, from the head.
    pub left: Vec<Tag>,
    /// Whether the objects that are printed are those that are left.
    pub listed: bool,
    /// Whether each entry says of its outcome what is so.
    pub right: bool,
}

// A replay under way: what the entries so far leave and tell.
#[derive(Drop)]
struct Course {
    queue: Queue,
    // What the list held before its first Closed, once it was closed.
    aside: Queue,
    closed: bool,
    lens: Vec<usize>,
    freed: Vec<FreedTag>,
    values: Vec<FoundValue>,
    right: bool,
}

fn is_closing(entry: &Entry) -> bool
    ensures { result ≡ is_closing entry.now }
{
    matches!(entry, Entry::Closed)
}

impl Course {
    fn new(alloc: Global) -> Course
        ensures { IsNew result }
    {
        Course {
            queue: Queue::new(alloc),
            aside: Queue::new(alloc),
            closed: false,
            lens: Vec::new(alloc),
            freed: Vec::new(alloc),
            values: Vec::new(alloc),
            right: true,
        }
    }

    // Closes the list. What it held is put aside the first time.
    fn close(&mut self, alloc: Global)
        ensures items { self.new.queue.items ≡ [] }
        ensures aside { self.new.aside.items
            ≡ (if self.old.closed then self.old.aside.items else self.old.queue.items) }
        ensures closed { self.new.closed ≡ true }
        ensures lens { self.new.lens ≡ self.old.lens }
        ensures freed { self.new.freed ≡ self.old.freed }
        ensures values { self.new.values ≡ self.old.values }
        ensures right { self.new.right ≡ self.old.right }
    {
        let held = replace(&mut self.queue, Queue::new(alloc));
        if !self.closed {
            self.aside = held;
        }
        self.closed = true;
    }

    // Goes on by an entry.
    fn advance(
        &mut self,
        alloc: Global,
        parents: &[u16],
        group: u16,
        lists: &mut Vec<Queue>,
        entry: &Entry,
    ) -> Result<(), Memory>
        ensures went { OnOk result (Advances
            (took_of parents.now group lists.old.items) self.old self.new entry.now) }
        ensures taken { OnOk result (took_of parents.now group lists.new.items
            ≡ took_after (took_of parents.now group lists.old.items) entry.now) }
        ensures others { OnOk result
            (KeepsOthers parents.now group lists.old.items lists.new.items) }
    {
        let number = self.lens.len();
        self.lens.push(self.queue.len())?;
        if is_closing(entry) {
            self.close(alloc);
            return Ok(());
        }
        let told = replay_with(alloc, parents, group, &mut self.queue, lists, entry)?;
        note_freed(&mut self.freed, number, told.freed.as_slice())?;
        note_value(&mut self.values, number, told.value)?;
        self.right = self.right && told.right;
        Ok(())
    }

    // What was told, and what the list gives to that of its parent group.
    fn finish(self, alloc: Global, printed: &Items) -> Result<(Replayed, Queue), Memory>
        ensures { IfOk result (λ r. Finishes self printed.now.items r.0 r.1.items) }
    {
        let Course {
            queue,
            aside,
            closed,
            mut lens,
            freed,
            values,
            right,
        } = self;
        lens.push(queue.len())?;
        let left = tags_in(alloc, &queue)?;
        let listed = are_items(printed, &queue);
        let given = if closed { aside } else { queue };
        Ok((
            Replayed {
                lens,
                freed,
                values,
                left,
                listed,
                right,
            },
            given,
        ))
    }
}

/// Replays the journal of a group's list, for which the objects `printed` are printed. `lists` has
/// for each child of the group the list that is to be moved in, and the second answer is what this
/// list gives to that of its own parent: what it held before its first Closed, or at the end. It costs
/// an operation of the list's index for each entry, and a scan its visits.
pub fn replay_journal(
    alloc: Global,
    parents: &[u16],
    group: u16,
    entries: &[Entry],
    printed: &Items,
    lists: &mut Vec<Queue>,
) -> Result<(Replayed, Queue), Memory>
    ensures replayed { IfOk result (λ r. IsReplayed (lists_moved
        (took_of parents.now group lists.old.items) entries.now) entries.now
        printed.now.items r.0) }
    ensures given { IfOk result (λ r. r.1.items
        ≡ given_from (took_of parents.now group lists.old.items) [] entries.now) }
    ensures others { OnOk result (KeepsOthers parents.now group lists.old.items lists.new.items) }
{
    let mut course = Course::new(alloc);
    for entry in entries {
        course.advance(alloc, parents, group, lists, entry)?;
    }
    let told = course.finish(alloc, printed)?;
    Ok(told)
}
