// SPDX-License-Identifier: GPL-2.0-only
//! Searching the journal of the tree.

ghost use Rattle.std.specs.Prelude.{◌≡◌, ◌==◌, ◌^◌, ◌<◌, ◌||◌, ℕ, length, take, None};
ghost use Rattle.shr_model.specs.TreeJournal.{is_making, is_done};
ghost use Rattle.shr_charge.specs.Searching.{AreMarkedGroups, is_marked, is_like, entry_number};

use shr_base::journals::TreeEntry;

// How many groups there are at most.
const MOST_GROUPS: usize = 256;

// Whether an entry is of this kind and group.
fn is_like(entry: TreeEntry, wanted: TreeEntry) -> bool
    ensures { result ≡ is_like wanted entry }
{
    entry == wanted
}

/// The number of the first entry of this kind and group, of which none stands before `from`.
pub(crate) fn first_like(entries: &[TreeEntry], wanted: TreeEntry, from: usize) -> Option<u32>
    requires short { length entries.now < 2 ^ 32 }
    requires before { entry_number wanted (take from entries.now) ≡ None }
    ensures { result ≡ entry_number wanted entries.now }
{
    for i in from..entries.len() {
        if is_like(entries[i], wanted) {
            return Some(i as u32);
        }
    }
    None
}

// Marks a group.
fn mark(marks: &mut [bool; MOST_GROUPS], group: u16)
    ensures { (at : ℕ) → at < 256 → is_marked marks.new at
        ≡ (is_marked marks.old at || group == at) }
{
    if (group as usize) < MOST_GROUPS {
        marks[group as usize] = true;
    }
}

/// What a journal says of each group, at its number: whether it was made, and whether it is done.
#[derive(Drop)]
pub(crate) struct Marks {
    pub(crate) made: [bool; MOST_GROUPS],
    pub(crate) done: [bool; MOST_GROUPS],
}

impl Marks {
    /// What a journal says, read once from its begin to its end.
    pub(crate) fn of(entries: &[TreeEntry]) -> Marks
        ensures { AreMarkedGroups entries.now result }
    {
        let mut marks = Marks {
            made: [false; MOST_GROUPS],
            done: [false; MOST_GROUPS],
        };
        for i in 0..entries.len() {
            marks.note(entries[i]);
        }
        marks
    }

    // Marks what a further entry says.
    fn note(&mut self, entry: TreeEntry)
        ensures made { (group : ℕ) → group < 256 → is_marked self.new.made group
            ≡ (is_marked self.old.made group || is_making group entry) }
        ensures done { (group : ℕ) → group < 256 → is_marked self.new.done group
            ≡ (is_marked self.old.done group || is_done group entry) }
    {
        match entry {
            TreeEntry::Begin { group: _ } => {}
            TreeEntry::Done { group } => mark(&mut self.done, group),
            TreeEntry::Made { group } => mark(&mut self.made, group),
        }
    }
}
