// SPDX-License-Identifier: GPL-2.0-only
//! Whether the commands of each worker rise along each journal.

ghost use Rattle.std.specs.Prelude.{◌≡◌, ◌+◌, IfOk, length, true};
ghost use Rattle.std.specs.Bool.{Decides};
ghost use Rattle.shr_audit_case.specs.Each.{EachFirst};
ghost use Rattle.shr_audit_case.specs.Places.{AreInOrder};
ghost use Rattle.shr_audit_replies.specs.Cited.{AreJournalsRising, AreCommandsRising};
ghost use Rattle.shr_audit_replies.specs.Rising.{AreOfEarlierJournals, EntryGoesOn, IsAfter};

use crate::cited::by_of;
use shr_audit_case::places::is_first;
use shr_base::ends::PlaceEnd;
use shr_base::journals::Entry;
use shr_base::memory::Memory;
use shr_base::places::Serial;
use shr_laws::report::Report;
use std::alloc::Global;

/// The last entry of a worker's: the number of its journal, from 1, and the number of the command
/// behind its own.
#[derive(Clone, Copy, Debug, PartialEq, Eq)]
pub struct Last {
    pub journal: usize,
    pub next: usize,
}

// Whether a command comes after a worker's last one in a journal, if there is one.
fn is_after(last: Last, journal: usize, by: Serial) -> bool
    ensures { Decides result (IsAfter journal by last) }
{
    last.journal != journal || last.next <= by.command as usize
}

// No worker has had an entry yet.
fn no_lasts(alloc: Global) -> Result<Vec<Last>, Memory>
    ensures { IfOk result (λ seen. AreOfEarlierJournals 1 seen.items) }
{
    let mut seen = Vec::new(alloc);
    for _worker in 0..65536usize {
        seen.push(Last {
            journal: 0,
            next: 0,
        })?;
    }
    Ok(seen)
}

// Goes on by an entry of a journal, if its command comes after the last one of its worker there.
fn goes_on(seen: &mut Vec<Last>, journal: usize, entry: &Entry) -> bool
    requires { length seen.old.items ≡ 65536 }
    ensures { EntryGoesOn journal entry.now seen.old.items seen.new.items result }
{
    let Some(by) = by_of(entry) else {
        return true;
    };
    let worker = by.worker as usize;
    if !is_after(seen[worker], journal, by) {
        return false;
    }
    seen[worker] = Last {
        journal,
        next: by.command as usize + 1,
    };
    true
}

// Whether they rise along this journal, whose number is above those before it.
fn is_rising(seen: &mut Vec<Last>, journal: usize, entries: &[Entry]) -> bool
    requires { AreOfEarlierJournals journal seen.old.items }
    ensures rising { Decides result (AreCommandsRising entries.now) }
    ensures seen { result ≡ true → AreOfEarlierJournals (journal + 1) seen.new.items }
{
    for n in 0..entries.len() {
        if !goes_on(seen, journal, &entries[n]) {
            return false;
        }
    }
    true
}

// Whether they rise along this list, if it is the first one of its place.
fn is_list_rising(seen: &mut Vec<Last>, journal: usize, first: bool, end: &PlaceEnd) -> bool
    requires { AreOfEarlierJournals journal seen.old.items }
    ensures rising { Decides result (first ≡ true → AreCommandsRising end.now.entries.items) }
    ensures seen { result ≡ true → AreOfEarlierJournals (journal + 1) seen.new.items }
{
    if !first {
        return true;
    }
    let rising = is_rising(seen, journal, end.entries.as_slice());
    rising
}

// Whether they rise along each list that is the first one of its place.
fn are_lists_rising(alloc: Global, ends: &[PlaceEnd]) -> Result<bool, Memory>
    requires { AreInOrder ends.now }
    ensures { IfOk result (λ b. Decides b (EachFirst ends.now
        (λ end. AreCommandsRising end.entries.items))) }
{
    let mut seen = no_lasts(alloc)?;
    for k in 0..ends.len() {
        let first = is_first(ends, k);
        if !is_list_rising(&mut seen, k + 1, first, &ends[k]) {
            return Ok(false);
        }
    }
    Ok(true)
}

/// Whether the commands of each worker rise along each journal.
pub fn are_journals_rising(alloc: Global, report: &Report) -> Result<bool, Memory>
    requires { AreInOrder report.now.places.items }
    ensures { IfOk result (λ b. Decides b (AreJournalsRising report.now)) }
{
    let all = are_lists_rising(alloc, report.places.as_slice())?;
    Ok(all)
}
