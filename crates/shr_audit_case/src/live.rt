// SPDX-License-Identifier: GPL-2.0-only
//! Which registration an id is in after so many entries of the journal.

ghost use Rattle.std.specs.Prelude.{◌≡◌, ℕ, ◌∷◌, ◌==◌, ◌&&◌, ◌<◌, ◌≤◌, ◌^◌, ◌+◌, ◌-◌, nat_lt, List, length, IfOk, OnOk};
ghost use Rattle.shr_base.specs.declared.journals.PoolEntry.{PoolEntry};
ghost use Rattle.shr_base.specs.declared.journals.PoolEntry.TheVariants.{Registered, Unregistered};
ghost use Rattle.shr_audit_case.specs.declared.steps.Span.{Span};
ghost use Rattle.shr_model.specs.Pool.{IsPoolJournal};
ghost use Rattle.shr_audit_case.specs.Met.{lookup_key};
ghost use Rattle.shr_audit_case.specs.Steps.{has_key, last_in};
ghost use Rattle.shr_audit_case.specs.Live.{AreLives, AreLivesNoted, capped_key, end_key, entry_key, is_within, live_in, live_now, to_of};

use crate::steps::{Registration, Span, Step, step_at, steps_of};
use shr_base::journals::PoolEntry;
use shr_base::memory::Memory;
use std::alloc::Global;
use std::collections::BTreeMap;

/// The end of a registration: the number of the first lookup past it, and how many entries there are
/// with the one that ends it.
#[derive(Clone, Copy, Debug, PartialEq, Eq)]
pub struct End {
    pub to: u32,
    pub behind: usize,
}

/// Which registration each id was in after so many entries, for each number of entries.
#[derive(Drop)]
pub struct Lives {
    steps: Vec<Step>,
}

// The number, or 2 to the power of 32 if it is larger.
fn cut(at: usize) -> u64
    ensures { result ≡ capped_key at }
{
    if at < 0x1_0000_0000 {
        at as u64
    } else {
        0x1_0000_0000
    }
}

// So many entries, for an id, by one number.
fn entry_key(id: u16, at: usize) -> u64
    ensures { result ≡ entry_key id at }
{
    0x1_0000_0000 * id as u64 + cut(at)
}

// Where the entries end in which an id is in a registration.
fn end_key(id: u16, end: Option<End>) -> u64
    ensures { result ≡ end_key id end }
{
    match end {
        Some(end) => entry_key(id, end.behind),
        None => 0x1_0000_0000 * (id as u64 + 1),
    }
}

// The number of a registration's end.
fn to_of(end: Option<End>) -> Option<u32>
    ensures { result ≡ to_of end }
{
    match end {
        Some(end) => Some(end.to),
        None => None,
    }
}

// The entries behind which an id is in the registration that the one with this number made.
fn live_span(id: u16, at: usize, of: Registration, end: Option<End>) -> Span
    requires { at < 2 ^ 64 - 1 }
    ensures of { result.of ≡ of }
    ensures entries { (i entry : ℕ) → entry < 2 ^ 32 → has_key (lookup_key i entry) result
        ≡ ((id == i) && (nat_lt at entry && is_within entry end)) }
{
    let begin = entry_key(id, at + 1);
    let end = end_key(id, end);
    Span { begin, end, of }
}

// A registration more, by the entry with this number, before those that were gone through. Of these
// `ends` has the next end of each id.
fn note_registered(
    spans: &mut Vec<Span>,
    ends: &BTreeMap<u16, End>,
    at: usize,
    decl: u8,
    id: u16,
    from: u32,
) -> Result<(), Memory>
    requires { at < 2 ^ 64 - 1 }
    ensures { OnOk result ((es : List PoolEntry)
        → AreLivesNoted (at + 1) es spans.old.items ends.now
        → AreLivesNoted at (Registered decl id from ∷ es) spans.new.items ends.now) }
{
    let end = ends.get(&id).copied();
    let to = to_of(end);
    let span = live_span(id, at, Registration { decl, from, to }, end);
    spans.push(span)?;
    Ok(())
}

// An end more, by the entry with this number, before those that were gone through.
fn note_unregistered(
    ends: &mut BTreeMap<u16, End>,
    at: usize,
    id: u16,
    to: u32,
) -> Result<(), Memory>
    requires { at < 2 ^ 64 - 1 }
    ensures { OnOk result ((decl : ℕ) (es : List PoolEntry) (spans : List Span)
        → AreLivesNoted (at + 1) es spans ends.old
        → AreLivesNoted at (Unregistered decl id to ∷ es) spans ends.new) }
{
    let behind = at + 1;
    ends.insert(id, End { to, behind })?;
    Ok(())
}

// One entry more, with this number, before those that were gone through.
fn note_entry(
    spans: &mut Vec<Span>,
    ends: &mut BTreeMap<u16, End>,
    at: usize,
    entry: PoolEntry,
) -> Result<(), Memory>
    requires { at < 2 ^ 64 - 1 }
    ensures { OnOk result ((es : List PoolEntry)
        → AreLivesNoted (at + 1) es spans.old.items ends.old
        → AreLivesNoted at (entry ∷ es) spans.new.items ends.new) }
{
    match entry {
        PoolEntry::Registered { decl, id, from } => {
            note_registered(spans, ends, at, decl, id, from)?;
            Ok(())
        }
        PoolEntry::Unregistered { id, to, .. } => {
            note_unregistered(ends, at, id, to)?;
            Ok(())
        }
        PoolEntry::Idle { .. } => Ok(()),
    }
}

// The entries of each registration, the last registration first.
fn spans_of(alloc: Global, pool: &[PoolEntry]) -> Result<Vec<Span>, Memory>
    ensures { IfOk result (λ spans. (id entry : ℕ) → entry < 2 ^ 32
        → last_in spans.items (lookup_key id entry) ≡ live_in id 0 pool.now entry) }
{
    let mut ends = BTreeMap::new(alloc);
    let mut spans = Vec::new(alloc);
    let mut left = pool.len();
    while left > 0 {
        left -= 1;
        note_entry(&mut spans, &mut ends, left, pool[left])?;
    }
    Ok(spans)
}

impl Lives {
    /// Which registrations the ids were in, if these entries are a journal of registrations. It goes
    /// through them once, and sorts them.
    pub fn of(alloc: Global, pool: &[PoolEntry]) -> Result<Lives, Memory>
        ensures { IfOk result (λ lives. (ids decls : ℕ) → IsPoolJournal ids decls pool.now
            → AreLives pool.now lives) }
    {
        let spans = spans_of(alloc, pool)?;
        let steps = steps_of(alloc, spans.as_slice())?;
        Ok(Lives { steps })
    }

    /// The registration that an id was in after so many entries.
    pub fn at(&self, id: u16, entry: u32) -> Option<Registration>
        ensures { (es : List PoolEntry) → AreLives es self.now → entry ≤ length es
            → result ≡ live_now id es entry }
    {
        step_at(
            self.steps.as_slice(),
            0x1_0000_0000 * id as u64 + entry as u64,
        )
    }
}
