// SPDX-License-Identifier: GPL-2.0-only
//! Which declaration each lookup met, by a journal of registrations.

ghost use Rattle.std.specs.Prelude.{◌≡◌, ℕ, ◌∷◌, ◌==◌, ◌&&◌, ◌<◌, ◌^◌, nat_le, List, IfOk, OnOk};
ghost use Rattle.shr_base.specs.declared.journals.PoolEntry.{PoolEntry};
ghost use Rattle.shr_base.specs.declared.journals.PoolEntry.TheVariants.{Registered, Unregistered};
ghost use Rattle.shr_audit_case.specs.declared.steps.Span.{Span};
ghost use Rattle.shr_model.specs.Pool.{decl_at, is_before, registrations};
ghost use Rattle.shr_audit_case.specs.Met.{AreNoted, AreSpansOf, IsMetIn, lookup_key, stop_key};
ghost use Rattle.shr_audit_case.specs.Steps.{has_key};

use crate::steps::{Registration, Span, Step, step_at, steps_of};
use shr_base::journals::PoolEntry;
use shr_base::memory::Memory;
use std::alloc::Global;
use std::collections::BTreeMap;

/// What each lookup met by a journal of registrations: the first registration of its id in which its
/// number lies.
#[derive(Drop)]
pub struct Met {
    steps: Vec<Step>,
}

// A lookup of an id, by one number.
fn lookup_key(id: u16, number: u32) -> u64
    ensures { result ≡ lookup_key id number }
{
    0x1_0000_0000 * id as u64 + number as u64
}

// The key at which the lookups of a registration end; where it has no end, those of its id do.
fn stop_key(id: u16, to: Option<u32>) -> u64
    ensures { result ≡ stop_key id to }
{
    match to {
        Some(to) => lookup_key(id, to),
        None => 0x1_0000_0000 * (id as u64 + 1),
    }
}

// The lookups of a registration of an id.
fn span_of(id: u16, of: Registration) -> Span
    ensures of { result.of ≡ of }
    ensures lookups { (i number : ℕ) → number < 2 ^ 32 → has_key (lookup_key i number) result
        ≡ ((id == i) && (nat_le of.from number && is_before number of.to)) }
{
    Span {
        begin: lookup_key(id, of.from),
        end: stop_key(id, of.to),
        of,
    }
}

// A registration more, before the entries that were gone through. Of these `ends` has the next end of
// each id.
fn note_registered(
    spans: &mut Vec<Span>,
    ends: &BTreeMap<u16, u32>,
    decl: u8,
    id: u16,
    from: u32,
) -> Result<(), Memory>
    ensures { OnOk result ((es : List PoolEntry) → AreNoted es spans.old.items ends.now
        → AreNoted (Registered decl id from ∷ es) spans.new.items ends.now) }
{
    let to = ends.get(&id).copied();
    let span = span_of(id, Registration { decl, from, to });
    spans.push(span)?;
    Ok(())
}

// An end more, before the entries that were gone through.
fn note_unregistered(ends: &mut BTreeMap<u16, u32>, id: u16, to: u32) -> Result<(), Memory>
    ensures { OnOk result ((decl : ℕ) (es : List PoolEntry) (spans : List Span)
        → AreNoted es spans ends.old
        → AreNoted (Unregistered decl id to ∷ es) spans ends.new) }
{
    ends.insert(id, to)?;
    Ok(())
}

// One entry more, before those that were gone through.
fn note_entry(
    spans: &mut Vec<Span>,
    ends: &mut BTreeMap<u16, u32>,
    entry: PoolEntry,
) -> Result<(), Memory>
    ensures { OnOk result ((es : List PoolEntry) → AreNoted es spans.old.items ends.old
        → AreNoted (entry ∷ es) spans.new.items ends.new) }
{
    match entry {
        PoolEntry::Registered { decl, id, from } => {
            note_registered(spans, ends, decl, id, from)?;
            Ok(())
        }
        PoolEntry::Unregistered { id, to, .. } => {
            note_unregistered(ends, id, to)?;
            Ok(())
        }
        PoolEntry::Idle { .. } => Ok(()),
    }
}

// The lookups of each registration, the last registration first.
fn spans_of(alloc: Global, pool: &[PoolEntry]) -> Result<Vec<Span>, Memory>
    ensures { IfOk result (λ spans. AreSpansOf pool.now spans.items) }
{
    let mut ends = BTreeMap::new(alloc);
    let mut spans = Vec::new(alloc);
    let mut left = pool.len();
    while left > 0 {
        left -= 1;
        note_entry(&mut spans, &mut ends, pool[left])?;
    }
    Ok(spans)
}

impl Met {
    /// What each lookup met by any journal, also one whose registrations overlap. It goes through
    /// the journal once, and sorts it by its numbers.
    pub fn of(alloc: Global, pool: &[PoolEntry]) -> Result<Met, Memory>
        ensures { IfOk result (λ met. IsMetIn pool.now met) }
    {
        let spans = spans_of(alloc, pool)?;
        let steps = steps_of(alloc, spans.as_slice())?;
        Ok(Met { steps })
    }

    /// The declaration that the lookup of an id with this number met, whether the lookup was made
    /// or not.
    pub fn decl(&self, id: u16, number: u32) -> Option<u8>
        ensures { (es : List PoolEntry) → IsMetIn es self.now
            → result ≡ decl_at number (registrations id es) }
    {
        match step_at(self.steps.as_slice(), lookup_key(id, number)) {
            Some(of) => Some(of.decl),
            None => None,
        }
    }
}
