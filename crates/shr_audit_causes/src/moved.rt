// SPDX-License-Identifier: GPL-2.0-only
//! How many objects were moved from each group.

ghost use Rattle.std.specs.Prelude.{◌≡◌, ℕ, ◌+◌, ◌*◌, ◌≤◌, ◌<◌, ◌==◌, cond, length, replicate, slice_get, sum_by, Some, IfOk};
ghost use Rattle.shr_base.specs.declared.ends.PlaceEnd.{PlaceEnd};
ghost use Rattle.shr_audit_case.specs.Places.{AreInOrder};
ghost use Rattle.shr_laws.specs.Causes.{moved_of};
ghost use Rattle.shr_audit_causes.specs.Moved.{AreMoved, AreCappedSums};

use shr_audit_case::places::journal_at;
use shr_base::ends::PlaceEnd;
use shr_base::journals::Entry;
use shr_base::memory::Memory;
use shr_base::places::Place;
use shr_laws::report::Report;
use std::alloc::Global;

// No objects of so many groups.
fn nothing(alloc: Global, count: usize) -> Result<Vec<u128>, Memory>
    ensures { IfOk result (λ v. v.items ≡ replicate count 0) }
{
    Ok(vec![in alloc; 0; count]?)
}

// Adds to the sum of a group what a list says that is printed so many times.
fn add(moved: &mut Vec<u128>, group: usize, objects: u32, times: usize)
    ensures count { length moved.new.items ≡ length moved.old.items }
    ensures added { (sums : ℕ → ℕ) → AreCappedSums sums moved.old.items
        → AreCappedSums (λ g. sums g + times * cond (group == g) objects 0) moved.new.items }
{
    if group < moved.len() {
        let more = (objects as u128).saturating_mul(times as u128);
        let sum = moved[group].saturating_add(more);
        moved[group] = sum;
    }
}

// Notes an entry of such a list.
fn note(moved: &mut Vec<u128>, entry: &Entry, times: usize)
    ensures count { length moved.new.items ≡ length moved.old.items }
    ensures noted { (sums : ℕ → ℕ) → AreCappedSums sums moved.old.items
        → AreCappedSums (λ g. sums g + times * moved_of g entry.now) moved.new.items }
{
    match entry {
        Entry::MovedIn { child, objects } => add(moved, *child as usize, *objects, times),
        _ => {}
    }
}

// Notes its entries.
fn note_all(moved: &mut Vec<u128>, entries: &[Entry], times: usize)
    ensures count { length moved.new.items ≡ length moved.old.items }
    ensures noted { (sums : ℕ → ℕ) → AreCappedSums sums moved.old.items
        → AreCappedSums (λ g. sums g + times * sum_by (moved_of g) entries.now) moved.new.items }
{
    for entry in entries {
        note(moved, entry, times);
    }
}

// The number of the first list from a number on that isn't of a place.
fn run_end(ends: &[PlaceEnd], from: usize, place: Place) -> usize
    requires { from ≤ length ends.now }
    ensures reached { from ≤ result }
    ensures within { result ≤ length ends.now }
    ensures same { (k : ℕ) (end : PlaceEnd) → from ≤ k → k < result
        → slice_get ends.now k ≡ Some end → end.place ≡ place }
{
    for k in from..ends.len() {
        if ends[k].place != place {
            return k;
        }
    }
    ends.len()
}

/// How many objects were moved from each of 65,536 groups. A list that is printed twice counts
/// twice, as the law has it, and is read once.
pub(crate) fn moved_of(alloc: Global, report: &Report) -> Result<Vec<u128>, Memory>
    requires { AreInOrder report.now.places.items }
    ensures { IfOk result (λ moved. AreMoved report.now moved.items) }
{
    let mut moved = nothing(alloc, 65536)?;
    let ends = report.places.as_slice();
    let mut k = 0;
    while k < ends.len() {
        let place = ends[k].place;
        let next = run_end(ends, k + 1, place);
        let entries = journal_at(report, place);
        note_all(&mut moved, entries, next - k);
        k = next;
    }
    Ok(moved)
}
