// SPDX-License-Identifier: GPL-2.0-only
//! How many objects each command drained.

ghost use Rattle.std.specs.Prelude.{◌≡◌, ℕ, ◌+◌, ◌*◌, ◌<◌, cond, length, sum_by, unwrap_or, IfOk, OnOk};
ghost use Rattle.std.specs.BTreeMap.{get};
ghost use Rattle.std.specs.Ordering.{nat_cmp};
ghost use Rattle.shr_base.specs.declared.places.Serial.{Serial};
ghost use Rattle.shr_audit_case.specs.Places.{AreInOrder};
ghost use Rattle.shr_model.specs.Commands.{is_serial};
ghost use Rattle.shr_model.specs.Places.{is_place};
ghost use Rattle.shr_laws.specs.Causes.{drained_by, drained_of};
ghost use Rattle.shr_audit_causes.specs.Sums.{AreSums, IsSerialKeyed, IsNothing, AreOfOnePlace, capped, drained_key};

use shr_audit_case::places::journal_at;
use shr_base::ends::PlaceEnd;
use shr_base::journals::Entry;
use shr_base::memory::Memory;
use shr_base::places::{Place, Serial};
use shr_laws::report::Report;
use std::alloc::Global;
use std::collections::BTreeMap;

// A command by one number.
fn serial_key(by: Serial) -> u64
    ensures key { result ≡ drained_key by.worker by.command }
    ensures keyed { IsSerialKeyed by.worker by.command }
{
    0x1_0000_0000 * by.worker as u64 + by.command as u64
}

// No sums.
fn no_sums(alloc: Global) -> BTreeMap<u64, u64>
    ensures { IsNothing result }
{
    BTreeMap::new(alloc)
}

// The sum at a key, 0 where there is none.
fn sum_at(sums: &BTreeMap<u64, u64>, key: u64) -> u64
    ensures { result ≡ unwrap_or (get nat_cmp sums.now key) 0 }
{
    sums.get(&key).copied().unwrap_or(0)
}

/// How many objects a command drained, 2^64 - 1 where there are more.
pub fn drained_in(sums: &BTreeMap<u64, u64>, by: Serial) -> u64
    ensures { (total : Serial → ℕ) → AreSums sums.now total → result ≡ capped (total by) }
{
    let key = serial_key(by);
    sum_at(sums, key)
}

// Adds so many objects of a command.
fn add(sums: &mut BTreeMap<u64, u64>, by: Serial, more: u64) -> Result<(), Memory>
    ensures { OnOk result ((total : Serial → ℕ) (amount : ℕ) → more ≡ capped amount
        → AreSums sums.old total
        → AreSums sums.new (λ x. total x + cond (is_serial x by) amount 0)) }
{
    let key = serial_key(by);
    let before = sum_at(sums, key);
    sums.insert(key, before.saturating_add(more))?;
    Ok(())
}

// Notes an entry of a list that is printed so many times.
fn note(sums: &mut BTreeMap<u64, u64>, times: u64, entry: &Entry) -> Result<(), Memory>
    ensures { OnOk result ((total : Serial → ℕ) → AreSums sums.old total
        → AreSums sums.new (λ by. total by + times * drained_by by entry.now)) }
{
    match entry {
        Entry::Drained { by, objects } => {
            let more = times.saturating_mul(*objects as u64);
            add(sums, *by, more)?;
            Ok(())
        }
        _ => Ok(()),
    }
}

// Notes those of a list.
fn note_all(sums: &mut BTreeMap<u64, u64>, times: u64, entries: &[Entry]) -> Result<(), Memory>
    ensures { OnOk result ((total : Serial → ℕ) → AreSums sums.old total
        → AreSums sums.new (λ by. total by + times * sum_by (drained_by by) entries.now)) }
{
    for entry in entries {
        note(sums, times, entry)?;
    }
    Ok(())
}

// Whether the two are one place.
fn is_place(p: Place, q: Place) -> bool
    ensures { result ≡ is_place p q }
{
    p.id == q.id && p.node == q.node && p.group == q.group
}

// How far the lists reach that are of the place of one, from it on.
fn run_end(ends: &[PlaceEnd], k: usize) -> usize
    requires { k < length ends.now }
    ensures { AreOfOnePlace ends.now k result }
{
    for n in k + 1..ends.len() {
        if !is_place(ends[n].place, ends[k].place) {
            return n;
        }
    }
    ends.len()
}

/// How many objects each command drained by the lists of a report. A list counts as often as its
/// place is printed, as the law has it, and is gone through once.
pub fn sums_of(alloc: Global, report: &Report) -> Result<BTreeMap<u64, u64>, Memory>
    requires { AreInOrder report.now.places.items }
    ensures { IfOk result (λ sums. AreSums sums (drained_of report.now)) }
{
    let mut sums = no_sums(alloc);
    let ends = report.places.as_slice();
    let mut k = 0;
    while k < ends.len() {
        let stop = run_end(ends, k);
        let entries = journal_at(report, ends[k].place);
        note_all(&mut sums, (stop - k) as u64, entries)?;
        k = stop;
    }
    Ok(sums)
}
