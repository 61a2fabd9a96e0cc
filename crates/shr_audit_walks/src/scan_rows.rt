// SPDX-License-Identifier: GPL-2.0-only
//! The Scan entries of a report, list by list.

ghost use Rattle.std.specs.Prelude.{◌≡◌, ◌<◌, ◌++◌, length, IfOk, OnOk};
ghost use Rattle.shr_audit_case.specs.Places.{AreInOrder};
ghost use Rattle.shr_laws.specs.Numbers.{HasNumbers};
ghost use Rattle.shr_audit_walks.specs.ScanRows.{AreRowsOf, AddsRowsOf, scan_row, rows_of, rows_with};

use shr_audit_case::places::is_first;
use shr_audit_passes::scans::ScanSeen;
use shr_base::ends::PlaceEnd;
use shr_base::journals::Entry;
use shr_base::memory::Memory;
use shr_base::places::Place;
use shr_laws::report::Report;
use std::alloc::Global;

// Notes an entry of a place, if it is a Scan.
fn note_entry(
    rows: &mut Vec<ScanSeen>,
    place: Place,
    number: usize,
    entry: &Entry,
) -> Result<(), Memory>
    ensures { OnOk result (rows.new.items ≡ rows_with rows.old.items
        (scan_row place number entry.now)) }
{
    match entry {
        Entry::Scan {
            worker,
            walk,
            asked,
            policy,
            freed,
            ..
        } => {
            rows.push(ScanSeen {
                worker: *worker,
                walk: *walk,
                place,
                number,
                asked: *asked,
                policy: *policy,
                freed: *freed,
            })?;
        }
        _ => {}
    }
    Ok(())
}

// Notes the Scan entries of a place's journal.
fn note_journal(rows: &mut Vec<ScanSeen>, place: Place, entries: &[Entry]) -> Result<(), Memory>
    ensures { OnOk result (rows.new.items ≡ rows.old.items ++ rows_of place entries.now) }
{
    for number in 0..entries.len() {
        note_entry(rows, place, number, &entries[number])?;
    }
    Ok(())
}

// Notes those of a list, if it is the first one of its place.
fn note_list(rows: &mut Vec<ScanSeen>, ends: &[PlaceEnd], k: usize) -> Result<(), Memory>
    requires order { AreInOrder ends.now }
    requires there { k < length ends.now }
    ensures { OnOk result (AddsRowsOf ends.now k rows.old.items rows.new.items) }
{
    if is_first(ends, k) {
        note_journal(rows, ends[k].place, ends[k].entries.as_slice())?;
    }
    Ok(())
}

/// The Scan entries of a report, list by list, in the order of the journals.
pub fn rows_of(alloc: Global, report: &Report) -> Result<Vec<ScanSeen>, Memory>
    requires order { AreInOrder report.now.places.items }
    requires numbers { HasNumbers report.now }
    ensures { IfOk result (λ rows. AreRowsOf report.now.places.items rows.items) }
{
    let ends = report.places.as_slice();
    let mut rows = Vec::new(alloc);
    for k in 0..ends.len() {
        note_list(&mut rows, ends, k)?;
    }
    Ok(rows)
}
