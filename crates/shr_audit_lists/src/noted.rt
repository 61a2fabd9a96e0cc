// SPDX-License-Identifier: GPL-2.0-only
//! The serials of objects that journals added.

ghost use Rattle.std.specs.Prelude.{◌≡◌, ◌++◌, IfOk, OnOk};
ghost use Rattle.shr_model.specs.Bag.{added_by, added_by_all, added_in};
ghost use Rattle.shr_laws.specs.Parts.{journals_of, places_of};
ghost use Rattle.shr_audit_case.specs.Places.{AreInOrder};

use shr_audit_case::places::journal_at;
use shr_base::journals::Entry;
use shr_base::memory::Memory;
use shr_base::places::Serial;
use shr_laws::report::Report;
use std::alloc::Global;

// Notes the serial that an entry added, if it added one.
fn note_entry(serials: &mut Vec<Serial>, entry: &Entry) -> Result<(), Memory>
    ensures { OnOk result (serials.new.items ≡ serials.old.items ++ added_by entry.now) }
{
    match entry {
        Entry::Add { by, added, .. } => {
            if *added {
                serials.push(*by)?;
            }
        }
        _ => {}
    }
    Ok(())
}

// Notes those of a journal.
fn note_journal(serials: &mut Vec<Serial>, entries: &[Entry]) -> Result<(), Memory>
    ensures { OnOk result (serials.new.items ≡ serials.old.items ++ added_by_all entries.now) }
{
    for entry in entries {
        note_entry(serials, entry)?;
    }
    Ok(())
}

/// The serials that the journals of a report added.
pub(crate) fn added_serials(alloc: Global, report: &Report) -> Result<Vec<Serial>, Memory>
    requires { AreInOrder report.now.places.items }
    ensures { IfOk result (λ v. v.items ≡ added_in (places_of report.now)
        (journals_of report.now)) }
{
    let mut serials = Vec::new(alloc);
    for end in report.places.as_slice() {
        note_journal(&mut serials, journal_at(report, end.place))?;
    }
    Ok(serials)
}
