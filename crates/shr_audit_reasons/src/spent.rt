// SPDX-License-Identifier: GPL-2.0-only
//! Counters that were found used up.

ghost use Rattle.std.specs.Prelude.{◌≡◌, ◌<◌, length};
ghost use Rattle.std.specs.Bool.{Decides};
ghost use Rattle.shr_model.specs.Items.{is_closed};
ghost use Rattle.shr_laws.specs.Causes.{IsEndingRight, IsSpent};
ghost use Rattle.shr_laws.specs.Parts.{journals_of, lookups_at};
ghost use Rattle.shr_audit_case.specs.Places.{AreInOrder};
ghost use Rattle.shr_audit_reasons.specs.Counted.{IsCountOf};

use crate::counted::Counted;
use shr_audit_case::places::{index_of, journal_at};
use shr_base::places::Place;
use shr_base::replies::Spent;
use shr_base::scripts::Script;
use shr_base::walks::Ending;
use shr_laws::report::Report;

// The printed lookups of an id.
fn lookups_at(report: &Report, id: u16) -> u32
    ensures { result ≡ lookups_at report.now id }
{
    match report.lookups.get(id as usize) {
        Some(lookups) => *lookups,
        None => 0,
    }
}

/// Whether the journal of a place is closed.
pub fn is_closed_at(script: &Script, report: &Report, counted: &Counted, place: Place) -> bool
    requires order { AreInOrder report.now.places.items }
    requires counted { IsCountOf script.now report.now counted.now }
    ensures { result ≡ is_closed (journals_of report.now place) }
{
    match index_of(report.places.as_slice(), place) {
        Some(k) => counted.closed[k],
        None => false,
    }
}

/// Whether a counter that a worker found used up has these numbers.
pub fn is_spent(
    script: &Script,
    report: &Report,
    counted: &Counted,
    worker: usize,
    spent: Spent,
) -> bool
    requires order { AreInOrder report.now.places.items }
    requires counted { IsCountOf script.now report.now counted.now }
    requires there { worker < length report.now.workers.items }
    ensures { Decides result (IsSpent script.now report.now worker spent) }
{
    match spent {
        Spent::Lookups { id, seen } => { seen >= u32::MAX - 255 && seen <= lookups_at(report, id) }
        Spent::List {
            place,
            entries,
            items,
        } => {
            let len = journal_at(report, place).len();
            (entries > 0x8000_0000 || items > 20_000)
                && (entries == 0 || entries as usize - 1 <= len)
                && items <= counted.puts
        }
        Spent::Charges { charges, uncharges } => {
            (charges >= 1_048_576 || uncharges >= 4_194_304)
                && charges <= counted.ups[worker]
                && uncharges <= counted.downs[worker]
        }
    }
}

/// Whether a pass of a worker that is worn is so by a counter that was used up.
pub fn is_ending_right(
    script: &Script,
    report: &Report,
    counted: &Counted,
    worker: usize,
    ending: Ending,
) -> bool
    requires order { AreInOrder report.now.places.items }
    requires counted { IsCountOf script.now report.now counted.now }
    requires there { worker < length report.now.workers.items }
    ensures { Decides result (IsEndingRight script.now report.now worker ending) }
{
    match ending {
        Ending::Worn { spent } => is_spent(script, report, counted, worker, spent),
        _ => true,
    }
}
