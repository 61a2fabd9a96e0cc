// SPDX-License-Identifier: GPL-2.0-only
//! Whether each entry of a tenant is cited by the reply to its command.

ghost use Rattle.std.specs.Prelude.{◌≡◌, ℕ, Some, slice_get, true};
ghost use Rattle.std.specs.Bool.{Decides};
ghost use Rattle.shr_base.specs.declared.journals.Entry.{Entry};
ghost use Rattle.shr_audit_case.specs.Each.{EachFirst};
ghost use Rattle.shr_audit_case.specs.Places.{AreInOrder};
ghost use Rattle.shr_model.specs.Tenants.{by_of};
ghost use Rattle.shr_laws.specs.Parts.{at, cited_at, cited_by};
ghost use Rattle.shr_audit_replies.specs.Cited.{AreEntriesCited, IsCited};

use shr_audit_case::places::is_first;
use shr_audit_case::serials::answer_at;
use shr_base::ends::PlaceEnd;
use shr_base::journals::Entry;
use shr_base::places::{At, Place, Serial};
use shr_base::replies::Reply;
use shr_laws::report::Report;

/// The command of a tenant's entry.
pub fn by_of(entry: &Entry) -> Option<Serial>
    ensures { result ≡ by_of entry.now }
{
    match entry {
        Entry::Add { by, .. } => Some(*by),
        Entry::Look { by, .. } => Some(*by),
        Entry::Drop { by, .. } => Some(*by),
        Entry::Pin { by, .. } => Some(*by),
        _ => None,
    }
}

// The entry that a reply cites.
fn cited_by(reply: &Reply) -> Option<At>
    ensures { result ≡ cited_by reply.now }
{
    match reply {
        Reply::Added { at } => Some(*at),
        Reply::Exists { at } => Some(*at),
        Reply::Hit { at, .. } => Some(*at),
        Reply::Miss { at } => Some(*at),
        Reply::Dropped { at } => Some(*at),
        Reply::Pinned { at } => Some(*at),
        Reply::Done { at } => Some(*at),
        _ => None,
    }
}

// The entry that the reply to a command cites.
fn cited_at(report: &Report, by: Serial) -> Option<At>
    ensures { result ≡ cited_at report.now by }
{
    match answer_at(report, by) {
        Some(answer) => cited_by(&answer.reply),
        None => None,
    }
}

// Whether the reply to a command cites the entry of a place with this number.
fn cites(report: &Report, by: Serial, place: Place, n: usize) -> bool
    ensures { Decides result (cited_at report.now by ≡ Some (at place n)) }
{
    match cited_at(report, by) {
        Some(cited) => cited.place == place && cited.entry as usize == n,
        None => false,
    }
}

// Whether an entry of a place is cited, if it is a tenant's.
fn is_cited(report: &Report, place: Place, n: usize, entry: &Entry) -> bool
    ensures { Decides result (IsCited report.now place n entry.now) }
{
    match by_of(entry) {
        Some(by) => cites(report, by, place, n),
        None => true,
    }
}

// Whether each entry of a place is.
fn are_cited(report: &Report, place: Place, entries: &[Entry]) -> bool
    ensures { Decides result ((n : ℕ) (e : Entry) → slice_get entries.now n ≡ Some e
        → IsCited report.now place n e) }
{
    for n in 0..entries.len() {
        if !is_cited(report, place, n, &entries[n]) {
            return false;
        }
    }
    true
}

// Whether each entry of a list is, if the list is the first one of its place.
fn is_list_cited(report: &Report, first: bool, end: &PlaceEnd) -> bool
    ensures { Decides result (first ≡ true → (n : ℕ) (e : Entry)
        → slice_get end.now.entries.items n ≡ Some e → IsCited report.now end.now.place n e) }
{
    if !first {
        return true;
    }
    let all = are_cited(report, end.place, end.entries.as_slice());
    all
}

// Whether each entry of each list is that is the first one of its place.
fn are_lists_cited(report: &Report, ends: &[PlaceEnd]) -> bool
    requires { AreInOrder ends.now }
    ensures { Decides result (EachFirst ends.now (λ end. (n : ℕ) (e : Entry)
        → slice_get end.entries.items n ≡ Some e → IsCited report.now end.place n e)) }
{
    for k in 0..ends.len() {
        let first = is_first(ends, k);
        if !is_list_cited(report, first, &ends[k]) {
            return false;
        }
    }
    true
}

/// Whether each entry of a tenant is cited by the reply to its command.
pub fn are_entries_cited(report: &Report) -> bool
    requires { AreInOrder report.now.places.items }
    ensures { Decides result (AreEntriesCited report.now) }
{
    let all = are_lists_cited(report, report.places.as_slice());
    all
}
