// SPDX-License-Identifier: GPL-2.0-only
//! Entries with which lists were drained.

ghost use Rattle.std.specs.Prelude.{◌≡◌, true};
ghost use Rattle.std.specs.Bool.{Decides};
ghost use Rattle.std.specs.Option.{IsSomeAnd};
ghost use Rattle.shr_audit_case.specs.Each.{EachFirst};
ghost use Rattle.shr_audit_case.specs.Places.{AreInOrder};
ghost use Rattle.shr_audit_formed.specs.Each.{EachItem};
ghost use Rattle.shr_laws.specs.Causes.{HasDrained};
ghost use Rattle.shr_laws.specs.Parts.{EachEntry, reply_at};
ghost use Rattle.shr_audit_reasons.specs.Walks.{IsDrainedRightly};

use shr_audit_case::places::is_first;
use shr_audit_case::serials::answer_at;
use shr_base::ends::PlaceEnd;
use shr_base::journals::Entry;
use shr_base::places::Serial;
use shr_base::replies::Reply;
use shr_laws::report::Report;

// Whether a reply is that of an `unregister` that went so far as to drain.
fn is_of_drain(reply: &Reply) -> bool
    ensures { Decides result (HasDrained reply.now) }
{
    match reply {
        Reply::Freed { .. } => true,
        Reply::Half { .. } => true,
        _ => false,
    }
}

// Whether the reply to a command is.
fn has_drained(report: &Report, by: Serial) -> bool
    ensures { Decides result (IsSomeAnd (reply_at report.now by) HasDrained) }
{
    match answer_at(report, by) {
        Some(answer) => is_of_drain(&answer.reply),
        None => false,
    }
}

// Whether an entry, if it is a Drained, is of a command that drained.
fn is_drained_rightly(report: &Report, entry: &Entry) -> bool
    ensures { Decides result (IsDrainedRightly report.now entry.now) }
{
    match entry {
        Entry::Drained { by, .. } => has_drained(report, *by),
        _ => true,
    }
}

// Whether each of these entries is.
fn are_drained_rightly(report: &Report, entries: &[Entry]) -> bool
    ensures { Decides result (EachItem (λ e. IsDrainedRightly report.now e) entries.now) }
{
    for entry in entries {
        if !is_drained_rightly(report, entry) {
            return false;
        }
    }
    true
}

// Whether each entry of a list is, if the list is the first one of its place.
fn is_list_drained_rightly(report: &Report, first: bool, end: &PlaceEnd) -> bool
    ensures { Decides result (first ≡ true → EachItem
        (λ e. IsDrainedRightly report.now e) end.now.entries.items) }
{
    if !first {
        return true;
    }
    let all = are_drained_rightly(report, end.entries.as_slice());
    all
}

// Whether each entry of these lists is, of those that are the first ones of their places.
fn are_lists_drained_rightly(report: &Report, ends: &[PlaceEnd]) -> bool
    requires { AreInOrder ends.now }
    ensures { Decides result (EachFirst ends.now (λ end. EachItem
        (λ e. IsDrainedRightly report.now e) end.entries.items)) }
{
    for k in 0..ends.len() {
        let first = is_first(ends, k);
        if !is_list_drained_rightly(report, first, &ends[k]) {
            return false;
        }
    }
    true
}

/// Whether each Drained is of a command that drained.
pub fn are_drains_caused(report: &Report) -> bool
    requires { AreInOrder report.now.places.items }
    ensures { Decides result (EachEntry report.now (λ place n e. IsDrainedRightly report.now e)) }
{
    let all = are_lists_drained_rightly(report, report.places.as_slice());
    all
}
