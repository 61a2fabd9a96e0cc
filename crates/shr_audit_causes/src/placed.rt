// SPDX-License-Identifier: GPL-2.0-only
//! Whether lists were drained by commands that drained their ids.

ghost use Rattle.std.specs.Prelude.{◌≡◌, true};
ghost use Rattle.std.specs.Bool.{Decides};
ghost use Rattle.shr_audit_case.specs.Each.{EachFirst};
ghost use Rattle.shr_audit_case.specs.Places.{AreInOrder};
ghost use Rattle.shr_audit_formed.specs.Each.{EachItem};
ghost use Rattle.shr_laws.specs.Parts.{EachEntry};
ghost use Rattle.shr_audit_causes.specs.Placed.{IsOfId, IsDrainPlaced, id_drained, id_drained_by};

use shr_audit_case::places::is_first;
use shr_audit_case::serials::{answer_at, command_at};
use shr_base::ends::PlaceEnd;
use shr_base::journals::Entry;
use shr_base::places::{Place, Serial};
use shr_base::replies::Reply;
use shr_base::scripts::Script;
use shr_laws::report::Report;

// The id that the answer to an `unregister` that drained tells of.
fn id_drained(reply: &Reply) -> Option<u16>
    ensures { result ≡ id_drained reply.now }
{
    match reply {
        Reply::Freed { id, .. } => Some(*id),
        Reply::Half { id, .. } => Some(*id),
        _ => None,
    }
}

// The id that the answer to a command of the script tells of so.
fn id_drained_by(script: &Script, report: &Report, by: Serial) -> Option<u16>
    ensures { result ≡ id_drained_by script.now report.now by }
{
    match command_at(script, by) {
        Some(_) => match answer_at(report, by) {
            Some(answer) => id_drained(&answer.reply),
            None => None,
        },
        None => None,
    }
}

// Whether a place is of an id, if there is one.
fn is_of_id(place: Place, id: Option<u16>) -> bool
    ensures { Decides result (IsOfId place id) }
{
    match id {
        Some(id) => place.id == id,
        None => true,
    }
}

// Whether an entry of a place, if it is a Drained, is of a command that drained the place's id.
fn is_placed(script: &Script, report: &Report, place: Place, entry: &Entry) -> bool
    ensures { Decides result (IsDrainPlaced script.now report.now place entry.now) }
{
    match entry {
        Entry::Drained { by, .. } => {
            let id = id_drained_by(script, report, *by);
            is_of_id(place, id)
        }
        _ => true,
    }
}

// Whether each of these entries is.
fn are_placed(script: &Script, report: &Report, place: Place, entries: &[Entry]) -> bool
    ensures { Decides result (EachItem (λ e. IsDrainPlaced script.now report.now place e)
        entries.now) }
{
    for entry in entries {
        if !is_placed(script, report, place, entry) {
            return false;
        }
    }
    true
}

// Whether each entry of a list is, if the list is the first one of its place.
fn is_list_placed(script: &Script, report: &Report, first: bool, end: &PlaceEnd) -> bool
    ensures { Decides result (first ≡ true → EachItem
        (λ e. IsDrainPlaced script.now report.now end.now.place e) end.now.entries.items) }
{
    if !first {
        return true;
    }
    let all = are_placed(script, report, end.place, end.entries.as_slice());
    all
}

// Whether each entry of these lists is, of those that are the first ones of their places.
fn are_lists_placed(script: &Script, report: &Report, ends: &[PlaceEnd]) -> bool
    requires { AreInOrder ends.now }
    ensures { Decides result (EachFirst ends.now (λ end. EachItem
        (λ e. IsDrainPlaced script.now report.now end.place e) end.entries.items)) }
{
    for k in 0..ends.len() {
        let first = is_first(ends, k);
        if !is_list_placed(script, report, first, &ends[k]) {
            return false;
        }
    }
    true
}

/// Whether each list that a command drained is of the id that its answer tells of.
pub fn are_drains_placed(script: &Script, report: &Report) -> bool
    requires { AreInOrder report.now.places.items }
    ensures { Decides result (EachEntry report.now
        (λ place n e. IsDrainPlaced script.now report.now place e)) }
{
    let all = are_lists_placed(script, report, report.places.as_slice());
    all
}
