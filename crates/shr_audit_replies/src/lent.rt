// SPDX-License-Identifier: GPL-2.0-only
//! The values that hits lend, against those that Looks found.

ghost use Rattle.std.specs.Prelude.{◌≡◌, ℕ, true, List, [], Some};
ghost use Rattle.std.specs.Bool.{Decides};
ghost use Rattle.shr_base.specs.declared.objects.Object.{Object};
ghost use Rattle.shr_base.specs.declared.replies.Reply.TheVariants.{Hit};
ghost use Rattle.shr_audit_case.specs.Journals.{values_from};
ghost use Rattle.shr_laws.specs.Parts.{at};
ghost use Rattle.shr_audit_case.specs.Each.{EachFirst};
ghost use Rattle.shr_audit_case.specs.Lists.{IsCaseOf, IsReplayOf};
ghost use Rattle.shr_audit_case.specs.Places.{AreInOrder};
ghost use Rattle.shr_audit_replies.specs.Answers.{AreValuesLent};
ghost use Rattle.shr_audit_replies.specs.Lent.{AreMetLent, AreValuesLentAt, IsLent, IsLentTo, value_first, values_behind};

use shr_audit_case::case::Case;
use shr_audit_case::places::{is_first, journal_at};
use shr_audit_case::serials::answer_at;
use shr_audit_case::values::FoundValue;
use shr_base::ends::PlaceEnd;
use shr_base::journals::Entry;
use shr_base::places::{At, Place, Serial};
use shr_base::replies::Reply;
use shr_base::scripts::Script;
use shr_base::text::Text;
use shr_laws::report::Report;

// Whether the first of these is what the entry with this number found, and is this value.
fn is_value_first(found: &[FoundValue], n: usize, value: &Text) -> bool
    ensures { Decides result (value_first n found.now ≡ Some value.now) }
{
    match found.split_first() {
        Some((first, _rest)) => first.entry == n && first.value.same(value),
        None => false,
    }
}

// Those that later entries found.
fn values_behind(found: &[FoundValue], n: usize) -> &[FoundValue]
    ensures { result.now ≡ values_behind n found.now }
{
    match found.split_first() {
        Some((first, rest)) => { if first.entry == n { rest } else { found } }
        None => found,
    }
}

// Whether this is the entry of a place with this number.
fn is_entry(cited: At, place: Place, n: usize) -> bool
    ensures { Decides result (cited ≡ at place n) }
{
    cited.place == place && cited.entry as usize == n
}

// Whether a reply, if it is a hit that cites this entry, lends the value that it found.
fn is_reply_lent(reply: &Reply, place: Place, n: usize, found: &[FoundValue]) -> bool
    ensures { Decides result ((value : List ℕ) → reply.now ≡ Hit (at place n) value
        → value_first n found.now ≡ Some value) }
{
    match reply {
        Reply::Hit { at: cited, value } => {
            if !is_entry(*cited, place, n) {
                return true;
            }
            let lent = is_value_first(found, n, value);
            lent
        }
        _ => true,
    }
}

// The same of the reply to a command.
fn is_lent_to(report: &Report, place: Place, n: usize, by: Serial, found: &[FoundValue]) -> bool
    ensures { Decides result (IsLentTo report.now place n by (value_first n found.now)) }
{
    match answer_at(report, by) {
        Some(answer) => is_reply_lent(&answer.reply, place, n, found),
        None => true,
    }
}

// The same of the command of an entry, if it is a Look that hit.
fn is_lent(report: &Report, place: Place, n: usize, entry: &Entry, found: &[FoundValue]) -> bool
    ensures { Decides result (IsLent report.now place n entry.now (value_first n found.now)) }
{
    match entry {
        Entry::Look { by, hit, .. } => {
            if !*hit {
                return true;
            }
            is_lent_to(report, place, n, *by, found)
        }
        _ => true,
    }
}

// The same of each entry of a journal, with the values that its Looks found.
fn are_lent(report: &Report, place: Place, entries: &[Entry], found: &[FoundValue]) -> bool
    ensures { (moved : List (List Object)) → found.now ≡ values_from 0 moved [] entries.now
        → Decides result (AreMetLent report.now place moved entries.now) }
{
    let mut rest = found;
    for n in 0..entries.len() {
        if !is_lent(report, place, n, &entries[n], rest) {
            return false;
        }
        rest = values_behind(rest, n);
    }
    true
}

// Whether each hit that cites an entry of a place lends the value of the object that is there.
fn is_place_lent(report: &Report, case: &Case, place: Place) -> bool
    requires { IsReplayOf report.now case.now }
    ensures { Decides result (AreValuesLentAt case.now.parents.items report.now place) }
{
    let entries = journal_at(report, place);
    let found = case.values(report, place);
    let lent = are_lent(report, place, entries, found);
    lent
}

// The same of the place of a list, if the list is the first one of it.
fn is_list_lent(report: &Report, case: &Case, first: bool, end: &PlaceEnd) -> bool
    requires { IsReplayOf report.now case.now }
    ensures { Decides result (first ≡ true
        → AreValuesLentAt case.now.parents.items report.now end.now.place) }
{
    if !first {
        return true;
    }
    let lent = is_place_lent(report, case, end.place);
    lent
}

// The same of each list.
fn are_lists_lent(report: &Report, case: &Case, ends: &[PlaceEnd]) -> bool
    requires replayed { IsReplayOf report.now case.now }
    requires order { AreInOrder ends.now }
    ensures { Decides result (EachFirst ends.now
        (λ end. AreValuesLentAt case.now.parents.items report.now end.place)) }
{
    for k in 0..ends.len() {
        let first = is_first(ends, k);
        if !is_list_lent(report, case, first, &ends[k]) {
            return false;
        }
    }
    true
}

/// Whether each hit that cites a Look lends the value of the object that the Look met; if it met
/// none, no value is right. The case is that of the script and the report.
pub fn are_values_lent(script: &Script, report: &Report, case: &Case) -> bool
    requires { IsCaseOf script.now report.now case.now }
    ensures { Decides result (AreValuesLent script.now report.now) }
{
    let lent = are_lists_lent(report, case, report.places.as_slice());
    lent
}
