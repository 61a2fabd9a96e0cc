// SPDX-License-Identifier: GPL-2.0-only
//! The lists of a report.

ghost use Rattle.std.specs.Bool.{Decides};
ghost use Rattle.std.specs.List.{AllByRecursion};
ghost use Rattle.shr_laws.specs.WellFormed.{HasWords, IsNumbered, IsPlaceUpTo, IsSpelled};
ghost use Rattle.shr_audit_formed.specs.Each.{Adjacent, EachItem, IsListFormed};

use crate::tables::is_place_up_to;
use crate::words::{is_key, is_value};
use shr_base::ends::PlaceEnd;
use shr_base::items::Items;
use shr_base::journals::Entry;
use shr_base::objects::Object;
use shr_base::places::Place;

// Whether the key and the value of an entry are words.
fn has_words(entry: &Entry) -> bool
    ensures { Decides result (HasWords entry.now) }
{
    match entry {
        Entry::Add { key, value, .. } => is_key(key.bytes()) && is_value(value.bytes()),
        Entry::Look { key, .. } => is_key(key.bytes()),
        Entry::Drop { key, .. } => is_key(key.bytes()),
        Entry::Pin { key, .. } => is_key(key.bytes()),
        _ => true,
    }
}

// Whether those of an object are.
fn is_spelled(object: &Object) -> bool
    ensures { Decides result (IsSpelled object.now) }
{
    is_key(object.key.bytes()) && is_value(object.value.bytes())
}

// Whether the keys and values of these entries are words.
fn have_words(entries: &[Entry]) -> bool
    ensures { Decides result (EachItem (HasWords) entries.now) }
{
    for entry in entries {
        if !has_words(entry) {
            return false;
        }
    }
    true
}

// Whether those of these objects are.
fn are_spelled(items: &Items) -> bool
    ensures { Decides result (AllByRecursion IsSpelled items.now.items) }
{
    let mut walk = items.walk();
    for _ in 0..items.len() {
        let Some(object) = walk.next() else {
            return true;
        };
        if !is_spelled(object) {
            return false;
        }
    }
    true
}

// The numbers of a place have the ranges of their types.
fn place_fits(place: Place)
    ensures { IsNumbered place }
{}

// Whether a list is as one that is printed.
fn is_list_well(end: &PlaceEnd) -> bool
    ensures { Decides result (IsListFormed end.now) }
{
    place_fits(end.place);
    if end.entries.len() == 0 {
        return false;
    }
    if !have_words(end.entries.as_slice()) {
        return false;
    }
    let items = are_spelled(&end.items);
    items
}

/// Whether each list is as one that is printed.
pub fn lists_are_well(ends: &[PlaceEnd]) -> bool
    ensures { Decides result (EachItem (IsListFormed) ends.now) }
{
    for end in ends {
        if !is_list_well(end) {
            return false;
        }
    }
    true
}

/// Whether lists stand by place.
pub fn lists_stand(ends: &[PlaceEnd]) -> bool
    ensures { Decides result (Adjacent (λ x y. IsPlaceUpTo x.place y.place) ends.now) }
{
    for i in 1..ends.len() {
        if !is_place_up_to(ends[i - 1].place, ends[i].place) {
            return false;
        }
    }
    true
}
