// SPDX-License-Identifier: GPL-2.0-only
//! Counters that are used up, and how something ended, from the words that say so.

ghost use Rattle.std.specs.Prelude.{◌≡◌, IfSome, IfNone};
ghost use Rattle.shr_report.specs.ReadWords.{read_place, read_at, read_serial, read_spent, read_why, read_isolate_end, read_ending, read_pass};
ghost use Rattle.shr_laws.specs.WellFormed.{IsNumbered};
ghost use Rattle.shr_laws.specs.Numbers.{IsAtNumbered, IsSerialNumbered, IsSpentNumbered, IsWhyNumbered, IsIsolateEndNumbered, IsEndingNumbered, IsPassNumbered};
ghost use Rattle.shr_words.specs.WordReading.{words_left};

use crate::words::{is_over, number, number_8, number_16, number_32, word};
use shr_base::places::{At, Place, Serial};
use shr_base::replies::{HalfWhy, IsolateEnd, Spent};
use shr_base::walks::{Ending, PassRecord};

/// A place, and the words behind it. None: its numbers don't have the ranges of their types.
pub fn place(rest: Option<&[u8]>) -> Option<Place>
    ensures some { IfSome result (λ p. p ≡ read_place (words_left rest.entry)) }
    ensures none { IfNone result (IsNumbered (read_place (words_left rest.entry)) → ⊥) }
{
    let (id, rest) = word(rest);
    let (node, rest) = word(rest);
    let (group, _) = word(rest);
    Some(Place {
        id: number_16(id)?,
        node: number_8(node)?,
        group: number_16(group)?,
    })
}

/// An entry that is cited. None as for a place.
pub fn at(rest: Option<&[u8]>) -> Option<At>
    ensures some { IfSome result (λ a. a ≡ read_at (words_left rest.entry)) }
    ensures none { IfNone result (IsAtNumbered (read_at (words_left rest.entry)) → ⊥) }
{
    let place = place(rest)?;
    let (_, rest) = word(rest);
    let (_, rest) = word(rest);
    let (_, rest) = word(rest);
    let (entry, _) = word(rest);
    Some(At {
        place,
        entry: number_32(entry)?,
    })
}

/// A command's number with its worker's. None as for a place.
pub fn serial(rest: Option<&[u8]>) -> Option<Serial>
    ensures some { IfSome result (λ s. s ≡ read_serial (words_left rest.entry)) }
    ensures none { IfNone result (IsSerialNumbered (read_serial (words_left rest.entry)) → ⊥) }
{
    let (worker, rest) = word(rest);
    let (command, _) = word(rest);
    Some(Serial {
        worker: number_16(worker)?,
        command: number_32(command)?,
    })
}

/// A counter that is used up. None as for a place.
#[tactic(auto, unfolding(shr_report::specs::ReadWords::read_spent))]
pub fn spent(rest: Option<&[u8]>) -> Option<Spent>
    ensures some { IfSome result (λ s. s ≡ read_spent (words_left rest.entry)) }
    ensures none { IfNone result (IsSpentNumbered (read_spent (words_left rest.entry)) → ⊥) }
{
    let (what, rest) = word(rest);
    let (first, behind) = word(rest);
    let (second, behind) = word(behind);
    if what == b"lookups".as_slice() {
        return Some(Spent::Lookups {
            id: number_16(first)?,
            seen: number_32(second)?,
        });
    }
    if what == b"list".as_slice() {
        let place = place(rest)?;
        let (_, behind) = word(behind);
        let (entries, behind) = word(behind);
        let (items, _) = word(behind);
        return Some(Spent::List {
            place,
            entries: number_32(entries)?,
            items: number_32(items)?,
        });
    }
    Some(Spent::Charges {
        charges: number_32(first)?,
        uncharges: number_32(second)?,
    })
}

/// Why an unregistering stopped half way. None as for a place.
#[tactic(auto, unfolding(shr_report::specs::ReadWords::read_why))]
pub fn why(rest: Option<&[u8]>) -> Option<HalfWhy>
    ensures some { IfSome result (λ w. w ≡ read_why (words_left rest.entry)) }
    ensures none { IfNone result (IsWhyNumbered (read_why (words_left rest.entry)) → ⊥) }
{
    let (_, rest) = word(rest);
    if is_over(rest) {
        return Some(HalfWhy::Memory);
    }
    Some(HalfWhy::Worn {
        spent: spent(rest)?,
    })
}

/// How an isolation ended. None as for a place.
#[tactic(auto, unfolding(shr_report::specs::ReadWords::read_isolate_end))]
pub fn isolate_end(rest: Option<&[u8]>) -> Option<IsolateEnd>
    ensures some { IfSome result (λ e. e ≡ read_isolate_end (words_left rest.entry)) }
    ensures none { IfNone result (IsIsolateEndNumbered (read_isolate_end (words_left rest.entry))
        → ⊥) }
{
    let (what, rest) = word(rest);
    if what == b"spent".as_slice() {
        return Some(IsolateEnd::Spent);
    }
    if what == b"bare".as_slice() {
        return Some(IsolateEnd::Bare);
    }
    if what == b"stop".as_slice() {
        return Some(IsolateEnd::Stop);
    }
    if what == b"closed".as_slice() {
        return Some(IsolateEnd::Closed);
    }
    if what == b"noroom".as_slice() {
        return Some(IsolateEnd::NoRoom);
    }
    Some(IsolateEnd::Worn {
        spent: spent(rest)?,
    })
}

/// How a pass ended. None as for a place.
#[tactic(auto, unfolding(shr_report::specs::ReadWords::read_ending))]
pub fn ending(rest: Option<&[u8]>) -> Option<Ending>
    ensures some { IfSome result (λ e. e ≡ read_ending (words_left rest.entry)) }
    ensures none { IfNone result (IsEndingNumbered (read_ending (words_left rest.entry)) → ⊥) }
{
    let (what, rest) = word(rest);
    if what == b"through".as_slice() {
        return Some(Ending::Through);
    }
    if what == b"stop".as_slice() {
        return Some(Ending::Stop);
    }
    if what == b"noroom".as_slice() {
        return Some(Ending::NoRoom);
    }
    Some(Ending::Worn {
        spent: spent(rest)?,
    })
}

/// A pass. None as for a place.
#[tactic(auto, unfolding(shr_report::specs::ReadWords::read_pass))]
pub fn pass(rest: Option<&[u8]>) -> Option<PassRecord>
    ensures some { IfSome result (λ p. p ≡ read_pass (words_left rest.entry)) }
    ensures none { IfNone result (IsPassNumbered (read_pass (words_left rest.entry)) → ⊥) }
{
    let (len, rest) = word(rest);
    let (version, rest) = word(rest);
    let (nr, rest) = word(rest);
    let (asks, rest) = word(rest);
    let (closed, rest) = word(rest);
    let (scanned, rest) = word(rest);
    let (freed, rest) = word(rest);
    let (next, rest) = word(rest);
    Some(PassRecord {
        len: number_32(len)?,
        version: number_32(version)?,
        nr: number(nr)?,
        asks: number_32(asks)?,
        closed: number_32(closed)?,
        scanned: number(scanned)?,
        freed: number(freed)?,
        next: number(next)?,
        ending: ending(rest)?,
    })
}
