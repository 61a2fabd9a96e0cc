// SPDX-License-Identifier: GPL-2.0-only
//! Entries of a list's journal and its objects, from the words of their lines.

ghost use Rattle.std.specs.Prelude.{◌≡◌, [], IfOk, IfSome, IfNone, codes, if◌then◌else◌};
ghost use Rattle.shr_report.specs.ReadWords.{later, w3, n2, read_serial};
ghost use Rattle.shr_report.specs.ReadLines.{read_entry, read_item, read_kind, read_policy};
ghost use Rattle.shr_laws.specs.Numbers.{IsEntryNumbered, IsObjectNumbered, IsSerialNumbered, IsShort};
ghost use Rattle.shr_audit_text.specs.Reads.{IsReadAs};
ghost use Rattle.shr_words.specs.WordReading.{words_left};

use crate::spent::serial;
use crate::words::{behind_first, number, number_16, number_32, word};
use shr_base::journals::{DropKind, Entry};
use shr_base::memory::Memory;
use shr_base::objects::{Object, Policy};
use shr_base::places::Serial;
use shr_base::text::Text;
use std::alloc::Global;

// What became of an object that was to be dropped.
#[tactic(auto, unfolding(shr_report::specs::ReadLines::read_kind))]
fn kind(word: &[u8]) -> DropKind
    ensures { result ≡ read_kind word.now }
{
    if word == b"dropped".as_slice() {
        DropKind::Dropped
    } else if word == b"pinned".as_slice() {
        DropKind::Pinned
    } else {
        DropKind::Miss
    }
}

// The policy of a scan.
#[tactic(auto, unfolding(shr_report::specs::ReadLines::read_policy))]
fn policy(word: &[u8]) -> Policy
    ensures { result ≡ read_policy word.now }
{
    if word == b"plain".as_slice() {
        Policy::Plain
    } else if word == b"clock".as_slice() {
        Policy::Clock
    } else {
        Policy::Halt
    }
}

// Whose the object is that a line speaks of, its key, and the words behind that.
#[derive(Drop)]
struct Named<'a> {
    by: Serial,
    birth: u16,
    key: &'a [u8],
    rest: Option<&'a [u8]>,
}

// The first four words of a line that speaks of an object. None: their numbers don't have the ranges
// of their types.
fn read_named(rest: Option<&[u8]>) -> Option<Named>
    ensures by { IfSome result (λ n. n.by ≡ read_serial (words_left rest.entry)) }
    ensures birth { IfSome result (λ n. n.birth ≡ n2 (words_left rest.entry)) }
    ensures key { IfSome result (λ n. n.key.now ≡ w3 (words_left rest.entry)) }
    ensures behind { IfSome result (λ n. words_left n.rest
        ≡ later (later (later (later (words_left rest.entry))))) }
    ensures none { IfNone result (IsSerialNumbered (read_serial (words_left rest.entry))
        × IsShort (n2 (words_left rest.entry)) → ⊥) }
{
    let by = serial(rest)?;
    let (_, rest) = word(rest);
    let (_, rest) = word(rest);
    let (birth, rest) = word(rest);
    let (key, rest) = word(rest);
    Some(Named {
        by,
        birth: number_16(birth)?,
        key,
        rest,
    })
}

/// An object, from the words behind the first of its line. None: its numbers don't have the ranges of
/// their types. Want of memory alone is an error.
pub fn item(alloc: Global, rest: Option<&[u8]>) -> Result<Option<Object>, Memory>
    ensures { IfOk result (λ found. IsReadAs found (read_item [] (words_left rest.entry))
        (IsObjectNumbered (read_item [] (words_left rest.entry)))) }
{
    let Some(named) = read_named(rest) else {
        return Ok(None);
    };
    let (value, rest) = word(named.rest);
    let (marked, rest) = word(rest);
    let (pinned, _) = word(rest);
    Ok(Some(Object {
        serial: named.by,
        key: Text::of(alloc, named.key)?,
        value: Text::of(alloc, behind_first(value))?,
        birth: named.birth,
        marked: marked == b"marked".as_slice(),
        pinned: pinned == b"pinned".as_slice(),
    }))
}

// An entry that puts an object on a list.
#[tactic(auto, unfolding(shr_report::specs::ReadLines::read_entry))]
fn add(alloc: Global, rest: Option<&[u8]>) -> Result<Option<Entry>, Memory>
    ensures { IfOk result (λ found. IsReadAs found (read_entry (codes "add")
        (words_left rest.entry)) (IsEntryNumbered (read_entry (codes "add")
        (words_left rest.entry)))) }
{
    let Some(named) = read_named(rest) else {
        return Ok(None);
    };
    let (value, rest) = word(named.rest);
    let (added, _) = word(rest);
    Ok(Some(Entry::Add {
        by: named.by,
        birth: named.birth,
        added: added == b"added".as_slice(),
        key: Text::of(alloc, named.key)?,
        value: Text::of(alloc, behind_first(value))?,
    }))
}

// An entry that looks an object up.
#[tactic(auto, unfolding(shr_report::specs::ReadLines::read_entry))]
fn look(alloc: Global, rest: Option<&[u8]>) -> Result<Option<Entry>, Memory>
    ensures { IfOk result (λ found. IsReadAs found (read_entry (codes "look")
        (words_left rest.entry)) (IsEntryNumbered (read_entry (codes "look")
        (words_left rest.entry)))) }
{
    let Some(named) = read_named(rest) else {
        return Ok(None);
    };
    let (hit, _) = word(named.rest);
    Ok(Some(Entry::Look {
        by: named.by,
        birth: named.birth,
        key: Text::of(alloc, named.key)?,
        hit: hit == b"hit".as_slice(),
    }))
}

// An entry that drops an object.
#[tactic(auto, unfolding(shr_report::specs::ReadLines::read_entry))]
fn drop(alloc: Global, rest: Option<&[u8]>) -> Result<Option<Entry>, Memory>
    ensures { IfOk result (λ found. IsReadAs found (read_entry (codes "drop")
        (words_left rest.entry)) (IsEntryNumbered (read_entry (codes "drop")
        (words_left rest.entry)))) }
{
    let Some(named) = read_named(rest) else {
        return Ok(None);
    };
    let (what, _) = word(named.rest);
    Ok(Some(Entry::Drop {
        by: named.by,
        birth: named.birth,
        key: Text::of(alloc, named.key)?,
        kind: kind(what),
    }))
}

// An entry that pins an object, or looses it.
#[tactic(auto, unfolding(shr_report::specs::ReadLines::read_entry))]
fn pin(alloc: Global, pinned: bool, rest: Option<&[u8]>) -> Result<Option<Entry>, Memory>
    ensures { let first = if pinned then codes "pin" else codes "unpin" in
        IfOk result (λ found. IsReadAs found (read_entry first (words_left rest.entry))
        (IsEntryNumbered (read_entry first (words_left rest.entry)))) }
{
    let Some(named) = read_named(rest) else {
        return Ok(None);
    };
    let (hit, _) = word(named.rest);
    Ok(Some(Entry::Pin {
        by: named.by,
        birth: named.birth,
        key: Text::of(alloc, named.key)?,
        pinned,
        hit: hit == b"done".as_slice(),
    }))
}

// An entry of a scan.
#[tactic(auto, unfolding(shr_report::specs::ReadLines::read_entry))]
fn scan(rest: Option<&[u8]>) -> Option<Entry>
    ensures { IsReadAs result (read_entry (codes "scan") (words_left rest.entry)) (IsEntryNumbered
        (read_entry (codes "scan") (words_left rest.entry))) }
{
    let (worker, rest) = word(rest);
    let (walk, rest) = word(rest);
    let (asked, rest) = word(rest);
    let (how, rest) = word(rest);
    let (visits, rest) = word(rest);
    let (freed, rest) = word(rest);
    let (stopped, _) = word(rest);
    Some(Entry::Scan {
        worker: number_16(worker)?,
        walk: number(walk)?,
        asked: number_32(asked)?,
        policy: policy(how),
        visits: number_32(visits)?,
        freed: number_32(freed)?,
        stopped: stopped == b"stopped".as_slice(),
    })
}

// An entry that moves a child's list in.
#[tactic(auto, unfolding(shr_report::specs::ReadLines::read_entry))]
fn moved(rest: Option<&[u8]>) -> Option<Entry>
    ensures { IsReadAs result (read_entry (codes "moved") (words_left rest.entry))
        (IsEntryNumbered (read_entry (codes "moved") (words_left rest.entry))) }
{
    let (child, rest) = word(rest);
    let (objects, _) = word(rest);
    Some(Entry::MovedIn {
        child: number_16(child)?,
        objects: number_32(objects)?,
    })
}

// An entry of an unregistering.
#[tactic(auto, unfolding(shr_report::specs::ReadLines::read_entry))]
fn drained(rest: Option<&[u8]>) -> Option<Entry>
    ensures { IsReadAs result (read_entry (codes "drained") (words_left rest.entry))
        (IsEntryNumbered (read_entry (codes "drained") (words_left rest.entry))) }
{
    let by = serial(rest)?;
    let (_, rest) = word(rest);
    let (_, rest) = word(rest);
    let (objects, _) = word(rest);
    Some(Entry::Drained {
        by,
        objects: number_32(objects)?,
    })
}

/// An entry of a list's journal, from the first word of its line and those behind it. None: its
/// numbers don't have the ranges of their types. Want of memory alone is an error.
#[tactic(auto, unfolding(shr_report::specs::ReadLines::read_entry))]
pub fn entry(alloc: Global, first: &[u8], rest: Option<&[u8]>) -> Result<Option<Entry>, Memory>
    ensures { IfOk result (λ found. IsReadAs found (read_entry first.now (words_left rest.entry))
        (IsEntryNumbered (read_entry first.now (words_left rest.entry)))) }
{
    if first == b"add".as_slice() {
        return add(alloc, rest);
    }
    if first == b"look".as_slice() {
        return look(alloc, rest);
    }
    if first == b"drop".as_slice() {
        return drop(alloc, rest);
    }
    if first == b"pin".as_slice() {
        return pin(alloc, true, rest);
    }
    if first == b"unpin".as_slice() {
        return pin(alloc, false, rest);
    }
    if first == b"scan".as_slice() {
        return Ok(scan(rest));
    }
    if first == b"moved".as_slice() {
        return Ok(moved(rest));
    }
    if first == b"drained".as_slice() {
        return Ok(drained(rest));
    }
    Ok(Some(Entry::Closed))
}
