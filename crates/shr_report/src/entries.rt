// SPDX-License-Identifier: GPL-2.0-only
//! The lines of a list: its entries and its items.

ghost use Rattle.std.specs.Prelude.{◌≡◌, ◌≤◌, ◌+◌, ◌++◌, ◌∷◌, [], codes, drop, flat_map, length};
ghost use Rattle.shr_outside.specs.Paper.{Prints};
ghost use Rattle.shr_laws.specs.Lines.{line, numeral, spaced};
ghost use Rattle.std.specs.List.{AllByRecursion};
ghost use Rattle.shr_base.specs.declared.journals.Entry.TheVariants.{Add};
ghost use Rattle.shr_laws.specs.Numbers.{IsSerialNumbered, IsObjectNumbered, IsEntryNumbered, IsListNumbered};
ghost use Rattle.shr_report.specs.Variants.{IsTenants, IsOfNoTenant};
ghost use Rattle.shr_laws.specs.WellFormed.{IsNumbered};
ghost use Rattle.shr_laws.specs.AnswerText.{choice, place_words};
ghost use Rattle.shr_laws.specs.Text.{policy_word, kind_word, item_line, entry_line, place_lines};

use crate::counters::add_place;
use crate::lines::{add_text, add_value, end_with};
use crate::piece::Piece;
use shr_base::ends::PlaceEnd;
use shr_base::items::Items;
use shr_base::journals::{DropKind, Entry};
use shr_base::objects::{Object, Policy};
use shr_base::places::{Place, Serial};
use shr_base::text::Text;
use shr_outside::outside::Sink;
use shr_outside::paper::Paper;

// One word where the test holds, the other where it doesn't.
fn chosen<'a>(test: bool, yes: &'a [u8], no: &'a [u8]) -> &'a [u8]
    ensures { result.now ≡ choice test yes.now no.now }
{
    if test { yes } else { no }
}

fn kind_of(kind: DropKind) -> &'static [u8]
    ensures { result.now ≡ kind_word kind }
{
    match kind {
        DropKind::Dropped => b"dropped",
        DropKind::Pinned => b"pinned",
        DropKind::Miss => b"miss",
    }
}

// The most bytes of the texts of a line that is printed as one piece.
const SHORT: usize = 400;

// Whose an object is, the group that it was born in, and its key.
#[derive(Clone, Copy)]
struct Named<'a> {
    by: Serial,
    birth: u16,
    key: &'a [u8],
}

fn named_by(by: Serial, birth: u16, key: &Text) -> Named
    ensures by { result.by ≡ by }
    ensures birth { result.birth ≡ birth }
    ensures key { result.key.now ≡ key.now }
{
    Named {
        by,
        birth,
        key: key.bytes(),
    }
}

// A command and a birth group.
#[inline(always)]
fn add_name(piece: &mut Piece, end: usize, by: Serial, birth: u16) -> usize
    requires { (63 ≤ end) × (end ≤ 512) }
    ensures text { drop result piece.new ≡ spaced (numeral by.worker ∷ numeral by.command
        ∷ numeral birth ∷ []) ++ drop end piece.old }
    ensures start { (end ≤ result + 63) × (result ≤ end) }
    ensures numbers { IsSerialNumbered by }
{
    let start = piece.number(end, birth as u64);
    let start = piece.number(start, by.command as u64);
    piece.number(start, by.worker as u64)
}

// A command, a birth group and a key.
fn put_name<K: Sink>(out: &mut Paper<K>, named: Named)
    ensures printed { Prints K.written K.faults out.old out.new
        (spaced (numeral named.entry.by.worker ∷ numeral named.entry.by.command
        ∷ numeral named.entry.birth ∷ named.entry.key.now ∷ [])) }
    ensures numbers { IsSerialNumbered named.entry.by }
{
    let mut piece = Piece::new();
    let end = piece.nothing();
    let start = add_name(&mut piece, end, named.by, named.birth);
    piece.put(start, out);
    add_text(out, named.key)
}

// The line of a key and a value of any length, before the rest of it. It is apart, so that no piece is made for it
// where it isn't called.
#[inline(never)]
fn put_long<K: Sink>(out: &mut Paper<K>, first: &[u8], named: Named, value: &[u8])
    ensures printed { Prints K.written K.faults out.old out.new
        (first.now ++ spaced (numeral named.entry.by.worker ∷ numeral named.entry.by.command
        ∷ numeral named.entry.birth ∷ named.entry.key.now
        ∷ (61 ∷ value.now) ∷ [])) }
    ensures numbers { IsSerialNumbered named.entry.by }
{
    out.put(first);
    put_name(out, named);
    add_value(out, value)
}

// The line of a key and a value, before the rest of it, which stands in the piece from an index on.
#[inline(always)]
fn put_object<K: Sink>(
    out: &mut Paper<K>,
    piece: &mut Piece,
    rest: usize,
    first: &[u8],
    named: Named,
    value: &[u8],
)
    requires short { length first.now ≤ 8 }
    requires room { (480 ≤ rest) × (rest ≤ 512) }
    ensures printed { Prints K.written K.faults out.old out.new
        (first.now ++ (spaced (numeral named.entry.by.worker ∷ numeral named.entry.by.command
        ∷ numeral named.entry.birth ∷ named.entry.key.now
        ∷ (61 ∷ value.now) ∷ []) ++ drop rest piece.old)) }
    ensures numbers { IsSerialNumbered named.entry.by }
{
    if named.key.len() + value.len() <= SHORT {
        let start = piece.value(rest, value);
        let start = piece.text(start, named.key);
        let start = add_name(piece, start, named.by, named.birth);
        let start = piece.exactly(start, first);
        piece.put(start, out)
    } else {
        put_long(out, first, named, value);
        piece.put(rest, out)
    }
}

// The rest of an object's line: its mark and its pin.
#[inline(always)]
fn flags(piece: &mut Piece, o: &Object) -> usize
    ensures text { let o = o.now in drop result piece.new ≡ spaced (
        choice o.marked (codes "marked") (codes "clean")
        ∷ choice o.pinned (codes "pinned") (codes "loose") ∷ []) ++ 10 ∷ [] }
    ensures start { (496 ≤ result) × (result ≤ 512) }
{
    let end = piece.nothing();
    match (o.marked, o.pinned) {
        (true, true) => piece.exactly(end, b" marked pinned\n"),
        (true, false) => piece.exactly(end, b" marked loose\n"),
        (false, true) => piece.exactly(end, b" clean pinned\n"),
        (false, false) => piece.exactly(end, b" clean loose\n"),
    }
}

fn item<K: Sink>(out: &mut Paper<K>, piece: &mut Piece, o: &Object)
    ensures printed { Prints K.written K.faults out.old out.new (item_line o.now) }
    ensures numbers { IsObjectNumbered o.now }
{
    let rest = flags(piece, o);
    let named = named_by(o.serial, o.birth, &o.key);
    put_object(out, piece, rest, b"item", named, o.value.bytes())
}

// The line of what a tenant did with a key of any length, and what came of it, likewise apart.
#[inline(never)]
fn put_long_act<K: Sink>(out: &mut Paper<K>, first: &[u8], named: Named, outcome: &[u8])
    ensures printed { Prints K.written K.faults out.old out.new
        (line first.now (numeral named.entry.by.worker ∷ numeral named.entry.by.command
        ∷ numeral named.entry.birth ∷ named.entry.key.now
        ∷ outcome.now ∷ [])) }
    ensures numbers { IsSerialNumbered named.entry.by }
{
    out.put(first);
    put_name(out, named);
    end_with(out, outcome)
}

// The line of what a tenant did with a key, and what came of it: one piece where the words are short.
fn put_act<K: Sink>(
    out: &mut Paper<K>,
    piece: &mut Piece,
    first: &[u8],
    named: Named,
    outcome: &[u8],
)
    ensures printed { Prints K.written K.faults out.old out.new
        (line first.now (numeral named.entry.by.worker ∷ numeral named.entry.by.command
        ∷ numeral named.entry.birth ∷ named.entry.key.now
        ∷ outcome.now ∷ [])) }
    ensures numbers { IsSerialNumbered named.entry.by }
{
    if first.len() <= 8 && outcome.len() <= 8 && named.key.len() <= SHORT {
        let start = piece.line_end();
        let start = piece.text(start, outcome);
        let start = piece.text(start, named.key);
        let start = add_name(piece, start, named.by, named.birth);
        let start = piece.copied(start, first);
        piece.put(start, out)
    } else {
        put_long_act(out, first, named, outcome)
    }
}

// The line of an object that was offered, and what came of it.
fn put_offer<K: Sink>(
    out: &mut Paper<K>,
    piece: &mut Piece,
    named: Named,
    value: &[u8],
    added: bool,
)
    ensures printed { Prints K.written K.faults out.old out.new
        (entry_line (Add named.entry.by named.entry.birth added named.entry.key.now
        value.now)) }
    ensures numbers { IsSerialNumbered named.entry.by }
{
    let end = piece.nothing();
    let rest = if added {
        piece.exactly(end, b" added\n")
    } else {
        piece.exactly(end, b" exists\n")
    };
    put_object(out, piece, rest, b"add", named, value)
}

// An entry that a tenant's call made.
fn put_tenants<K: Sink>(out: &mut Paper<K>, piece: &mut Piece, e: &Entry)
    requires { IsTenants e.now }
    ensures printed { Prints K.written K.faults out.old out.new (entry_line e.now) }
    ensures numbers { IsEntryNumbered e.now }
{
    match e {
        Entry::Add {
            by,
            birth,
            key,
            value,
            added,
        } => {
            let named = named_by(*by, *birth, key);
            put_offer(out, piece, named, value.bytes(), *added)
        }
        Entry::Look {
            by,
            birth,
            key,
            hit,
        } => {
            let outcome = chosen(*hit, b"hit", b"miss");
            put_act(out, piece, b"look", named_by(*by, *birth, key), outcome)
        }
        Entry::Drop {
            by,
            birth,
            key,
            kind,
        } => {
            let outcome = kind_of(*kind);
            put_act(out, piece, b"drop", named_by(*by, *birth, key), outcome)
        }
        Entry::Pin {
            by,
            birth,
            key,
            pinned,
            hit,
        } => {
            let first = chosen(*pinned, b"pin", b"unpin");
            let outcome = chosen(*hit, b"done", b"miss");
            put_act(out, piece, first, named_by(*by, *birth, key), outcome)
        }
        _ => unreachable!(),
    }
}

// A space and the policy of a scan.
#[inline(always)]
fn add_policy(piece: &mut Piece, end: usize, policy: Policy) -> usize
    requires { (6 ≤ end) × (end ≤ 512) }
    ensures text { drop result piece.new ≡ 32 ∷ (policy_word policy ++ drop end piece.old) }
    ensures start { (end ≤ result + 6) × (result ≤ end) }
{
    match policy {
        Policy::Plain => piece.word(end, b"plain"),
        Policy::Clock => piece.word(end, b"clock"),
        Policy::Halt => piece.word(end, b"halt"),
    }
}

// An entry that no tenant's call made.
fn add_other(piece: &mut Piece, e: &Entry) -> usize
    requires { IsOfNoTenant e.now }
    ensures text { drop result piece.new ≡ entry_line e.now }
    ensures start { result ≤ 512 }
    ensures numbers { IsEntryNumbered e.now }
{
    let end = piece.line_end();
    match e {
        Entry::Scan {
            worker,
            walk,
            asked,
            policy,
            visits,
            freed,
            stopped,
        } => {
            let start = piece.either(end, *stopped, b"stopped", b"whole");
            let start = piece.number(start, *freed as u64);
            let start = piece.number(start, *visits as u64);
            let start = add_policy(piece, start, *policy);
            let start = piece.number(start, *asked as u64);
            let start = piece.number(start, *walk);
            let start = piece.number(start, *worker as u64);
            piece.exactly(start, b"scan")
        }
        Entry::MovedIn { child, objects } => {
            let start = piece.number(end, *objects as u64);
            let start = piece.number(start, *child as u64);
            piece.exactly(start, b"moved")
        }
        Entry::Closed => piece.exactly(end, b"closed"),
        Entry::Drained { by, objects } => {
            let start = piece.number(end, *objects as u64);
            let start = piece.number(start, by.command as u64);
            let start = piece.number(start, by.worker as u64);
            piece.exactly(start, b"drained")
        }
        _ => unreachable!(),
    }
}

fn entry<K: Sink>(out: &mut Paper<K>, piece: &mut Piece, e: &Entry)
    ensures printed { Prints K.written K.faults out.old out.new (entry_line e.now) }
    ensures numbers { IsEntryNumbered e.now }
{
    match e {
        Entry::Add { .. } | Entry::Look { .. } | Entry::Drop { .. } | Entry::Pin { .. } =>
            put_tenants(out, piece, e),
        Entry::Scan { .. } | Entry::MovedIn { .. } | Entry::Closed | Entry::Drained { .. } => {
            let start = add_other(piece, e);
            piece.put(start, out)
        }
    }
}

// The line of a list's place.
#[inline(always)]
fn put_list<K: Sink>(out: &mut Paper<K>, piece: &mut Piece, place: Place)
    ensures printed { Prints K.written K.faults out.old out.new
        (line (codes "list") (place_words place)) }
    ensures numbers { IsNumbered place }
{
    let end = piece.line_end();
    let start = add_place(piece, end, place);
    let start = piece.exactly(start, b"list");
    piece.put(start, out)
}

fn entries<K: Sink>(out: &mut Paper<K>, piece: &mut Piece, entries: &[Entry])
    ensures printed { Prints K.written K.faults out.old out.new (flat_map entry_line entries.now) }
    ensures numbers { AllByRecursion IsEntryNumbered entries.now }
{
    for e in entries {
        entry(out, piece, e);
    }
}

fn items<K: Sink>(out: &mut Paper<K>, piece: &mut Piece, items: &Items)
    ensures printed { Prints K.written K.faults out.old out.new
        (flat_map item_line items.now.items) }
    ensures numbers { AllByRecursion IsObjectNumbered items.now.items }
{
    let mut walk = items.walk();
    while let Some(o) = walk.next() {
        item(out, piece, o);
    }
}

/// A list: its place, its journal, and its items from the head.
pub fn place<K: Sink>(out: &mut Paper<K>, piece: &mut Piece, end: &PlaceEnd)
    ensures printed { Prints K.written K.faults out.old out.new (place_lines end.now) }
    ensures numbers { IsListNumbered end.now }
{
    put_list(out, piece, end.place);
    entries(out, piece, end.entries.as_slice());
    items(out, piece, &end.items)
}
