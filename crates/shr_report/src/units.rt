// SPDX-License-Identifier: GPL-2.0-only
//! The lines of the pools of units at the end of a run.

ghost use Rattle.std.specs.Prelude.{◌≡◌, ◌≤◌, [], ◌∷◌, codes, drop, flat_map};
ghost use Rattle.shr_outside.specs.Paper.{Prints};
ghost use Rattle.std.specs.List.{AllByRecursion};
ghost use Rattle.shr_laws.specs.Lines.{line, numeral};
ghost use Rattle.shr_laws.specs.Numbers.{IsPlainEntryNumbered, AreUnitsNumbered};
ghost use Rattle.shr_laws.specs.Text.{plain_entry_line, units_lines, pool_deferred_line};

use crate::lines::Word::Number;
use crate::lines::put_line;
use crate::piece::Piece;
use shr_base::ends::{PlaceAmount, UnitsEnd};
use shr_base::journals::PlainEntry;
use shr_base::places::Place;
use shr_outside::outside::Sink;
use shr_outside::paper::Paper;

// The line of an entry of a pool's journal.
fn add_entry(piece: &mut Piece, entry: &PlainEntry) -> usize
    ensures text { drop result piece.new ≡ plain_entry_line entry.now }
    ensures start { result ≤ 512 }
    ensures numbers { IsPlainEntryNumbered entry.now }
{
    let end = piece.line_end();
    match *entry {
        PlainEntry::Release { by, units } => {
            let start = piece.number(end, units as u64);
            let start = piece.number(start, by.command as u64);
            let start = piece.number(start, by.worker as u64);
            piece.exactly(start, b"release")
        }
        PlainEntry::Grab { by, got } => {
            let start = piece.either(end, got, b"got", b"bare");
            let start = piece.number(start, by.command as u64);
            let start = piece.number(start, by.worker as u64);
            piece.exactly(start, b"grab")
        }
        PlainEntry::Reclaim {
            worker,
            walk,
            asked,
            freed,
        } => {
            let start = piece.number(end, freed as u64);
            let start = piece.number(start, asked as u64);
            let start = piece.number(start, walk as u64);
            let start = piece.number(start, worker as u64);
            piece.exactly(start, b"reclaim")
        }
    }
}

fn entries<K: Sink>(out: &mut Paper<K>, entries: &[PlainEntry])
    ensures printed { Prints K.written K.faults out.old out.new
        (flat_map plain_entry_line entries.now) }
    ensures numbers { AllByRecursion IsPlainEntryNumbered entries.now }
{
    let mut piece = Piece::new();
    for entry in entries {
        let start = add_entry(&mut piece, entry);
        piece.put(start, out);
    }
}

// A pool on a node: its free units, and its journal.
fn pool_end<K: Sink>(out: &mut Paper<K>, end: &UnitsEnd)
    ensures printed { Prints K.written K.faults out.old out.new (units_lines end.now) }
    ensures numbers { AreUnitsNumbered end.now }
{
    put_line(
        out,
        b"units",
        &[
            Number(end.pool as u64),
            Number(end.node as u64),
            Number(end.free as u64),
        ],
    );
    entries(out, end.entries.as_slice())
}

/// The pools' journals.
pub fn pool_ends<K: Sink>(out: &mut Paper<K>, ends: &[UnitsEnd])
    ensures printed { Prints K.written K.faults out.old out.new (flat_map units_lines ends.now) }
    ensures numbers { AllByRecursion AreUnitsNumbered ends.now }
{
    for end in ends {
        pool_end(out, end);
    }
}

// The line of a pool's deferred word.
fn pool_word<K: Sink>(out: &mut Paper<K>, place: Place, amount: u64)
    ensures { Prints K.written K.faults out.old out.new
        (line (codes "pooldeferred") (numeral place.id ∷ numeral place.node ∷ numeral amount
        ∷ [])) }
{
    put_line(
        out,
        b"pooldeferred",
        &[
            Number(place.id as u64),
            Number(place.node as u64),
            Number(amount),
        ],
    )
}

/// The pools' deferred words.
pub fn pool_words<K: Sink>(out: &mut Paper<K>, words: &[PlaceAmount])
    ensures { Prints K.written K.faults out.old out.new (flat_map pool_deferred_line words.now) }
{
    for word in words {
        pool_word(out, word.place, word.amount);
    }
}
