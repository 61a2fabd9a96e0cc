// SPDX-License-Identifier: GPL-2.0-only
//! What stands between the lists and the operations of a report.

ghost use Rattle.std.specs.Prelude.{◌≡◌, ◌≤◌, ◌++◌, ◌∷◌, [], drop, flat_map};
ghost use Rattle.shr_outside.specs.Paper.{Prints};
ghost use Rattle.std.specs.List.{AllByRecursion};
ghost use Rattle.shr_report.specs.Body.{between_lines, IsBetweenNumbered};
ghost use Rattle.shr_laws.specs.Lines.{spaced};
ghost use Rattle.shr_laws.specs.Numbers.{IsMapNumbered};
ghost use Rattle.shr_laws.specs.Text.{bits_words, bit_line, deferred_line};

use crate::lines::put_amount;
use crate::piece::Piece;
use crate::units::{pool_ends, pool_words};
use shr_base::ends::{MapEnd, PlaceAmount};
use shr_laws::report::Report;
use shr_outside::outside::Sink;
use shr_outside::paper::Paper;

// The last words of a bit word's line: version 1 has no unit.
#[inline(always)]
fn end_with_bits(piece: &mut Piece, version: u8, map: &MapEnd) -> usize
    ensures text { drop result piece.new ≡ spaced (bits_words version map.now) ++ 10 ∷ [] }
    ensures start { (450 ≤ result) × (result ≤ 512) }
{
    let start = piece.line_end();
    let start = piece.hex(start, map.bits);
    if version == 1 {
        start
    } else {
        piece.number(start, map.unit as u64)
    }
}

// The line of a bit word.
fn bit<K: Sink>(out: &mut Paper<K>, piece: &mut Piece, version: u8, map: &MapEnd)
    ensures printed { Prints K.written K.faults out.old out.new (bit_line version map.now) }
    ensures numbers { IsMapNumbered map.now }
{
    // What is read is known to be in its range; the line of version 1 has no unit.
    let _unit = map.unit;
    let _bits = map.bits;
    let start = end_with_bits(piece, version, map);
    let start = piece.number(start, map.group as u64);
    let start = piece.number(start, map.node as u64);
    let start = piece.exactly(start, b"bit");
    piece.put(start, out)
}

fn bits<K: Sink>(out: &mut Paper<K>, version: u8, maps: &[MapEnd])
    ensures printed { Prints K.written K.faults out.old out.new
        (flat_map (bit_line version) maps.now) }
    ensures numbers { AllByRecursion IsMapNumbered maps.now }
{
    let mut piece = Piece::new();
    for map in maps {
        bit(out, &mut piece, version, map);
    }
}

fn deferred<K: Sink>(out: &mut Paper<K>, words: &[PlaceAmount])
    ensures { Prints K.written K.faults out.old out.new (flat_map deferred_line words.now) }
{
    for word in words {
        put_amount(out, b"deferred", word.place, word.amount);
    }
}

/// The pools' ends, the bit words, the deferred words and those of the pools.
pub fn put_between<K: Sink>(out: &mut Paper<K>, report: &Report)
    ensures printed { Prints K.written K.faults out.old out.new (between_lines report.now) }
    ensures numbers { IsBetweenNumbered report.now }
{
    pool_ends(out, report.units.as_slice());
    bits(out, report.version, report.maps.as_slice());
    deferred(out, report.deferred.as_slice());
    pool_words(out, report.pool_deferred.as_slice())
}
