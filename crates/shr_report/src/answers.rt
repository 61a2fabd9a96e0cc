// SPDX-License-Identifier: GPL-2.0-only
//! The lines of an answer.

ghost use Rattle.std.specs.Prelude.{◌≡◌, ◌≤◌, ◌+◌, ◌++◌, ◌∷◌, [], codes, drop, length};
ghost use Rattle.shr_outside.specs.Paper.{Prints};
ghost use Rattle.shr_laws.specs.Lines.{line, spaced, numeral};
ghost use Rattle.shr_laws.specs.Numbers.{IsAtNumbered, IsReplyNumbered, IsFindNumbered, IsAnsweredNumbered};
ghost use Rattle.shr_laws.specs.AnswerText.{at_words, reply_line, found_lines};

use crate::counters::add_place;
use crate::lines::Word::{Number, Text, Value};
use crate::lines::put_line;
use crate::piece::Piece;
use crate::unplaced::add_answer;
use shr_base::places::At;
use shr_base::replies::{Answered, Found, Reply};
use shr_outside::outside::Sink;
use shr_outside::paper::Paper;

// Whose an answer is: this worker's, to its command with this number.
#[derive(Clone, Copy)]
struct Whose {
    worker: usize,
    command: usize,
}

// Puts the words that a reply begins with before its piece, and the piece on the paper. It is one
// function for all replies, as `add_at` is.
#[inline(never)]
fn put_front<K: Sink>(out: &mut Paper<K>, piece: &mut Piece, end: usize, whose: Whose)
    requires { (47 ≤ end) × (end ≤ 512) }
    ensures { Prints K.written K.faults out.old out.new
        (codes "reply" ++ (spaced (numeral whose.worker ∷ numeral whose.command ∷ [])
        ++ drop end piece.old)) }
{
    let start = piece.number(end, whose.command as u64);
    let start = piece.number(start, whose.worker as u64);
    let start = piece.exactly(start, b"reply");
    piece.put(start, out)
}

// An entry of a place. It is one function for all words of an answer, each of which has code of its own.
#[inline(never)]
fn add_at(piece: &mut Piece, end: usize, at: &At) -> usize
    requires { (84 ≤ end) × (end ≤ 512) }
    ensures text { drop result piece.new ≡ spaced (at_words at.now) ++ drop end piece.old }
    ensures start { (end ≤ result + 84) × (result ≤ end) }
    ensures numbers { IsAtNumbered at.now }
{
    let start = piece.number(end, at.entry as u64);
    add_place(piece, start, at.place)
}

// A reply of this word and a place's entry, and what stands behind it.
#[inline(always)]
fn put_placed<K: Sink>(
    out: &mut Paper<K>,
    piece: &mut Piece,
    rest: usize,
    whose: Whose,
    answer: &[u8],
    at: &At,
)
    requires word { length answer.now ≤ 8 }
    requires room { (141 ≤ rest) × (rest ≤ 512) }
    ensures printed { Prints K.written K.faults out.old out.new
        (line (codes "reply") (numeral whose.worker ∷ numeral whose.command ∷ answer.now
        ∷ at_words at.now) ++ drop rest piece.old) }
    ensures numbers { IsAtNumbered at.now }
{
    let start = piece.byte(rest, b'\n');
    let start = add_at(piece, start, at);
    let start = piece.word(start, answer);
    put_front(out, piece, start, whose)
}

// A reply that lends a value of any length.
#[inline(never)]
fn put_long_hit<K: Sink>(out: &mut Paper<K>, whose: Whose, at: &At, value: &[u8])
    ensures printed { let at = at.now in Prints K.written K.faults out.old out.new
        (line (codes "reply") (numeral whose.worker ∷ numeral whose.command ∷ codes "hit"
        ∷ numeral at.place.id ∷ numeral at.place.node ∷ numeral at.place.group
        ∷ numeral at.entry ∷ (61 ∷ value.now) ∷ [])) }
    ensures numbers { IsAtNumbered at.now }
{
    put_line(
        out,
        b"reply",
        &[
            Number(whose.worker as u64),
            Number(whose.command as u64),
            Text(b"hit"),
            Number(at.place.id as u64),
            Number(at.place.node as u64),
            Number(at.place.group as u64),
            Number(at.entry as u64),
            Value(value),
        ],
    )
}

// The most bytes of a value that is printed with its reply as one piece.
const SHORT: usize = 300;

// A reply that lends a value, and what stands behind it.
#[inline(never)]
fn put_hit<K: Sink>(
    out: &mut Paper<K>,
    piece: &mut Piece,
    rest: usize,
    whose: Whose,
    at: &At,
    value: &[u8],
)
    requires { (440 ≤ rest) × (rest ≤ 512) }
    ensures printed { let at = at.now in Prints K.written K.faults out.old out.new
        (line (codes "reply") (numeral whose.worker ∷ numeral whose.command ∷ codes "hit"
        ∷ numeral at.place.id ∷ numeral at.place.node ∷ numeral at.place.group
        ∷ numeral at.entry ∷ (61 ∷ value.now) ∷ []) ++ drop rest piece.old) }
    ensures numbers { IsAtNumbered at.now }
{
    if value.len() <= SHORT {
        let start = piece.byte(rest, b'\n');
        let start = piece.value(start, value);
        let start = add_at(piece, start, at);
        let start = piece.word(start, b"hit");
        put_front(out, piece, start, whose)
    } else {
        put_long_hit(out, whose, at, value);
        piece.put(rest, out)
    }
}

// The line of an answer, and what stands behind it.
fn reply<K: Sink>(out: &mut Paper<K>, piece: &mut Piece, rest: usize, whose: Whose, answer: &Reply)
    requires { (440 ≤ rest) × (rest ≤ 512) }
    ensures printed { Prints K.written K.faults out.old out.new
        (reply_line whose.worker whose.command answer.now ++ drop rest piece.old) }
    ensures numbers { IsReplyNumbered answer.now }
{
    match answer {
        Reply::Added { at } => put_placed(out, piece, rest, whose, b"added", at),
        Reply::Exists { at } => put_placed(out, piece, rest, whose, b"exists", at),
        Reply::Miss { at } => put_placed(out, piece, rest, whose, b"miss", at),
        Reply::Dropped { at } => put_placed(out, piece, rest, whose, b"dropped", at),
        Reply::Pinned { at } => put_placed(out, piece, rest, whose, b"pinned", at),
        Reply::Done { at } => put_placed(out, piece, rest, whose, b"done", at),
        Reply::Hit { at, value } => put_hit(out, piece, rest, whose, at, value.bytes()),
        _ => {
            let start = piece.byte(rest, b'\n');
            let start = add_answer(piece, start, answer);
            put_front(out, piece, start, whose)
        }
    }
}

// The line of the id that a cache was held with, where it was.
#[inline(always)]
fn found(piece: &mut Piece, found: &Option<Found>) -> usize
    ensures text { drop result piece.new ≡ found_lines found.now }
    ensures start { (440 ≤ result) × (result ≤ 512) }
    ensures numbers { IsFindNumbered found.now }
{
    match found {
        Some(f) => {
            let start = piece.line_end();
            let start = piece.number(start, f.entry as u64);
            let start = piece.number(start, f.number as u64);
            let start = piece.number(start, f.id as u64);
            piece.exactly(start, b"find")
        }
        None => piece.nothing(),
    }
}

/// The lines of an answer: the reply, and the id that the cache was held with, where it was.
pub fn put_answered<K: Sink>(
    out: &mut Paper<K>,
    piece: &mut Piece,
    worker: usize,
    command: usize,
    answered: &Answered,
)
    ensures printed { let answered = answered.now in Prints K.written K.faults out.old out.new
        (reply_line worker command answered.reply ++ found_lines answered.found) }
    ensures numbers { IsAnsweredNumbered answered.now }
{
    let rest = found(piece, &answered.found);
    reply(out, piece, rest, Whose { worker, command }, &answered.reply)
}
