// SPDX-License-Identifier: GPL-2.0-only
//! The lines of a walk of the pools, and of an isolation.

ghost use Rattle.std.specs.Prelude.{◌≡◌, ◌<◌, ◌≤◌, ◌+◌, ◌^◌, ◌++◌, ◌∷◌, codes, drop};
ghost use Rattle.shr_outside.specs.Paper.{Prints};
ghost use Rattle.std.specs.List.{AllByRecursion};
ghost use Rattle.shr_laws.specs.Lines.{line, spaced, numbered, numeral};
ghost use Rattle.shr_laws.specs.Numbers.{IsTryNumbered, IsPlainAnswerNumbered, IsPlainNumbered, IsIsolationNumbered};
ghost use Rattle.shr_laws.specs.WalkText.{plain_walked_words, plain_try_words, pass_line, plain_lines, isolation_line};

use crate::counters::add_place;
use crate::piece::Piece;
use crate::unplaced::add_isolate_end;
use crate::walks::add_ran;
use shr_base::walks::{Isolation, PlainAnswer, PlainTry, PlainWalk};
use shr_outside::outside::Sink;
use shr_outside::paper::Paper;

// What a walk of the pools came to at one pool.
fn add_try(piece: &mut Piece, end: usize, tried: &PlainTry) -> usize
    requires { (287 ≤ end) × (end ≤ 512) }
    ensures text { drop result piece.new
        ≡ spaced (plain_try_words tried.now) ++ drop end piece.old }
    ensures start { (end ≤ result + 287) × (result ≤ end) }
    ensures numbers { IsTryNumbered tried.now }
{
    match tried {
        PlainTry::Empty { version } => {
            let start = piece.number(end, *version as u64);
            piece.word(start, b"empty")
        }
        PlainTry::Skip { len, version } => {
            let start = piece.number(end, *version as u64);
            let start = piece.number(start, *len as u64);
            piece.word(start, b"skip")
        }
        PlainTry::Ran { pass } => add_ran(piece, end, pass),
    }
}

// The line of what a walk of the pools came to at the pool with this number.
fn put_try<K: Sink>(out: &mut Paper<K>, piece: &mut Piece, pool: usize, tried: &PlainTry)
    ensures printed { Prints K.written K.faults out.old out.new (pass_line pool tried.now) }
    ensures numbers { IsTryNumbered tried.now }
{
    let start = piece.line_end();
    let start = add_try(piece, start, tried);
    let start = piece.number(start, pool as u64);
    let start = piece.exactly(start, b"pass");
    piece.put(start, out)
}

// The tries of a walk of the pools, by the numbers of their pools.
fn tries<K: Sink>(out: &mut Paper<K>, piece: &mut Piece, tries: &[PlainTry])
    ensures printed { Prints K.written K.faults out.old out.new (numbered pass_line 0 tries.now) }
    ensures numbers { AllByRecursion IsTryNumbered tries.now }
{
    for (pool, tried) in tries.iter().enumerate() {
        put_try(out, piece, pool, tried);
    }
}

// What a walk of the pools was answered.
fn add_answer(piece: &mut Piece, end: usize, answer: &PlainAnswer) -> usize
    requires { (29 ≤ end) × (end ≤ 512) }
    ensures text { drop result piece.new
        ≡ spaced (plain_walked_words answer.now) ++ drop end piece.old }
    ensures start { (end ≤ result + 29) × (result ≤ end) }
    ensures numbers { IsPlainAnswerNumbered answer.now }
{
    match answer {
        PlainAnswer::Walked { freed } => {
            let start = piece.number(end, *freed);
            piece.word(start, b"ran")
        }
        PlainAnswer::Memory { freed } => {
            let start = piece.number(end, *freed);
            piece.word(start, b"memory")
        }
    }
}

// The line of a walk of the pools itself.
fn put_plain<K: Sink>(out: &mut Paper<K>, piece: &mut Piece, number: usize, walk: &PlainWalk)
    ensures printed { let walk = walk.now in Prints K.written K.faults out.old out.new
        (line (codes "plain") (numeral number ∷ numeral walk.node ∷ numeral walk.priority
        ∷ plain_walked_words walk.answer)) }
    ensures node { walk.now.node < 2 ^ 8 }
    ensures priority { walk.now.priority < 2 ^ 8 }
    ensures answer { IsPlainAnswerNumbered walk.now.answer }
{
    let start = piece.line_end();
    let start = add_answer(piece, start, &walk.answer);
    let start = piece.number(start, walk.priority as u64);
    let start = piece.number(start, walk.node as u64);
    let start = piece.number(start, number as u64);
    let start = piece.exactly(start, b"plain");
    piece.put(start, out)
}

/// A walk of the pools, by its number within its worker.
pub fn plain_walk<K: Sink>(out: &mut Paper<K>, piece: &mut Piece, number: usize, walk: &PlainWalk)
    ensures printed { Prints K.written K.faults out.old out.new (plain_lines number walk.now) }
    ensures numbers { IsPlainNumbered walk.now }
{
    // Its line has no such word: what is read is known to be in its range.
    let _worker = walk.by.worker;
    let _command = walk.by.command;
    put_plain(out, piece, number, walk);
    tries(out, piece, walk.tries.as_slice())
}

/// An isolation.
pub fn isolation<K: Sink>(out: &mut Paper<K>, piece: &mut Piece, done: &Isolation)
    ensures printed { Prints K.written K.faults out.old out.new (isolation_line done.now) }
    ensures numbers { IsIsolationNumbered done.now }
{
    // Its line has no such word: what is read is known to be in its range.
    let _worker = done.by.worker;
    let _command = done.by.command;
    let start = piece.line_end();
    let start = add_isolate_end(piece, start, &done.ending);
    let start = piece.number(start, done.freed as u64);
    let start = piece.number(start, done.visits as u64);
    let start = piece.number(start, done.budget as u64);
    let start = add_place(piece, start, done.place);
    let start = piece.exactly(start, b"isolation");
    piece.put(start, out)
}
