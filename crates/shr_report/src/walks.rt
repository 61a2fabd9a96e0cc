// SPDX-License-Identifier: GPL-2.0-only
//! The lines of a walk.

ghost use Rattle.std.specs.Prelude.{◌≡◌, ◌<◌, ◌≤◌, ◌+◌, ◌^◌, ◌++◌, ◌∷◌, codes, drop, flat_map, length};
ghost use Rattle.shr_outside.specs.Paper.{Prints};
ghost use Rattle.shr_laws.specs.Lines.{line, spaced, numeral};
ghost use Rattle.std.specs.List.{AllByRecursion, prefix_len};
ghost use Rattle.shr_laws.specs.Numbers.{IsShort, IsEndingNumbered, IsPassNumbered, IsOutcomeNumbered, IsAttemptNumbered, IsSeenNumbered, IsWalkedNumbered, IsWalkNumbered};
ghost use Rattle.shr_report.specs.Variants.{IsPassed, IsClearing};
ghost use Rattle.shr_laws.specs.AnswerText.{choice};
ghost use Rattle.shr_laws.specs.WalkText.{ending_words, pass_words, gone_word, outcome_words, attempt_line, is_in_unit, map_line, map_lines, walked_words, walk_lines};

use crate::counters::add_spent;
use crate::piece::Piece;
use shr_base::attempts::Attempt;
use shr_base::walks::{Ending, GoneThen, MapSeen, Outcome, PassRecord, WalkAnswer, WalkRecord};
use shr_outside::outside::Sink;
use shr_outside::paper::Paper;

// How a pass ended.
#[inline(always)]
fn add_ending(piece: &mut Piece, end: usize, ending: &Ending) -> usize
    requires { (115 ≤ end) × (end ≤ 512) }
    ensures text { drop result piece.new ≡ spaced (ending_words ending.now) ++ drop end piece.old }
    ensures start { (end ≤ result + 115) × (result ≤ end) }
    ensures numbers { IsEndingNumbered ending.now }
{
    match ending {
        Ending::Through => piece.word(end, b"through"),
        Ending::Stop => piece.word(end, b"stop"),
        Ending::NoRoom => piece.word(end, b"noroom"),
        Ending::Worn { spent } => {
            let start = add_spent(piece, end, spent);
            piece.word(start, b"worn")
        }
    }
}

/// A pass. It is one function for all attempts that ran one, and for walks of the pools.
pub fn add_ran(piece: &mut Piece, end: usize, pass: &PassRecord) -> usize
    requires { (287 ≤ end) × (end ≤ 512) }
    ensures text { drop result piece.new
        ≡ spaced (codes "ran" ∷ pass_words pass.now) ++ drop end piece.old }
    ensures start { (end ≤ result + 287) × (result ≤ end) }
    ensures numbers { IsPassNumbered pass.now }
{
    let start = add_ending(piece, end, &pass.ending);
    let start = piece.number(start, pass.next);
    let start = piece.number(start, pass.freed);
    let start = piece.number(start, pass.scanned);
    let start = piece.number(start, pass.closed as u64);
    let start = piece.number(start, pass.asks as u64);
    let start = piece.number(start, pass.nr);
    let start = piece.number(start, pass.version as u64);
    let start = piece.number(start, pass.len as u64);
    piece.word(start, b"ran")
}

// What was done about the bit of an id that was gone.
#[inline(always)]
fn add_then(piece: &mut Piece, end: usize, then: GoneThen) -> usize
    requires { (6 ≤ end) × (end ≤ 512) }
    ensures text { drop result piece.new ≡ 32 ∷ (gone_word then ++ drop end piece.old) }
    ensures start { (end ≤ result + 6) × (result ≤ end) }
{
    match then {
        GoneThen::Set => piece.word(end, b"set"),
        GoneThen::Clear => piece.word(end, b"clear"),
        GoneThen::Root => piece.word(end, b"root"),
    }
}

// What an attempt that ran a pass came to.
fn add_passed(piece: &mut Piece, end: usize, outcome: &Outcome) -> usize
    requires outcome { IsPassed outcome.now }
    requires room { (343 ≤ end) × (end ≤ 512) }
    ensures text { drop result piece.new
        ≡ spaced (outcome_words outcome.now) ++ drop end piece.old }
    ensures start { (end ≤ result + 343) × (result ≤ end) }
    ensures numbers { IsOutcomeNumbered outcome.now }
{
    match outcome {
        Outcome::Ran { number, pass } => {
            let start = add_ran(piece, end, pass);
            let start = piece.word(start, b"held");
            piece.number(start, *number as u64)
        }
        Outcome::RestoredRan {
            number,
            first,
            pass,
        } => {
            let start = add_ran(piece, end, pass);
            let start = piece.number(start, *first as u64);
            let start = piece.word(start, b"restored");
            let start = piece.word(start, b"held");
            piece.number(start, *number as u64)
        }
        _ => unreachable!(),
    }
}

// What an attempt that cleared a bit, and ran no pass, came to.
fn add_cleared(piece: &mut Piece, end: usize, outcome: &Outcome) -> usize
    requires outcome { IsClearing outcome.now }
    requires room { (343 ≤ end) × (end ≤ 512) }
    ensures text { drop result piece.new
        ≡ spaced (outcome_words outcome.now) ++ drop end piece.old }
    ensures start { (end ≤ result + 343) × (result ≤ end) }
    ensures numbers { IsOutcomeNumbered outcome.now }
{
    match outcome {
        Outcome::Cleared {
            number,
            first,
            second,
        } => {
            let start = piece.number(end, *second as u64);
            let start = piece.number(start, *first as u64);
            let start = piece.word(start, b"cleared");
            let start = piece.word(start, b"held");
            piece.number(start, *number as u64)
        }
        Outcome::RestoredSkip {
            number,
            first,
            len,
            version,
        } => {
            let start = piece.number(end, *version as u64);
            let start = piece.number(start, *len as u64);
            let start = piece.word(start, b"skip");
            let start = piece.number(start, *first as u64);
            let start = piece.word(start, b"restored");
            let start = piece.word(start, b"held");
            piece.number(start, *number as u64)
        }
        _ => unreachable!(),
    }
}

// What an attempt came to.
fn add_outcome(piece: &mut Piece, end: usize, outcome: &Outcome) -> usize
    requires { (343 ≤ end) × (end ≤ 512) }
    ensures text { drop result piece.new
        ≡ spaced (outcome_words outcome.now) ++ drop end piece.old }
    ensures start { (end ≤ result + 343) × (result ≤ end) }
    ensures numbers { IsOutcomeNumbered outcome.now }
{
    match outcome {
        Outcome::Worn { seen } => {
            let start = piece.number(end, *seen as u64);
            piece.word(start, b"worn")
        }
        Outcome::Gone { number, then } => {
            let start = add_then(piece, end, *then);
            let start = piece.word(start, b"gone");
            piece.number(start, *number as u64)
        }
        Outcome::Skip {
            number,
            len,
            version,
        } => {
            let start = piece.number(end, *version as u64);
            let start = piece.number(start, *len as u64);
            let start = piece.word(start, b"skip");
            let start = piece.word(start, b"held");
            piece.number(start, *number as u64)
        }
        Outcome::Empty { number, version } => {
            let start = piece.number(end, *version as u64);
            let start = piece.word(start, b"empty");
            let start = piece.word(start, b"held");
            piece.number(start, *number as u64)
        }
        Outcome::Ran { .. } | Outcome::RestoredRan { .. } => add_passed(piece, end, outcome),
        Outcome::Cleared { .. } | Outcome::RestoredSkip { .. } => add_cleared(piece, end, outcome),
    }
}

fn attempt<K: Sink>(out: &mut Paper<K>, piece: &mut Piece, attempt: &Attempt)
    ensures printed { Prints K.written K.faults out.old out.new (attempt_line attempt.now) }
    ensures numbers { IsAttemptNumbered attempt.now }
{
    let start = piece.line_end();
    let start = add_outcome(piece, start, &attempt.outcome());
    let start = piece.number(start, attempt.id as u64);
    let start = piece.exactly(start, b"try");
    piece.put(start, out)
}

fn attempts<K: Sink>(out: &mut Paper<K>, piece: &mut Piece, attempts: &[Attempt])
    ensures printed { Prints K.written K.faults out.old out.new
        (flat_map attempt_line attempts.now) }
    ensures numbers { AllByRecursion IsAttemptNumbered attempts.now }
{
    for a in attempts {
        attempt(out, piece, a);
    }
}

// How many attempts at the front are at ids of a unit.
fn count_in_unit(attempts: &[Attempt], unit: u8) -> usize
    ensures count { result ≡ prefix_len (is_in_unit unit) attempts.now }
    ensures within { result ≤ length attempts.now }
{
    attempts
        .iter()
        .take_while(|a| a.id / 64 == unit as u16)
        .count()
}

// A loaded unit with its bits.
fn put_map<K: Sink>(out: &mut Paper<K>, piece: &mut Piece, map: &MapSeen)
    ensures printed { Prints K.written K.faults out.old out.new (map_line map.now) }
    ensures numbers { IsSeenNumbered map.now }
{
    let start = piece.line_end();
    let start = piece.hex(start, map.bits);
    let start = piece.number(start, map.unit as u64);
    let start = piece.exactly(start, b"map");
    piece.put(start, out)
}

// Each loaded unit with its attempts, which stand next.
fn units<K: Sink>(out: &mut Paper<K>, piece: &mut Piece, maps: &[MapSeen], all: &[Attempt])
    ensures printed { Prints K.written K.faults out.old out.new (map_lines maps.now all.now) }
    ensures maps { AllByRecursion IsSeenNumbered maps.now }
    ensures attempts { AllByRecursion IsAttemptNumbered all.now }
{
    let mut at = 0;
    for map in maps {
        put_map(out, piece, map);
        let next = at + count_in_unit(&all[at..], map.unit);
        attempts(out, piece, &all[at..next]);
        at = next;
    }
    attempts(out, piece, &all[at..]);
}

// What a walk was answered.
#[inline(always)]
fn add_walked(piece: &mut Piece, end: usize, answer: &WalkAnswer) -> usize
    requires { (29 ≤ end) × (end ≤ 512) }
    ensures text { drop result piece.new
        ≡ spaced (walked_words answer.now) ++ drop end piece.old }
    ensures start { (end ≤ result + 29) × (result ≤ end) }
    ensures numbers { IsWalkedNumbered answer.now }
{
    match answer {
        WalkAnswer::Walked { freed } => {
            let start = piece.number(end, *freed);
            piece.word(start, b"ran")
        }
        WalkAnswer::Offline { entry } => {
            let start = piece.number(end, *entry as u64);
            piece.word(start, b"offline")
        }
        WalkAnswer::Memory { freed } => {
            let start = piece.number(end, *freed);
            piece.word(start, b"memory")
        }
    }
}

// The line of a walk itself.
fn put_walk<K: Sink>(out: &mut Paper<K>, piece: &mut Piece, number: usize, walk: &WalkRecord)
    ensures printed { let walk = walk.now in Prints K.written K.faults out.old out.new
        (line (codes "walk") (numeral number ∷ numeral walk.group ∷ numeral walk.node
        ∷ numeral walk.priority ∷ choice walk.nofs (codes "nofs") (codes "fs")
        ∷ walked_words walk.answer)) }
    ensures group { IsShort walk.now.group }
    ensures node { walk.now.node < 2 ^ 8 }
    ensures priority { walk.now.priority < 2 ^ 8 }
    ensures answer { IsWalkedNumbered walk.now.answer }
{
    let start = piece.line_end();
    let start = add_walked(piece, start, &walk.answer());
    let start = piece.either(start, walk.nofs, b"nofs", b"fs");
    let start = piece.number(start, walk.priority as u64);
    let start = piece.number(start, walk.node as u64);
    let start = piece.number(start, walk.group as u64);
    let start = piece.number(start, number as u64);
    let start = piece.exactly(start, b"walk");
    piece.put(start, out)
}

/// A walk, by its number within its worker.
pub fn walk<K: Sink>(out: &mut Paper<K>, piece: &mut Piece, number: usize, walk: &WalkRecord)
    ensures printed { Prints K.written K.faults out.old out.new (walk_lines number walk.now) }
    ensures numbers { IsWalkNumbered walk.now }
{
    // Its line has no such word: what is read is known to be in its range.
    let _worker = walk.by.worker;
    let _command = walk.by.command;
    put_walk(out, piece, number, walk);
    units(out, piece, walk.maps(), walk.attempts())
}
