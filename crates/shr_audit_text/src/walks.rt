// SPDX-License-Identifier: GPL-2.0-only
//! Walks, the words of bits that they loaded, and attempts, from the words of their lines.

ghost use Rattle.std.specs.Prelude.{◌≡◌, [], IfSome, IfNone, bytes_eq, codes, if◌then◌else◌};
ghost use Rattle.shr_report.specs.ReadWords.{later, w1, n0, n2, n3, read_pass};
ghost use Rattle.shr_report.specs.ReadLines.{read_attempt, read_map, read_outcome, read_walked, read_walk};
ghost use Rattle.shr_laws.specs.Numbers.{IsAttemptNumbered, IsOutcomeNumbered, IsSeenNumbered, IsWalkedNumbered};
ghost use Rattle.shr_base.specs.declared.walks.GoneThen.TheVariants.{Set, Clear, Root};
ghost use Rattle.shr_base.specs.declared.walks.Outcome.TheVariants.{RestoredSkip, RestoredRan};
ghost use Rattle.shr_audit_text.specs.Said.{head_of, IsHeadNumbered};
ghost use Rattle.shr_words.specs.WordReading.{words_left};

use crate::spent::pass;
use crate::words::{hexadecimal, is_over, number, number_8, number_16, number_32, word};
use shr_base::attempts::Attempt;
use shr_base::walks::{GoneThen, MapSeen, Outcome, WalkAnswer};

// What became of the bit of an id that was gone.
fn gone(word: &[u8]) -> GoneThen
    ensures { result ≡ (if bytes_eq word.now (codes "set") then Set else if bytes_eq word.now
        (codes "clear") then Clear else Root) }
{
    if word == b"set".as_slice() {
        GoneThen::Set
    } else if word == b"clear".as_slice() {
        GoneThen::Clear
    } else {
        GoneThen::Root
    }
}

// What an attempt came to that restored its bit, from the number of the first version on.
fn restored(number: u32, rest: Option<&[u8]>) -> Option<Outcome>
    ensures some { let ws = words_left rest.entry in IfSome result (λ o. o
        ≡ (if bytes_eq (w1 ws) (codes "skip")
        then RestoredSkip number (n0 ws) (n2 ws) (n3 ws) else RestoredRan number (n0 ws)
        (read_pass (later (later ws))))) }
    ensures none { let ws = words_left rest.entry in IfNone result (IsOutcomeNumbered (if bytes_eq
        (w1 ws) (codes "skip")
        then RestoredSkip number (n0 ws) (n2 ws) (n3 ws) else RestoredRan number (n0 ws)
        (read_pass (later (later ws)))) → ⊥) }
{
    let (first, rest) = word(rest);
    let (what, rest) = word(rest);
    let first = number_32(first)?;
    if what == b"skip".as_slice() {
        let (len, rest) = word(rest);
        let (version, _) = word(rest);
        return Some(Outcome::RestoredSkip {
            number,
            first,
            len: number_32(len)?,
            version: number_32(version)?,
        });
    }
    Some(Outcome::RestoredRan {
        number,
        first,
        pass: pass(rest)?,
    })
}

/// What an attempt came to, from the words behind its id. None: its numbers don't have the ranges of
/// their types.
#[tactic(auto, unfolding(shr_report::specs::ReadLines::read_outcome))]
pub fn outcome(rest: Option<&[u8]>) -> Option<Outcome>
    ensures some { IfSome result (λ o. o ≡ read_outcome (words_left rest.entry)) }
    ensures none { IfNone result (IsOutcomeNumbered (read_outcome (words_left rest.entry)) → ⊥) }
{
    let (first, rest) = word(rest);
    let (second, rest) = word(rest);
    if is_over(rest) {
        return Some(Outcome::Worn {
            seen: number_32(second)?,
        });
    }
    let number = number_32(first)?;
    let (what, rest) = word(rest);
    if second == b"gone".as_slice() {
        return Some(Outcome::Gone {
            number,
            then: gone(what),
        });
    }
    let (third, behind) = word(rest);
    let (fourth, _) = word(behind);
    if what == b"skip".as_slice() {
        return Some(Outcome::Skip {
            number,
            len: number_32(third)?,
            version: number_32(fourth)?,
        });
    }
    if what == b"ran".as_slice() {
        return Some(Outcome::Ran {
            number,
            pass: pass(rest)?,
        });
    }
    if what == b"empty".as_slice() {
        return Some(Outcome::Empty {
            number,
            version: number_32(third)?,
        });
    }
    if what == b"cleared".as_slice() {
        return Some(Outcome::Cleared {
            number,
            first: number_32(third)?,
            second: number_32(fourth)?,
        });
    }
    restored(number, rest)
}

/// An attempt, from the words behind the first of its line. None as for what it came to.
pub fn attempt(rest: Option<&[u8]>) -> Option<Attempt>
    ensures some { IfSome result (λ a. a ≡ read_attempt [] (words_left rest.entry)) }
    ensures none { IfNone result (IsAttemptNumbered (read_attempt [] (words_left rest.entry)) → ⊥) }
{
    let (id, rest) = word(rest);
    let id = number_16(id)?;
    Some(Attempt::new(id, outcome(rest)?))
}

/// A word of bits that a walk loaded, from the words behind the first of its line. None as for an
/// attempt.
pub fn seen(rest: Option<&[u8]>) -> Option<MapSeen>
    ensures some { IfSome result (λ m. m ≡ read_map [] (words_left rest.entry)) }
    ensures none { IfNone result (IsSeenNumbered (read_map [] (words_left rest.entry)) → ⊥) }
{
    let (unit, rest) = word(rest);
    let (bits, _) = word(rest);
    Some(MapSeen {
        unit: number_8(unit)?,
        bits: hexadecimal(bits)?,
    })
}

/// What a walk was answered. None as for an attempt.
#[tactic(auto, unfolding(shr_report::specs::ReadLines::read_walked))]
pub fn walked(rest: Option<&[u8]>) -> Option<WalkAnswer>
    ensures some { IfSome result (λ a. a ≡ read_walked (words_left rest.entry)) }
    ensures none { IfNone result (IsWalkedNumbered (read_walked (words_left rest.entry)) → ⊥) }
{
    let (what, rest) = word(rest);
    let (first, _) = word(rest);
    if what == b"ran".as_slice() {
        return Some(WalkAnswer::Walked {
            freed: number(first)?,
        });
    }
    if what == b"offline".as_slice() {
        return Some(WalkAnswer::Offline {
            entry: number_32(first)?,
        });
    }
    Some(WalkAnswer::Memory {
        freed: number(first)?,
    })
}

/// What the first line of a walk says: all but its command, and what it loaded and tried.
#[derive(Clone, Copy, Debug, PartialEq, Eq)]
pub struct Head {
    pub group: u16,
    pub node: u8,
    pub priority: u8,
    pub nofs: bool,
    pub answer: WalkAnswer,
}

/// A walk's head, from the words behind the first of its line. None as for an attempt.
pub fn walk_head(rest: Option<&[u8]>) -> Option<Head>
    ensures some { IfSome result (λ w. w ≡ head_of (read_walk [] (words_left rest.entry))) }
    ensures none { IfNone result (IsHeadNumbered (head_of (read_walk [] (words_left rest.entry)))
        → ⊥) }
{
    let (_, rest) = word(rest);
    let (group, rest) = word(rest);
    let (node, rest) = word(rest);
    let (priority, rest) = word(rest);
    let (nofs, rest) = word(rest);
    Some(Head {
        group: number_16(group)?,
        node: number_8(node)?,
        priority: number_8(priority)?,
        nofs: nofs == b"nofs".as_slice(),
        answer: walked(rest)?,
    })
}
