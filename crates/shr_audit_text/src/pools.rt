// SPDX-License-Identifier: GPL-2.0-only
//! Pools of units, walks of the pools, and isolations, from the words of their lines.

ghost use Rattle.std.specs.Prelude.{◌≡◌, [], IfSome, IfNone};
ghost use Rattle.shr_report.specs.ReadLines.{read_pass_line, read_try, read_plain_answer, read_plain, read_isolation, read_plain_entry, read_units, read_pool_amount};
ghost use Rattle.shr_laws.specs.Numbers.{IsTryNumbered, IsPlainAnswerNumbered, IsPlainEntryNumbered, IsAmountNumbered};
ghost use Rattle.shr_audit_text.specs.Said.{plain_head_of, isolation_head_of, units_head_of, IsPlainHeadNumbered, IsIsolationHeadNumbered, AreUnitsHeadNumbered};
ghost use Rattle.shr_words.specs.WordReading.{words_left};

use crate::spent::{isolate_end, pass, place, serial};
use crate::words::{number, number_8, number_16, number_32, word};
use shr_base::ends::PlaceAmount;
use shr_base::journals::PlainEntry;
use shr_base::places::Place;
use shr_base::replies::IsolateEnd;
use shr_base::walks::{PlainAnswer, PlainTry};

/// What the first line of a walk of the pools says: all but its command and its tries.
#[derive(Clone, Copy)]
pub struct PlainHead {
    pub node: u8,
    pub priority: u8,
    pub answer: PlainAnswer,
}

/// What the line of an isolation says: all but its command.
#[derive(Clone, Copy)]
pub struct IsolationHead {
    pub place: Place,
    pub budget: u32,
    pub visits: u32,
    pub freed: u32,
    pub ending: IsolateEnd,
}

/// What the first line of a pool on a node says: all but its journal.
#[derive(Clone, Copy)]
pub struct UnitsHead {
    pub pool: u8,
    pub node: u8,
    pub free: u32,
}

// What a walk of the pools came to at one pool.
#[tactic(auto, unfolding(shr_report::specs::ReadLines::read_try))]
fn come_to(rest: Option<&[u8]>) -> Option<PlainTry>
    ensures some { IfSome result (λ t. t ≡ read_try (words_left rest.entry)) }
    ensures none { IfNone result (IsTryNumbered (read_try (words_left rest.entry)) → ⊥) }
{
    let (what, rest) = word(rest);
    let (first, behind) = word(rest);
    if what == b"empty".as_slice() {
        return Some(PlainTry::Empty {
            version: number_32(first)?,
        });
    }
    if what == b"skip".as_slice() {
        let (version, _) = word(behind);
        return Some(PlainTry::Skip {
            len: number_32(first)?,
            version: number_32(version)?,
        });
    }
    Some(PlainTry::Ran { pass: pass(rest)? })
}

/// What a walk of the pools came to at one pool, from the words behind the first of its line. None:
/// its numbers don't have the ranges of their types.
pub fn pool_pass(rest: Option<&[u8]>) -> Option<PlainTry>
    ensures some { IfSome result (λ t. t ≡ read_pass_line [] (words_left rest.entry)) }
    ensures none { IfNone result (IsTryNumbered (read_pass_line [] (words_left rest.entry)) → ⊥) }
{
    let (_, rest) = word(rest);
    come_to(rest)
}

// What a walk of the pools was answered.
#[tactic(auto, unfolding(shr_report::specs::ReadLines::read_plain_answer))]
fn plain_answer(rest: Option<&[u8]>) -> Option<PlainAnswer>
    ensures some { IfSome result (λ a. a ≡ read_plain_answer (words_left rest.entry)) }
    ensures none { IfNone result (IsPlainAnswerNumbered (read_plain_answer (words_left rest.entry))
        → ⊥) }
{
    let (what, rest) = word(rest);
    let (freed, _) = word(rest);
    let freed = number(freed)?;
    if what == b"ran".as_slice() {
        return Some(PlainAnswer::Walked { freed });
    }
    Some(PlainAnswer::Memory { freed })
}

/// The head of a walk of the pools, from the words behind the first of its line. None as for a pass.
pub fn plain_head(rest: Option<&[u8]>) -> Option<PlainHead>
    ensures some { IfSome result (λ w. w ≡ plain_head_of (read_plain [] (words_left rest.entry))) }
    ensures none { IfNone result (IsPlainHeadNumbered (plain_head_of (read_plain []
        (words_left rest.entry))) → ⊥) }
{
    let (_, rest) = word(rest);
    let (node, rest) = word(rest);
    let (priority, rest) = word(rest);
    Some(PlainHead {
        node: number_8(node)?,
        priority: number_8(priority)?,
        answer: plain_answer(rest)?,
    })
}

/// An isolation without its command, from the words behind the first of its line. None as for a pass.
pub fn isolation_head(rest: Option<&[u8]>) -> Option<IsolationHead>
    ensures some { IfSome result (λ i. i
        ≡ isolation_head_of (read_isolation [] (words_left rest.entry))) }
    ensures none { IfNone result (IsIsolationHeadNumbered (isolation_head_of (read_isolation []
        (words_left rest.entry))) → ⊥) }
{
    let place = place(rest)?;
    let (_, rest) = word(rest);
    let (_, rest) = word(rest);
    let (_, rest) = word(rest);
    let (budget, rest) = word(rest);
    let (visits, rest) = word(rest);
    let (freed, rest) = word(rest);
    Some(IsolationHead {
        place,
        budget: number_32(budget)?,
        visits: number_32(visits)?,
        freed: number_32(freed)?,
        ending: isolate_end(rest)?,
    })
}

/// An entry of a pool's journal, from the first word of its line and those behind it. None as for a
/// pass.
#[tactic(auto, unfolding(shr_report::specs::ReadLines::read_plain_entry))]
pub fn plain_entry(first: &[u8], rest: Option<&[u8]>) -> Option<PlainEntry>
    ensures some { IfSome result (λ e. e ≡ read_plain_entry first.now (words_left rest.entry)) }
    ensures none { IfNone result (IsPlainEntryNumbered (read_plain_entry first.now
        (words_left rest.entry)) → ⊥) }
{
    let (second, behind) = word(rest);
    let (third, behind) = word(behind);
    let (fourth, behind) = word(behind);
    if first == b"release".as_slice() {
        return Some(PlainEntry::Release {
            by: serial(rest)?,
            units: number_32(fourth)?,
        });
    }
    if first == b"grab".as_slice() {
        return Some(PlainEntry::Grab {
            by: serial(rest)?,
            got: fourth == b"got".as_slice(),
        });
    }
    let (freed, _) = word(behind);
    Some(PlainEntry::Reclaim {
        worker: number_16(second)?,
        walk: number_32(third)?,
        asked: number_32(fourth)?,
        freed: number_32(freed)?,
    })
}

/// A pool on a node without its journal, from the words behind the first of its line. None as for a
/// pass.
pub fn units_head(rest: Option<&[u8]>) -> Option<UnitsHead>
    ensures some { IfSome result (λ u. u ≡ units_head_of (read_units [] (words_left rest.entry))) }
    ensures none { IfNone result (AreUnitsHeadNumbered (units_head_of (read_units []
        (words_left rest.entry))) → ⊥) }
{
    let (pool, rest) = word(rest);
    let (node, rest) = word(rest);
    let (free, _) = word(rest);
    Some(UnitsHead {
        pool: number_8(pool)?,
        node: number_8(node)?,
        free: number_32(free)?,
    })
}

/// The deferred word of a pool, from the words behind the first of its line. None as for a pass.
pub fn pool_amount(rest: Option<&[u8]>) -> Option<PlaceAmount>
    ensures some { IfSome result (λ a. a ≡ read_pool_amount [] (words_left rest.entry)) }
    ensures none { IfNone result (IsAmountNumbered (read_pool_amount [] (words_left rest.entry))
        → ⊥) }
{
    let (pool, rest) = word(rest);
    let (node, rest) = word(rest);
    let (amount, _) = word(rest);
    Some(PlaceAmount {
        place: Place {
            id: number_16(pool)?,
            node: number_8(node)?,
            group: 0,
        },
        amount: number(amount)?,
    })
}
