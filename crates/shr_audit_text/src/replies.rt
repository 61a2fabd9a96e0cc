// SPDX-License-Identifier: GPL-2.0-only
//! Answers to commands, from the words of their lines.

ghost use Rattle.std.specs.Prelude.{◌≡◌, [], ◌∷◌, true, IfOk, IfSome, IfNone, bytes_eq, codes, if◌then◌else◌};
ghost use Rattle.shr_report.specs.ReadWords.{later, is_none, w0, n0, n1, n2, n3, n4, read_at, read_why};
ghost use Rattle.shr_report.specs.ReadLines.{read_reply};
ghost use Rattle.shr_laws.specs.Numbers.{IsReplyNumbered};
ghost use Rattle.shr_base.specs.declared.replies.Reply.TheVariants.{Freed, Half, OfflineDone, Done};
ghost use Rattle.shr_audit_text.specs.Reads.{IsReadAs};
ghost use Rattle.shr_audit_text.specs.Kinds.{IsNoneOf, citing, walking, registering, making};
ghost use Rattle.shr_words.specs.WordReading.{words_left};

use crate::spent::{at, isolate_end, spent, why};
use crate::words::{behind_first, is_over, number, number_8, number_16, number_32, word};
use shr_base::memory::Memory;
use shr_base::replies::Reply;
use shr_base::text::Text;
use std::alloc::Global;

/// An answer, from its words. None: its numbers don't have the ranges of their types. Want of memory
/// alone is an error.
pub fn reply(alloc: Global, rest: Option<&[u8]>) -> Result<Option<Reply>, Memory>
    ensures { IfOk result (λ found. IsReadAs found (read_reply (words_left rest.entry))
        (IsReplyNumbered (read_reply (words_left rest.entry)))) }
{
    let (what, _) = word(rest);
    if what == b"hit".as_slice() {
        return hit(alloc, rest);
    }
    Ok(citing(rest))
}

// The answer that lends a value.
#[tactic(auto, unfolding(shr_report::specs::ReadLines::read_reply))]
fn hit(alloc: Global, rest: Option<&[u8]>) -> Result<Option<Reply>, Memory>
    requires { bytes_eq (w0 (words_left rest)) (codes "hit") ≡ true }
    ensures { IfOk result (λ found. IsReadAs found (read_reply (words_left rest.entry))
        (IsReplyNumbered (read_reply (words_left rest.entry)))) }
{
    let (_, rest) = word(rest);
    let Some(at) = at(rest) else {
        return Ok(None);
    };
    let (_, rest) = word(rest);
    let (_, rest) = word(rest);
    let (_, rest) = word(rest);
    let (_, rest) = word(rest);
    let (value, _) = word(rest);
    Ok(Some(Reply::Hit {
        at,
        value: Text::of(alloc, behind_first(value))?,
    }))
}

// An answer that cites an entry of a list, or a later kind.
#[tactic(auto, unfolding(shr_report::specs::ReadLines::read_reply))]
fn citing(rest: Option<&[u8]>) -> Option<Reply>
    requires { IsNoneOf (w0 (words_left rest)) (codes "hit" ∷ []) }
    ensures { IsReadAs result (read_reply (words_left rest.entry)) (IsReplyNumbered (read_reply
        (words_left rest.entry))) }
{
    let (what, behind) = word(rest);
    if what == b"added".as_slice() {
        return Some(Reply::Added { at: at(behind)? });
    }
    if what == b"exists".as_slice() {
        return Some(Reply::Exists { at: at(behind)? });
    }
    if what == b"miss".as_slice() {
        return Some(Reply::Miss { at: at(behind)? });
    }
    if what == b"dropped".as_slice() {
        return Some(Reply::Dropped { at: at(behind)? });
    }
    if what == b"pinned".as_slice() {
        return Some(Reply::Pinned { at: at(behind)? });
    }
    walking(rest)
}

// An answer of a group, a charge or a walk, or a later kind.
#[tactic(auto, unfolding(shr_report::specs::ReadLines::read_reply))]
fn walking(rest: Option<&[u8]>) -> Option<Reply>
    requires { IsNoneOf (w0 (words_left rest)) citing }
    ensures { IsReadAs result (read_reply (words_left rest.entry)) (IsReplyNumbered (read_reply
        (words_left rest.entry))) }
{
    let (what, behind) = word(rest);
    let (first, later) = word(behind);
    let (second, later) = word(later);
    if what == b"offline".as_slice() {
        return Some(Reply::Offline {
            entry: number_32(first)?,
        });
    }
    if what == b"over".as_slice() {
        let (third, _) = word(later);
        return Some(Reply::Over {
            group: number_16(first)?,
            operation: number(second)?,
            usage: number_32(third)?,
        });
    }
    if what == b"nocache".as_slice() {
        return Some(Reply::NoCache {
            entry: number_32(first)?,
        });
    }
    if what == b"worn".as_slice() {
        return Some(Reply::Worn {
            spent: spent(behind)?,
        });
    }
    if what == b"walked".as_slice() {
        return Some(Reply::Walked {
            freed: number(first)?,
        });
    }
    if what == b"alreadydone".as_slice() {
        return Some(Reply::AlreadyDone {
            entry: number_32(first)?,
        });
    }
    if what == b"root".as_slice() {
        return Some(Reply::Root);
    }
    if what == b"haschildren".as_slice() {
        return Some(Reply::HasChildren {
            child: number_16(first)?,
            entry: number_32(second)?,
        });
    }
    registering(rest)
}

// An answer of a registration, or one whose word stands for two, or a later kind.
#[tactic(auto, unfolding(shr_report::specs::ReadLines::read_reply))]
fn registering(rest: Option<&[u8]>) -> Option<Reply>
    requires { IsNoneOf (w0 (words_left rest)) walking }
    ensures { IsReadAs result (read_reply (words_left rest.entry)) (IsReplyNumbered (read_reply
        (words_left rest.entry))) }
{
    let (what, behind) = word(rest);
    if what == b"registered".as_slice() {
        let (id, behind) = word(behind);
        let (entry, _) = word(behind);
        return Some(Reply::Registered {
            id: number_16(id)?,
            entry: number_32(entry)?,
        });
    }
    if what == b"alreadyregistered".as_slice() {
        let (entry, _) = word(behind);
        return Some(Reply::AlreadyRegistered {
            entry: number_32(entry)?,
        });
    }
    if what == b"noid".as_slice() {
        let (entry, _) = word(behind);
        return Some(Reply::NoId {
            entry: number_32(entry)?,
        });
    }
    if what == b"freed".as_slice() {
        return freed(behind);
    }
    if what == b"done".as_slice() {
        return done(behind);
    }
    if what == b"memory".as_slice() {
        if is_over(behind) {
            return Some(Reply::Memory);
        }
        let (freed, _) = word(behind);
        return Some(Reply::WalkMemory {
            freed: number(freed)?,
        });
    }
    making(rest)
}

// The end of an unregistering, behind its word.
fn freed(rest: Option<&[u8]>) -> Option<Reply>
    ensures { let ws = words_left rest.entry in let said = Freed (n0 ws) (n1 ws) (n2 ws) (n3 ws)
        (n4 ws) in IsReadAs result said (IsReplyNumbered said) }
{
    let (id, rest) = word(rest);
    let (entry, rest) = word(rest);
    let (from, rest) = word(rest);
    let (to, rest) = word(rest);
    let (objects, _) = word(rest);
    Some(Reply::Freed {
        id: number_16(id)?,
        entry: number_32(entry)?,
        from: number_32(from)?,
        to: number_32(to)?,
        objects: number_32(objects)?,
    })
}

// What `done` says, by the number of words behind it: an offlining has three, a pin four.
fn done(rest: Option<&[u8]>) -> Option<Reply>
    ensures { let ws = words_left rest.entry in let said = if is_none (later (later
        (later ws))) then OfflineDone (n0 ws) (n1 ws) (n2 ws) else Done (read_at ws)
        in IsReadAs result said (IsReplyNumbered said) }
{
    let (entry, behind) = word(rest);
    let (moved, behind) = word(behind);
    let (deferred, behind) = word(behind);
    if is_over(behind) {
        return Some(Reply::OfflineDone {
            entry: number_32(entry)?,
            moved: number(moved)?,
            deferred: number(deferred)?,
        });
    }
    Some(Reply::Done { at: at(rest)? })
}

// An answer of a group that is made, or of an isolation, or a later kind.
#[tactic(auto, unfolding(shr_report::specs::ReadLines::read_reply))]
fn making(rest: Option<&[u8]>) -> Option<Reply>
    requires { IsNoneOf (w0 (words_left rest)) registering }
    ensures { IsReadAs result (read_reply (words_left rest.entry)) (IsReplyNumbered (read_reply
        (words_left rest.entry))) }
{
    let (what, behind) = word(rest);
    let (first, behind) = word(behind);
    if what == b"made".as_slice() {
        return Some(Reply::Made {
            entry: number_32(first)?,
        });
    }
    if what == b"alreadymade".as_slice() {
        return Some(Reply::AlreadyMade {
            entry: number_32(first)?,
        });
    }
    if what == b"notmade".as_slice() {
        return Some(Reply::NotMade {
            group: number_16(first)?,
        });
    }
    if what == b"isolated".as_slice() {
        let (freed, behind) = word(behind);
        return Some(Reply::Isolated {
            visits: number_32(first)?,
            freed: number_32(freed)?,
            ending: isolate_end(behind)?,
        });
    }
    pooled(rest)
}

// An answer of a pool or of a sweep, or the half of an unregistering.
#[tactic(auto, unfolding(shr_report::specs::ReadLines::read_reply))]
fn pooled(rest: Option<&[u8]>) -> Option<Reply>
    requires { IsNoneOf (w0 (words_left rest)) making }
    ensures { IsReadAs result (read_reply (words_left rest.entry)) (IsReplyNumbered (read_reply
        (words_left rest.entry))) }
{
    let (what, behind) = word(rest);
    let (first, later) = word(behind);
    let (second, later) = word(later);
    if what == b"swept".as_slice() {
        return Some(Reply::Swept {
            jobs: number_32(first)?,
            freed: number(second)?,
        });
    }
    let (third, later) = word(later);
    if what == b"released".as_slice() {
        return Some(Reply::Released {
            pool: number_8(first)?,
            node: number_8(second)?,
            entry: number_32(third)?,
        });
    }
    if what == b"full".as_slice() {
        let (fourth, _) = word(later);
        return Some(Reply::Full {
            pool: number_8(first)?,
            node: number_8(second)?,
            entries: number_32(third)?,
            free: number_32(fourth)?,
        });
    }
    if what == b"grabbed".as_slice() {
        return Some(Reply::Grabbed {
            pool: number_8(first)?,
            node: number_8(second)?,
            entry: number_32(third)?,
        });
    }
    if what == b"bare".as_slice() {
        return Some(Reply::Bare {
            pool: number_8(first)?,
            node: number_8(second)?,
            entry: number_32(third)?,
        });
    }
    half(behind)
}

// The half of an unregistering, behind its word.
fn half(rest: Option<&[u8]>) -> Option<Reply>
    ensures { let ws = words_left rest.entry in let said = Half (n0 ws) (n1 ws) (n2 ws) (n3 ws)
        (n4 ws) (read_why (later (later (later (later (later ws))))))
        in IsReadAs result said (IsReplyNumbered said) }
{
    let (id, rest) = word(rest);
    let (entry, rest) = word(rest);
    let (from, rest) = word(rest);
    let (to, rest) = word(rest);
    let (objects, rest) = word(rest);
    Some(Reply::Half {
        id: number_16(id)?,
        entry: number_32(entry)?,
        from: number_32(from)?,
        to: number_32(to)?,
        objects: number_32(objects)?,
        why: why(rest)?,
    })
}
