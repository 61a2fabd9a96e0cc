// SPDX-License-Identifier: GPL-2.0-only
//! The words of an answer that isn't of a place's entry.

ghost use Rattle.std.specs.Prelude.{◌≡◌, ◌≤◌, ◌+◌, ◌++◌, ◌∷◌, [], drop, length};
ghost use Rattle.shr_laws.specs.Lines.{spaced, numeral};
ghost use Rattle.shr_laws.specs.Numbers.{IsWhyNumbered, IsIsolateEndNumbered, IsReplyNumbered};
ghost use Rattle.shr_report.specs.Variants.{IsOfGroup, IsOfOffline, IsOfMaking, IsOfCache, IsFreedAnswer, IsHalfAnswer, IsIsolated, IsPoolAnswer, IsUnplaced};
ghost use Rattle.shr_laws.specs.AnswerText.{why_words, isolate_end_words, answer_words};

use crate::counters::add_spent;
use crate::piece::Piece;
use shr_base::replies::{HalfWhy, IsolateEnd, Reply};

// Why an unregistering stopped half way.
fn add_why(piece: &mut Piece, end: usize, why: &HalfWhy) -> usize
    requires { (115 ≤ end) × (end ≤ 512) }
    ensures text { drop result piece.new ≡ spaced (why_words why.now) ++ drop end piece.old }
    ensures start { (end ≤ result + 115) × (result ≤ end) }
    ensures numbers { IsWhyNumbered why.now }
{
    match why {
        HalfWhy::Memory => piece.word(end, b"memory"),
        HalfWhy::Worn { spent } => {
            let start = add_spent(piece, end, spent);
            piece.word(start, b"worn")
        }
    }
}

// A reply that a group is offline, or over its limit.
fn add_of_group(piece: &mut Piece, end: usize, reply: &Reply) -> usize
    requires reply { IsOfGroup reply.now }
    requires room { (68 ≤ end) × (end ≤ 512) }
    ensures text { drop result piece.new ≡ spaced (answer_words reply.now) ++ drop end piece.old }
    ensures start { (end ≤ result + 68) × (result ≤ end) }
    ensures numbers { IsReplyNumbered reply.now }
{
    match *reply {
        Reply::Offline { entry } => {
            let start = piece.number(end, entry as u64);
            piece.word(start, b"offline")
        }
        Reply::Over {
            group,
            operation,
            usage,
        } => {
            let start = piece.number(end, usage as u64);
            let start = piece.number(start, operation);
            let start = piece.number(start, group as u64);
            piece.word(start, b"over")
        }
        _ => unreachable!(),
    }
}

// A reply to an offlining.
fn add_of_offline(piece: &mut Piece, end: usize, reply: &Reply) -> usize
    requires reply { IsOfOffline reply.now }
    requires room { (68 ≤ end) × (end ≤ 512) }
    ensures text { drop result piece.new ≡ spaced (answer_words reply.now) ++ drop end piece.old }
    ensures start { (end ≤ result + 68) × (result ≤ end) }
    ensures numbers { IsReplyNumbered reply.now }
{
    match *reply {
        Reply::OfflineDone {
            entry,
            moved,
            deferred,
        } => {
            let start = piece.number(end, deferred);
            let start = piece.number(start, moved);
            let start = piece.number(start, entry as u64);
            piece.word(start, b"done")
        }
        Reply::AlreadyDone { entry } => {
            let start = piece.number(end, entry as u64);
            piece.word(start, b"alreadydone")
        }
        Reply::HasChildren { child, entry } => {
            let start = piece.number(end, entry as u64);
            let start = piece.number(start, child as u64);
            piece.word(start, b"haschildren")
        }
        _ => unreachable!(),
    }
}

// A reply to the making of a group, or that a group isn't made.
fn add_of_making(piece: &mut Piece, end: usize, reply: &Reply) -> usize
    requires reply { IsOfMaking reply.now }
    requires room { (33 ≤ end) × (end ≤ 512) }
    ensures text { drop result piece.new ≡ spaced (answer_words reply.now) ++ drop end piece.old }
    ensures start { (end ≤ result + 33) × (result ≤ end) }
    ensures numbers { IsReplyNumbered reply.now }
{
    match *reply {
        Reply::Made { entry } => {
            let start = piece.number(end, entry as u64);
            piece.word(start, b"made")
        }
        Reply::AlreadyMade { entry } => {
            let start = piece.number(end, entry as u64);
            piece.word(start, b"alreadymade")
        }
        Reply::NotMade { group } => {
            let start = piece.number(end, group as u64);
            piece.word(start, b"notmade")
        }
        _ => unreachable!(),
    }
}

// A reply about a registration.
fn add_of_cache(piece: &mut Piece, end: usize, reply: &Reply) -> usize
    requires reply { IsOfCache reply.now }
    requires room { (53 ≤ end) × (end ≤ 512) }
    ensures text { drop result piece.new ≡ spaced (answer_words reply.now) ++ drop end piece.old }
    ensures start { (end ≤ result + 53) × (result ≤ end) }
    ensures numbers { IsReplyNumbered reply.now }
{
    match *reply {
        Reply::NoCache { entry } => {
            let start = piece.number(end, entry as u64);
            piece.word(start, b"nocache")
        }
        Reply::Registered { id, entry } => {
            let start = piece.number(end, entry as u64);
            let start = piece.number(start, id as u64);
            piece.word(start, b"registered")
        }
        Reply::AlreadyRegistered { entry } => {
            let start = piece.number(end, entry as u64);
            piece.word(start, b"alreadyregistered")
        }
        Reply::NoId { entry } => {
            let start = piece.number(end, entry as u64);
            piece.word(start, b"noid")
        }
        _ => unreachable!(),
    }
}

// A reply to an unregistering that was done.
fn add_freed(piece: &mut Piece, end: usize, reply: &Reply) -> usize
    requires reply { IsFreedAnswer reply.now }
    requires room { (111 ≤ end) × (end ≤ 512) }
    ensures text { drop result piece.new ≡ spaced (answer_words reply.now) ++ drop end piece.old }
    ensures start { (end ≤ result + 111) × (result ≤ end) }
    ensures numbers { IsReplyNumbered reply.now }
{
    match *reply {
        Reply::Freed {
            id,
            entry,
            from,
            to,
            objects,
        } => {
            let start = piece.number(end, objects as u64);
            let start = piece.number(start, to as u64);
            let start = piece.number(start, from as u64);
            let start = piece.number(start, entry as u64);
            let start = piece.number(start, id as u64);
            piece.word(start, b"freed")
        }
        _ => unreachable!(),
    }
}

// A reply to an unregistering that stopped half way.
fn add_half(piece: &mut Piece, end: usize, reply: &Reply) -> usize
    requires reply { IsHalfAnswer reply.now }
    requires room { (225 ≤ end) × (end ≤ 512) }
    ensures text { drop result piece.new ≡ spaced (answer_words reply.now) ++ drop end piece.old }
    ensures start { (end ≤ result + 225) × (result ≤ end) }
    ensures numbers { IsReplyNumbered reply.now }
{
    match reply {
        Reply::Half {
            id,
            entry,
            from,
            to,
            objects,
            why,
        } => {
            let start = add_why(piece, end, why);
            let start = piece.number(start, *objects as u64);
            let start = piece.number(start, *to as u64);
            let start = piece.number(start, *from as u64);
            let start = piece.number(start, *entry as u64);
            let start = piece.number(start, *id as u64);
            piece.word(start, b"half")
        }
        _ => unreachable!(),
    }
}

/// How an isolation ended.
pub fn add_isolate_end(piece: &mut Piece, end: usize, ending: &IsolateEnd) -> usize
    requires { (115 ≤ end) × (end ≤ 512) }
    ensures text { drop result piece.new
        ≡ spaced (isolate_end_words ending.now) ++ drop end piece.old }
    ensures start { (end ≤ result + 115) × (result ≤ end) }
    ensures numbers { IsIsolateEndNumbered ending.now }
{
    match ending {
        IsolateEnd::Spent => piece.word(end, b"spent"),
        IsolateEnd::Bare => piece.word(end, b"bare"),
        IsolateEnd::Stop => piece.word(end, b"stop"),
        IsolateEnd::Closed => piece.word(end, b"closed"),
        IsolateEnd::NoRoom => piece.word(end, b"noroom"),
        IsolateEnd::Worn { spent } => {
            let start = add_spent(piece, end, spent);
            piece.word(start, b"worn")
        }
    }
}

// A reply to an isolation.
fn add_isolated(piece: &mut Piece, end: usize, reply: &Reply) -> usize
    requires reply { IsIsolated reply.now }
    requires room { (166 ≤ end) × (end ≤ 512) }
    ensures text { drop result piece.new ≡ spaced (answer_words reply.now) ++ drop end piece.old }
    ensures start { (end ≤ result + 166) × (result ≤ end) }
    ensures numbers { IsReplyNumbered reply.now }
{
    match reply {
        Reply::Isolated {
            visits,
            freed,
            ending,
        } => {
            let start = add_isolate_end(piece, end, ending);
            let start = piece.number(start, *freed as u64);
            let start = piece.number(start, *visits as u64);
            piece.word(start, b"isolated")
        }
        _ => unreachable!(),
    }
}

// A pool's node, and what is told of it.
#[inline(always)]
fn add_pool(piece: &mut Piece, end: usize, word: &[u8], pool: u8, node: u8) -> usize
    requires word { length word.now ≤ 8 }
    requires room { (51 ≤ end) × (end ≤ 512) }
    ensures text { drop result piece.new
        ≡ spaced (word.now ∷ numeral pool ∷ numeral node ∷ []) ++ drop end piece.old }
    ensures start { (end ≤ result + 51) × (result ≤ end) }
{
    let start = piece.number(end, node as u64);
    let start = piece.number(start, pool as u64);
    piece.word(start, word)
}

// A reply of a pool of units.
fn add_of_pool(piece: &mut Piece, end: usize, reply: &Reply) -> usize
    requires reply { IsPoolAnswer reply.now }
    requires room { (93 ≤ end) × (end ≤ 512) }
    ensures text { drop result piece.new ≡ spaced (answer_words reply.now) ++ drop end piece.old }
    ensures start { (end ≤ result + 93) × (result ≤ end) }
    ensures numbers { IsReplyNumbered reply.now }
{
    match *reply {
        Reply::Released { pool, node, entry } => {
            let start = piece.number(end, entry as u64);
            add_pool(piece, start, b"released", pool, node)
        }
        Reply::Full {
            pool,
            node,
            entries,
            free,
        } => {
            let start = piece.number(end, free as u64);
            let start = piece.number(start, entries as u64);
            add_pool(piece, start, b"full", pool, node)
        }
        Reply::Grabbed { pool, node, entry } => {
            let start = piece.number(end, entry as u64);
            add_pool(piece, start, b"grabbed", pool, node)
        }
        Reply::Bare { pool, node, entry } => {
            let start = piece.number(end, entry as u64);
            add_pool(piece, start, b"bare", pool, node)
        }
        _ => unreachable!(),
    }
}

/// A reply that isn't of a place's entry.
pub fn add_answer(piece: &mut Piece, end: usize, reply: &Reply) -> usize
    requires reply { IsUnplaced reply.now }
    requires room { (225 ≤ end) × (end ≤ 512) }
    ensures text { drop result piece.new ≡ spaced (answer_words reply.now) ++ drop end piece.old }
    ensures start { (end ≤ result + 225) × (result ≤ end) }
    ensures numbers { IsReplyNumbered reply.now }
{
    match reply {
        Reply::Worn { spent } => {
            let start = add_spent(piece, end, spent);
            piece.word(start, b"worn")
        }
        Reply::Memory => piece.word(end, b"memory"),
        Reply::Walked { freed } => {
            let start = piece.number(end, *freed);
            piece.word(start, b"walked")
        }
        Reply::WalkMemory { freed } => {
            let start = piece.number(end, *freed);
            piece.word(start, b"memory")
        }
        Reply::Root => piece.word(end, b"root"),
        Reply::Offline { .. } | Reply::Over { .. } => add_of_group(piece, end, reply),
        Reply::OfflineDone { .. } | Reply::AlreadyDone { .. } | Reply::HasChildren { .. } =>
            add_of_offline(piece, end, reply),
        Reply::Made { .. } | Reply::AlreadyMade { .. } | Reply::NotMade { .. } => add_of_making(
            piece, end, reply,
        ),
        Reply::NoCache { .. }
        | Reply::Registered { .. }
        | Reply::AlreadyRegistered { .. }
        | Reply::NoId { .. } => add_of_cache(piece, end, reply),
        Reply::Freed { .. } => add_freed(piece, end, reply),
        Reply::Half { .. } => add_half(piece, end, reply),
        Reply::Isolated { .. } => add_isolated(piece, end, reply),
        Reply::Released { .. } | Reply::Full { .. } | Reply::Grabbed { .. } | Reply::Bare { .. } =>
            add_of_pool(piece, end, reply),
        Reply::Swept { jobs, freed } => {
            let start = piece.number(end, *freed);
            let start = piece.number(start, *jobs as u64);
            piece.word(start, b"swept")
        }
        _ => unreachable!(),
    }
}
