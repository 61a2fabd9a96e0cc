// SPDX-License-Identifier: GPL-2.0-only
//! What the workers did, as far as it was read.

ghost use Rattle.std.specs.Prelude.{◌≡◌, ◌-◌, ◌%◌, ◌^◌, [], length, IfOk};
ghost use Rattle.shr_audit_text.specs.Draft.{drafted_parts, drafted_walks, padded, with_last, found_answer, seen_walk, tried_walk, with_reply, with_found, with_walk, with_seen, with_attempt, with_carry, plains_of, passed_walk, with_isolation, with_plain, with_pass};

use crate::pools::{IsolationHead, PlainHead};
use crate::walks::Head;
use shr_base::attempts::Attempt;
use shr_base::ends::PlaceAmount;
use shr_base::memory::Memory;
use shr_base::places::Serial;
use shr_base::replies::{Answered, Found, Reply};
use shr_base::walks::{Carry, Isolation, MapSeen, PlainTry};
use std::alloc::Global;

/// A walk as far as it was read.
#[derive(Drop)]
pub struct WalkDraft {
    pub by: Serial,
    pub head: Head,
    pub maps: Vec<MapSeen>,
    pub attempts: Vec<Attempt>,
}

/// A walk of the pools as far as it was read.
#[derive(Drop)]
pub struct PlainDraft {
    pub by: Serial,
    pub head: PlainHead,
    pub tries: Vec<PlainTry>,
}

/// A worker's part as far as it was read.
#[derive(Drop)]
pub struct PartDraft {
    pub answers: Vec<Answered>,
    pub walks: Vec<WalkDraft>,
    pub carries: Vec<Carry>,
    pub plain: Vec<PlainDraft>,
    pub isolations: Vec<Isolation>,
}

impl PartDraft {
    // A part of which nothing was read.
    fn new(alloc: Global) -> PartDraft
        ensures answers { result.answers.items ≡ [] }
        ensures walks { result.walks.items ≡ [] }
        ensures carries { result.carries.items ≡ [] }
        ensures plain { result.plain.items ≡ [] }
        ensures isolations { result.isolations.items ≡ [] }
    {
        PartDraft {
            answers: Vec::new(alloc),
            walks: Vec::new(alloc),
            carries: Vec::new(alloc),
            plain: Vec::new(alloc),
            isolations: Vec::new(alloc),
        }
    }

    // The last command that has an answer, of the worker with this number. A number that its type
    // can't hold is that of no report.
    fn last(&self, worker: usize) -> Serial
        ensures worker { result.worker ≡ worker % 2 ^ 16 }
        ensures command { result.command ≡ (length self.now.answers.items - 1) % 2 ^ 32 }
    {
        Serial {
            worker: (worker % 0x1_0000) as u16,
            command: (self.answers.len().saturating_sub(1) % 0x1_0000_0000) as u32,
        }
    }
}

// Makes parts up to that of this worker.
fn pad(alloc: Global, parts: &mut Vec<PartDraft>, worker: u16) -> Result<(), Memory>
    ensures { IfOk result (λ _. drafted_parts parts.new.items
        ≡ padded worker (drafted_parts parts.old.items)) }
{
    let more = (worker as usize + 1).saturating_sub(parts.len());
    for _ in 0..more {
        parts.push(PartDraft::new(alloc))?;
    }
    Ok(())
}

/// An answer of this worker, after those that were read.
pub fn take_reply(
    alloc: Global,
    parts: &mut Vec<PartDraft>,
    worker: u16,
    reply: Reply,
) -> Result<(), Memory>
    ensures { IfOk result (λ _. drafted_parts parts.new.items
        ≡ with_reply worker reply (drafted_parts parts.old.items)) }
{
    pad(alloc, parts, worker)?;
    let Some(mut part) = parts.pop() else {
        return Ok(());
    };
    part.answers.push(Answered { reply, found: None })?;
    parts.push(part)?;
    Ok(())
}

// What `find` gave at the last of these answers.
fn find_last(answers: &mut Vec<Answered>, found: Found) -> Result<(), Memory>
    ensures { IfOk result (λ _. answers.new.items
        ≡ with_last (found_answer found) answers.old.items) }
{
    let Some(mut answered) = answers.pop() else {
        return Ok(());
    };
    answered.found = Some(found);
    answers.push(answered)?;
    Ok(())
}

/// What `find` gave at the last answer.
pub fn take_found(parts: &mut Vec<PartDraft>, found: Found) -> Result<(), Memory>
    ensures { IfOk result (λ _. drafted_parts parts.new.items
        ≡ with_found found (drafted_parts parts.old.items)) }
{
    let Some(mut part) = parts.pop() else {
        return Ok(());
    };
    find_last(&mut part.answers, found)?;
    parts.push(part)?;
    Ok(())
}

/// A walk of the last answer.
pub fn take_walk(alloc: Global, parts: &mut Vec<PartDraft>, head: Head) -> Result<(), Memory>
    ensures { IfOk result (λ _. drafted_parts parts.new.items
        ≡ with_walk head (drafted_parts parts.old.items)) }
{
    let Some(mut part) = parts.pop() else {
        return Ok(());
    };
    let by = part.last(parts.len());
    part.walks.push(WalkDraft {
        by,
        head,
        maps: Vec::new(alloc),
        attempts: Vec::new(alloc),
    })?;
    parts.push(part)?;
    Ok(())
}

// A word of bits that the last of these walks loaded.
fn see_last(walks: &mut Vec<WalkDraft>, seen: MapSeen) -> Result<(), Memory>
    ensures { IfOk result (λ _. drafted_walks walks.new.items
        ≡ with_last (seen_walk seen) (drafted_walks walks.old.items)) }
{
    let Some(mut walk) = walks.pop() else {
        return Ok(());
    };
    walk.maps.push(seen)?;
    walks.push(walk)?;
    Ok(())
}

/// A word of bits that the last walk loaded.
pub fn take_seen(parts: &mut Vec<PartDraft>, seen: MapSeen) -> Result<(), Memory>
    ensures { IfOk result (λ _. drafted_parts parts.new.items
        ≡ with_seen seen (drafted_parts parts.old.items)) }
{
    let Some(mut part) = parts.pop() else {
        return Ok(());
    };
    see_last(&mut part.walks, seen)?;
    parts.push(part)?;
    Ok(())
}

// An attempt of the last of these walks.
fn try_last(walks: &mut Vec<WalkDraft>, attempt: Attempt) -> Result<(), Memory>
    ensures { IfOk result (λ _. drafted_walks walks.new.items
        ≡ with_last (tried_walk attempt) (drafted_walks walks.old.items)) }
{
    let Some(mut walk) = walks.pop() else {
        return Ok(());
    };
    walk.attempts.push(attempt)?;
    walks.push(walk)?;
    Ok(())
}

/// An attempt of the last walk.
pub fn take_attempt(parts: &mut Vec<PartDraft>, attempt: Attempt) -> Result<(), Memory>
    ensures { IfOk result (λ _. drafted_parts parts.new.items
        ≡ with_attempt attempt (drafted_parts parts.old.items)) }
{
    let Some(mut part) = parts.pop() else {
        return Ok(());
    };
    try_last(&mut part.walks, attempt)?;
    parts.push(part)?;
    Ok(())
}

/// A carry of the last answer.
pub fn take_carry(parts: &mut Vec<PartDraft>, carried: PlaceAmount) -> Result<(), Memory>
    ensures { IfOk result (λ _. drafted_parts parts.new.items
        ≡ with_carry carried (drafted_parts parts.old.items)) }
{
    let Some(mut part) = parts.pop() else {
        return Ok(());
    };
    let by = part.last(parts.len());
    part.carries.push(Carry {
        by,
        place: carried.place,
        amount: carried.amount,
    })?;
    parts.push(part)?;
    Ok(())
}

/// An isolation of the last answer.
pub fn take_isolation(parts: &mut Vec<PartDraft>, head: IsolationHead) -> Result<(), Memory>
    ensures { IfOk result (λ _. drafted_parts parts.new.items
        ≡ with_isolation head (drafted_parts parts.old.items)) }
{
    let Some(mut part) = parts.pop() else {
        return Ok(());
    };
    let by = part.last(parts.len());
    part.isolations.push(Isolation {
        by,
        place: head.place,
        budget: head.budget,
        visits: head.visits,
        freed: head.freed,
        ending: head.ending,
    })?;
    parts.push(part)?;
    Ok(())
}

/// A walk of the pools of the last answer.
pub fn take_plain(alloc: Global, parts: &mut Vec<PartDraft>, head: PlainHead) -> Result<(), Memory>
    ensures { IfOk result (λ _. drafted_parts parts.new.items
        ≡ with_plain head (drafted_parts parts.old.items)) }
{
    let Some(mut part) = parts.pop() else {
        return Ok(());
    };
    let by = part.last(parts.len());
    part.plain.push(PlainDraft {
        by,
        head,
        tries: Vec::new(alloc),
    })?;
    parts.push(part)?;
    Ok(())
}

// What the last of these walks of the pools came to at another pool.
fn pass_last(walks: &mut Vec<PlainDraft>, came: PlainTry) -> Result<(), Memory>
    ensures { IfOk result (λ _. plains_of walks.new.items
        ≡ with_last (passed_walk came) (plains_of walks.old.items)) }
{
    let Some(mut walk) = walks.pop() else {
        return Ok(());
    };
    walk.tries.push(came)?;
    walks.push(walk)?;
    Ok(())
}

/// What the last walk of the pools came to at another pool.
pub fn take_pass(parts: &mut Vec<PartDraft>, came: PlainTry) -> Result<(), Memory>
    ensures { IfOk result (λ _. drafted_parts parts.new.items
        ≡ with_pass came (drafted_parts parts.old.items)) }
{
    let Some(mut part) = parts.pop() else {
        return Ok(());
    };
    pass_last(&mut part.plain, came)?;
    parts.push(part)?;
    Ok(())
}
