// SPDX-License-Identifier: GPL-2.0-only
//! Answers to an `offline` that was done, against what they came from.

ghost use Rattle.std.specs.Prelude.{ℕ, ◌<◌, length, IfOk};
ghost use Rattle.std.specs.Bool.{Decides};
ghost use Rattle.shr_audit_case.specs.Places.{AreInOrder};
ghost use Rattle.shr_model.specs.Trees.{IsTree};
ghost use Rattle.shr_laws.specs.Parts.{parents_of};
ghost use Rattle.shr_audit_causes.specs.Carried.{IsCarriedOf};
ghost use Rattle.shr_audit_causes.specs.OfflineRows.{AreOfflineNotes, IsSoleSplicer, IsCarriedSo, IsOfflineCausedAt, IsMoveRight, IsMovedSo};

use crate::above::{Whose, above_of, is_only};
use crate::carried::carried_of;
use crate::moved::moved_of;
use crate::spliced::spliced_of;
use shr_audit_reasons::tree::is_done_of;
use shr_audit_replies::numbers::{answer_of, command_of, count_answers};
use shr_audit_rows::named::group_named;
use shr_base::memory::Memory;
use shr_base::replies::Reply;
use shr_base::scripts::Script;
use shr_laws::report::Report;
use std::alloc::Global;

/// What is noted once of a script and a report: by groups, how many objects were moved from each,
/// whether an `offline` may have spliced its lists and told of none, and which workers may have begun
/// the offlining of a group above it.
#[derive(Drop)]
pub(crate) struct Notes {
    moved: Vec<u128>,
    spliced: Vec<bool>,
    above: Vec<Whose>,
}

/// Notes it.
pub(crate) fn noted(alloc: Global, script: &Script, report: &Report) -> Result<Notes, Memory>
    requires tree { IsTree (parents_of script.now) }
    requires order { AreInOrder report.now.places.items }
    ensures { IfOk result (λ n. AreOfflineNotes script.now report.now n) }
{
    let moved = moved_of(alloc, report)?;
    let spliced = spliced_of(alloc, script, report)?;
    let above = above_of(alloc, script, report)?;
    Ok(Notes {
        moved,
        spliced,
        above,
    })
}

// Whether nobody but a command of a worker that was done can have spliced lists of a group.
fn is_alone(script: &Script, report: &Report, notes: &Notes, worker: usize, group: u16) -> bool
    requires { AreOfflineNotes script.now report.now notes.now }
    ensures { Decides result (IsSoleSplicer script.now report.now worker group) }
{
    if notes.spliced[group as usize] {
        return false;
    }
    is_only(notes.above[group as usize], worker)
}

// Whether no more objects were moved than the lists say, and all of these where nobody else can have
// moved some.
fn is_move_right(
    script: &Script,
    report: &Report,
    notes: &Notes,
    worker: usize,
    group: u16,
    moved: u64,
) -> bool
    requires { AreOfflineNotes script.now report.now notes.now }
    ensures { Decides result (IsMoveRight script.now report.now worker group moved) }
{
    let whole = notes.moved[group as usize];
    let told = moved as u128;
    if told == whole {
        return true;
    }
    if told > whole {
        return false;
    }
    !is_alone(script, report, notes, worker, group)
}

// Whether a reply, if it is one that an offlining was done, cites its Done and says how many objects
// were moved.
fn is_moved_so(
    script: &Script,
    report: &Report,
    notes: &Notes,
    worker: usize,
    group: Option<u16>,
    reply: &Reply,
) -> bool
    requires { AreOfflineNotes script.now report.now notes.now }
    ensures { Decides result (IsMovedSo script.now report.now worker group reply.now) }
{
    let Reply::OfflineDone { entry, moved, .. } = reply else {
        return true;
    };
    let Some(group) = group else {
        return false;
    };
    if !is_done_of(report, *entry, group) {
        return false;
    }
    is_move_right(script, report, notes, worker, group, *moved)
}

// Whether such a reply says how much was carried.
fn is_carried_so(
    report: &Report,
    carried: &Vec<u64>,
    worker: usize,
    number: usize,
    reply: &Reply,
) -> bool
    requires carried { IsCarriedOf report.now worker carried.now.items }
    requires there { number < length carried.now.items }
    ensures { Decides result (IsCarriedSo report.now worker number reply.now) }
{
    match reply {
        Reply::OfflineDone { deferred, .. } => *deferred == carried[number],
        _ => true,
    }
}

// Whether the answer with this number has its cause, if it is one that an offlining was done.
fn is_caused_at(
    script: &Script,
    report: &Report,
    notes: &Notes,
    carried: &Vec<u64>,
    worker: usize,
    number: usize,
) -> bool
    requires notes { AreOfflineNotes script.now report.now notes.now }
    requires carried { IsCarriedOf report.now worker carried.now.items }
    ensures { Decides result (IsOfflineCausedAt script.now report.now worker number) }
{
    let Some(command) = command_of(script, worker, number) else {
        return true;
    };
    let Some(answer) = answer_of(report, worker, number) else {
        return true;
    };
    if !is_carried_so(report, carried, worker, number, &answer.reply) {
        return false;
    }
    let group = group_named(command);
    is_moved_so(script, report, notes, worker, group, &answer.reply)
}

// Whether each answer of a worker has.
fn is_worker_caused(
    alloc: Global,
    script: &Script,
    report: &Report,
    notes: &Notes,
    worker: usize,
) -> Result<bool, Memory>
    requires { AreOfflineNotes script.now report.now notes.now }
    ensures { IfOk result (λ b. Decides b ((k : ℕ)
        → IsOfflineCausedAt script.now report.now worker k)) }
{
    let carried = carried_of(alloc, report, worker)?;
    for number in 0..count_answers(report, worker) {
        if !is_caused_at(script, report, notes, &carried, worker, number) {
            return Ok(false);
        }
    }
    Ok(true)
}

/// Whether each answer has.
pub(crate) fn are_caused(
    alloc: Global,
    script: &Script,
    report: &Report,
    notes: &Notes,
) -> Result<bool, Memory>
    requires { AreOfflineNotes script.now report.now notes.now }
    ensures { IfOk result (λ b. Decides b ((worker k : ℕ)
        → IsOfflineCausedAt script.now report.now worker k)) }
{
    for worker in 0..report.workers.len() {
        let caused = is_worker_caused(alloc, script, report, notes, worker)?;
        if !caused {
            return Ok(false);
        }
    }
    Ok(true)
}
