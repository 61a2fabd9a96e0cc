// SPDX-License-Identifier: GPL-2.0-only
//! Replies, row by row, against what they came from.

ghost use Rattle.std.specs.Prelude.{ℕ, ◌<◌, length, IfOk};
ghost use Rattle.std.specs.Bool.{Decides};
ghost use Rattle.std.specs.Option.{IsSomeAnd};
ghost use Rattle.shr_audit_case.specs.Places.{AreInOrder};
ghost use Rattle.shr_laws.specs.Causes.{IsInTheWay};
ghost use Rattle.shr_laws.specs.Parts.{EachAnswer};
ghost use Rattle.shr_audit_rows.specs.Rows.{AreFew, AreRowNotes, HasCauseButEnds, HasCountCause, HasStateCause, IsCausedAt, IsOverSo};

use crate::children::Moments;
use crate::groups::{is_begin_there, is_done_there, is_made_there, is_root, is_unmade};
use crate::known::are_declarations_so;
use crate::named::{decl_named, group_met, group_named};
use crate::registered::is_registered;
use crate::tried::{Refused, Tries, is_over, tries_of};
use crate::worn::is_used_up;
use shr_audit_reasons::counted::Counted;
use shr_audit_replies::numbers::{answer_of, command_of, count_answers};
use shr_base::memory::Memory;
use shr_base::places::Serial;
use shr_base::replies::Reply;
use shr_base::scripts::{Command, Script};
use shr_laws::report::Report;
use std::alloc::Global;

/// What is noted once of a script and a report.
#[derive(Drop)]
pub struct Notes {
    pub counted: Counted,
    pub tries: Tries,
    pub moments: Moments,
}

impl Notes {
    /// Notes it.
    pub fn of(alloc: Global, script: &Script, report: &Report) -> Result<Notes, Memory>
        ensures { IfOk result (λ n. AreRowNotes script.now report.now n) }
    {
        let counted = Counted::of(alloc, script, report)?;
        let tries = tries_of(alloc, report)?;
        let moments = Moments::of(alloc, script, report)?;
        Ok(Notes {
            counted,
            tries,
            moments,
        })
    }
}

// Whether an Over to a command at a group has its cause.
fn is_over_so(
    script: &Script,
    report: &Report,
    notes: &Notes,
    by: Serial,
    group: Option<u16>,
    refused: Refused,
) -> bool
    requires { AreRowNotes script.now report.now notes.now }
    ensures { Decides result (IsOverSo script.now report.now by group refused.group
        refused.operation refused.usage) }
{
    match group {
        Some(own) => is_over(script, report, &notes.tries, by, own, refused),
        None => false,
    }
}

// Whether a child is in the way of an offlining of a group.
fn is_way_so(
    script: &Script,
    report: &Report,
    notes: &Notes,
    group: Option<u16>,
    child: u16,
    entry: u32,
) -> bool
    requires { AreRowNotes script.now report.now notes.now }
    ensures { Decides result (IsSomeAnd group (λ g. IsInTheWay script.now report.now g child
        entry)) }
{
    match group {
        Some(group) => notes
            .moments
            .is_in_the_way(script, report, group, child, entry),
        None => false,
    }
}

// Whether a reply that speaks of a group's state has its cause, or is another one.
fn is_state_caused(script: &Script, report: &Report, command: &Command, reply: &Reply) -> bool
    ensures { Decides result (HasStateCause script.now report.now command.now reply.now) }
{
    let met = group_met(script, command);
    let named = group_named(command);
    match reply {
        Reply::Offline { entry } => is_begin_there(report, met, *entry),
        Reply::NotMade { group } => is_unmade(script, met, *group),
        Reply::Made { entry } => is_made_there(report, named, *entry),
        Reply::AlreadyMade { entry } => is_made_there(report, named, *entry),
        Reply::AlreadyDone { entry } => is_done_there(report, named, *entry),
        Reply::Root => is_root(named),
        _ => true,
    }
}

// Whether one that speaks of a counter, a charge, a child or a registration has.
fn is_count_caused(
    script: &Script,
    report: &Report,
    notes: &Notes,
    by: Serial,
    command: &Command,
    reply: &Reply,
) -> bool
    requires order { AreInOrder report.now.places.items }
    requires notes { AreRowNotes script.now report.now notes.now }
    requires there { by.worker < length report.now.workers.items }
    ensures { Decides result (HasCountCause script.now report.now by command.now reply.now) }
{
    let named = group_named(command);
    let decl = decl_named(command);
    match reply {
        Reply::Over {
            group,
            operation,
            usage,
        } => {
            let refused = Refused {
                group: *group,
                operation: *operation,
                usage: *usage,
            };
            is_over_so(script, report, notes, by, named, refused)
        }
        Reply::Worn { spent } => is_used_up(script, report, &notes.counted, by, command, *spent),
        Reply::HasChildren { child, entry } => {
            is_way_so(script, report, notes, named, *child, *entry)
        }
        Reply::Registered { id, entry } => is_registered(report, decl, *id, *entry),
        _ => true,
    }
}

// Whether the answer with this number has its cause, but for what it says of declarations.
fn is_caused_at(
    script: &Script,
    report: &Report,
    notes: &Notes,
    worker: usize,
    number: usize,
) -> bool
    requires few { AreFew script.now.workers.items }
    requires order { AreInOrder report.now.places.items }
    requires notes { AreRowNotes script.now report.now notes.now }
    ensures { Decides result (IsCausedAt script.now report.now worker number) }
{
    let Some(command) = command_of(script, worker, number) else {
        return true;
    };
    let Some(answer) = answer_of(report, worker, number) else {
        return true;
    };
    let by = Serial {
        worker: worker as u16,
        command: number as u32,
    };
    if !is_state_caused(script, report, command, &answer.reply) {
        return false;
    }
    is_count_caused(script, report, notes, by, command, &answer.reply)
}

// Whether each answer of a worker has.
fn is_worker_caused(script: &Script, report: &Report, notes: &Notes, worker: usize) -> bool
    requires few { AreFew script.now.workers.items }
    requires order { AreInOrder report.now.places.items }
    requires notes { AreRowNotes script.now report.now notes.now }
    ensures { Decides result ((k : ℕ) → IsCausedAt script.now report.now worker k) }
{
    for number in 0..count_answers(report, worker) {
        if !is_caused_at(script, report, notes, worker, number) {
            return false;
        }
    }
    true
}

// Whether each answer has.
fn are_caused(script: &Script, report: &Report, notes: &Notes) -> bool
    requires few { AreFew script.now.workers.items }
    requires order { AreInOrder report.now.places.items }
    requires notes { AreRowNotes script.now report.now notes.now }
    ensures { Decides result ((worker k : ℕ) → IsCausedAt script.now report.now worker k) }
{
    for worker in 0..report.workers.len() {
        if !is_worker_caused(script, report, notes, worker) {
            return false;
        }
    }
    true
}

/// Whether each answer to a command of the script has its cause in the report, but for those of an
/// `unregister` that drained and of an `offline` that was done. `Memory` is want of memory alone.
pub fn are_rows_caused_but_ends(
    alloc: Global,
    script: &Script,
    report: &Report,
) -> Result<bool, Memory>
    requires few { AreFew script.now.workers.items }
    requires order { AreInOrder report.now.places.items }
    ensures { IfOk result (λ b. Decides b (EachAnswer script.now report.now
        (λ by c a. HasCauseButEnds script.now report.now by c a.reply))) }
{
    let notes = Notes::of(alloc, script, report)?;
    if !are_caused(script, report, &notes) {
        return Ok(false);
    }
    let declared = are_declarations_so(alloc, script, report)?;
    Ok(declared)
}
