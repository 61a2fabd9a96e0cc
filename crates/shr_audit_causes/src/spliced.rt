// SPDX-License-Identifier: GPL-2.0-only
//! The groups whose lists an `offline` may have spliced and told of none.

ghost use Rattle.std.specs.Prelude.{◌≡◌, ℕ, ◌↔◌, Some, replicate, false, IfOk};
ghost use Rattle.std.specs.Bool.{Decides};
ghost use Rattle.shr_base.specs.declared.scripts.Command.TheVariants.{Offline};
ghost use Rattle.shr_laws.specs.Causes.{IsOffline, MayHaveSpliced};
ghost use Rattle.shr_laws.specs.Parts.{serial_of};
ghost use Rattle.shr_audit_causes.specs.Spliced.{HasSplicedGroups, NotesWorkerSpliced, with_spliced_group};

use shr_audit_replies::numbers::{answer_of, command_of, count_answers};
use shr_base::memory::Memory;
use shr_base::replies::Reply;
use shr_base::scripts::{Command, Script};
use shr_laws::report::Report;
use std::alloc::Global;

// Whether an `offline` that was answered so may have spliced lists and told of none.
fn may_have_spliced(reply: &Reply) -> bool
    ensures { Decides result (MayHaveSpliced reply.now) }
{
    match reply {
        Reply::AlreadyDone { .. } => true,
        Reply::Worn { .. } => true,
        Reply::Memory => true,
        _ => false,
    }
}

// The group that a command takes offline.
fn offlined(command: &Command) -> Option<u16>
    ensures { (group : ℕ) → (command.now ≡ Offline group) ↔ (result ≡ Some group) }
{
    match command {
        Command::Offline { group } => Some(*group),
        _ => None,
    }
}

// The group whose lists the command with this number may have spliced.
fn splices_at(script: &Script, report: &Report, worker: usize, number: usize) -> Option<u16>
    ensures { (group : ℕ) → IsOffline script.now report.now (serial_of worker number) group
        MayHaveSpliced ↔ (result ≡ Some group) }
{
    let Some(command) = command_of(script, worker, number) else {
        return None;
    };
    let Some(answer) = answer_of(report, worker, number) else {
        return None;
    };
    if !may_have_spliced(&answer.reply) {
        return None;
    }
    offlined(command)
}

// Notes a group.
fn note(spliced: &mut Vec<bool>, group: Option<u16>)
    ensures { spliced.new.items ≡ with_spliced_group group spliced.old.items }
{
    let Some(group) = group else {
        return;
    };
    let group = group as usize;
    if group < spliced.len() {
        spliced[group] = true;
    }
}

// None of so many groups.
fn nothing(alloc: Global, count: usize) -> Result<Vec<bool>, Memory>
    ensures { IfOk result (λ v. v.items ≡ replicate count false) }
{
    Ok(vec![in alloc; false; count]?)
}

// Notes the groups of a worker's commands.
fn note_worker(spliced: &mut Vec<bool>, script: &Script, report: &Report, worker: usize)
    ensures { NotesWorkerSpliced script.now report.now worker spliced.old.items spliced.new.items }
{
    for number in 0..count_answers(report, worker) {
        let group = splices_at(script, report, worker, number);
        note(spliced, group);
    }
}

/// The groups, of 65,536, whose lists an `offline` may have spliced and told of none.
pub(crate) fn spliced_of(
    alloc: Global,
    script: &Script,
    report: &Report,
) -> Result<Vec<bool>, Memory>
    ensures { IfOk result (λ spliced. HasSplicedGroups script.now report.now spliced.items) }
{
    let mut spliced = nothing(alloc, 65536)?;
    for worker in 0..report.workers.len() {
        note_worker(&mut spliced, script, report, worker);
    }
    Ok(spliced)
}
