// SPDX-License-Identifier: GPL-2.0-only
//! Once a worker was shown that a group is offline, its later commands there find it so.

ghost use Rattle.std.specs.Prelude.{◌≡◌, ◌∷◌, [], ◌++◌, List, option_and_then, option_copied, IfOk, OnOk};
ghost use Rattle.std.specs.Bool.{Decides};
ghost use Rattle.std.specs.Option.{IsSomeAnd};
ghost use Rattle.shr_base.specs.Walks.{WalkRecord};
ghost use Rattle.shr_model.specs.Commands.{asks_online};
ghost use Rattle.shr_laws.specs.Freshness.{MayBeOffline};
ghost use Rattle.shr_laws.specs.Parts.{reply_at, serial_of, walks_of};
ghost use Rattle.shr_audit_fresh.specs.Firsts.{AreLeastOfGroups, HasNoFirsts};
ghost use Rattle.shr_audit_fresh.specs.Worker.{IsWorkerRefused, IsRefusedAt, ShownByWalks, ShownOffline, is_first_before};

use crate::firsts::{first_of, no_firsts, note};
use crate::shown::offline_at;
use crate::told::{cited_by, walk_cited, walks_of};
use shr_audit_replies::numbers::{answer_of, command_of, count_answers, count_commands};
use shr_base::memory::Memory;
use shr_base::replies::Reply;
use shr_base::scripts::{Command, Script};
use shr_base::walks::WalkRecord;
use shr_laws::report::Report;
use std::alloc::Global;
use std::collections::HashMap;

// The group at which a command asks first whether it is online.
fn asks_online(command: Option<&Command>) -> Option<u16>
    ensures { result ≡ option_and_then asks_online (option_copied command.entry) }
{
    match command {
        Some(Command::Put { at, .. }) => Some(at.group),
        Some(Command::On { at, .. }) => Some(at.group),
        Some(Command::Shrink { group, .. }) => Some(*group),
        _ => None,
    }
}

// Whether a command at a group that is known to be offline may be answered so.
fn may_be_offline(reply: &Reply) -> bool
    ensures { Decides result (MayBeOffline reply.now) }
{
    match reply {
        Reply::Offline { .. } => true,
        Reply::Worn { .. } => true,
        Reply::Memory => true,
        Reply::WalkMemory { .. } => true,
        _ => false,
    }
}

// Whether the command with this number was.
fn may_be_offline_at(report: &Report, worker: usize, number: usize) -> bool
    ensures { Decides result
        (IsSomeAnd (reply_at report.now (serial_of worker number)) MayBeOffline) }
{
    match answer_of(report, worker, number) {
        Some(answer) => may_be_offline(&answer.reply),
        None => false,
    }
}

// Whether there is a command, and it is before another.
fn is_before(first: Option<usize>, number: usize) -> bool
    ensures { result ≡ is_first_before first number }
{
    match first {
        Some(first) => first < number,
        None => false,
    }
}

// Notes what each answer of a worker shows to be offline.
fn note_answers(
    firsts: &mut HashMap<u16, usize>,
    report: &Report,
    worker: usize,
) -> Result<(), Memory>
    ensures { OnOk result (HasNoFirsts firsts.old
        → AreLeastOfGroups (ShownByWalks report.now worker []) firsts.new) }
{
    for number in 0..count_answers(report, worker) {
        let group = offline_at(report, cited_by(report, worker, number));
        note(firsts, group, number)?;
    }
    Ok(())
}

// Notes what a walk of a worker does.
fn note_walk(
    firsts: &mut HashMap<u16, usize>,
    report: &Report,
    worker: usize,
    walk: &WalkRecord,
) -> Result<(), Memory>
    ensures { OnOk result ((before : List WalkRecord)
        → AreLeastOfGroups (ShownByWalks report.now worker before) firsts.old
        → AreLeastOfGroups (ShownByWalks report.now worker (before ++ walk.now ∷ [])) firsts.new) }
{
    let by = walk.by.worker as usize;
    if by != worker {
        return Ok(());
    }
    let group = offline_at(report, walk_cited(&walk.answer()));
    note(firsts, group, walk.by.command as usize)?;
    Ok(())
}

// Notes what each does.
fn note_walks(
    firsts: &mut HashMap<u16, usize>,
    report: &Report,
    worker: usize,
) -> Result<(), Memory>
    ensures { OnOk result (AreLeastOfGroups (ShownByWalks report.now worker []) firsts.old
        → AreLeastOfGroups (ShownByWalks report.now worker (walks_of report.now worker))
        firsts.new) }
{
    for walk in walks_of(report, worker) {
        note_walk(firsts, report, worker, walk)?;
    }
    Ok(())
}

// The groups that are shown to a worker to be offline, each with the first command that does.
fn offline_firsts(
    alloc: Global,
    report: &Report,
    worker: usize,
) -> Result<HashMap<u16, usize>, Memory>
    ensures { IfOk result (λ firsts. AreLeastOfGroups (ShownOffline report.now worker) firsts) }
{
    let mut firsts = no_firsts(alloc);
    note_answers(&mut firsts, report, worker)?;
    note_walks(&mut firsts, report, worker)?;
    Ok(firsts)
}

// Whether the command with this number finds a group offline that was shown to be before.
fn is_refused_at(
    script: &Script,
    report: &Report,
    worker: usize,
    firsts: &HashMap<u16, usize>,
    number: usize,
) -> bool
    requires { AreLeastOfGroups (ShownOffline report.now worker) firsts.now }
    ensures { Decides result (IsRefusedAt script.now report.now worker number) }
{
    let Some(group) = asks_online(command_of(script, worker, number)) else {
        return true;
    };
    if !is_before(first_of(firsts, group), number) {
        return true;
    }
    may_be_offline_at(report, worker, number)
}

/// Whether each command of a worker does.
pub(crate) fn is_refused(
    alloc: Global,
    script: &Script,
    report: &Report,
    worker: usize,
) -> Result<bool, Memory>
    ensures { IfOk result (λ b. Decides b (IsWorkerRefused script.now report.now worker)) }
{
    let firsts = offline_firsts(alloc, report, worker)?;
    for number in 0..count_commands(script, worker) {
        if !is_refused_at(script, report, worker, &firsts, number) {
            return Ok(false);
        }
    }
    Ok(true)
}
