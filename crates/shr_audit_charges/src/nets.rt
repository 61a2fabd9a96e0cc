// SPDX-License-Identifier: GPL-2.0-only
//! What each command charged and freed: whether its operations in each group come to that.

ghost use Rattle.std.specs.Prelude.{◌≡◌, ◌<◌, ◌≤◌, ◌^◌, ◌++◌, flat_map, length, OnOk, IfOk};
ghost use Rattle.std.specs.Bool.{Decides};
ghost use Rattle.std.specs.List.{AllByRecursion};
ghost use Rattle.shr_base.specs.declared.ends.PlaceEnd.{PlaceEnd};
ghost use Rattle.shr_base.specs.declared.journals.UseStep.{UseStep};
ghost use Rattle.shr_audit_case.specs.Lists.{IsCaseOf, IsReplayOf};
ghost use Rattle.shr_model.specs.Trees.{IsTree};
ghost use Rattle.shr_laws.specs.Numbers.{HasNumbers};
ghost use Rattle.shr_laws.specs.Parts.{answer_at, entry_by, parents_of, scanning_command};
ghost use Rattle.shr_audit_charges.specs.Nets.{AreWorkersFew, AreNets, answer_keys, by_keys, charge_keys, commands_keys, freeing_command, freed_keys, isolation_by, place_keys, workers_keys};

use crate::balance::are_balanced;
use crate::climb::note_path;
use crate::uses::{note_downs, note_ups};
use shr_audit_case::case::Case;
use shr_audit_case::places::journal_at;
use shr_audit_case::serials::{answer_at, walk_at};
use shr_audit_case::tags::FreedTag;
use shr_base::ends::PlaceEnd;
use shr_base::journals::Entry;
use shr_base::memory::Memory;
use shr_base::places::Serial;
use shr_base::replies::Reply;
use shr_base::scripts::{Command, Script, WorkerScript};
use shr_laws::report::Report;
use std::alloc::Global;

// The command of the walk or the isolation with this number in a Scan entry.
fn scan_by(report: &Report, worker: u16, n: u64) -> Option<Serial>
    ensures { result ≡ scanning_command report.now worker n }
{
    if n < 0x8000_0000_0000_0000 {
        match walk_at(report, worker, n) {
            Some(walk) => Some(walk.by),
            None => None,
        }
    } else {
        isolation_by(report, worker, n - 0x8000_0000_0000_0000)
    }
}

// The command of an isolation by the number of its worker and its own.
fn isolation_by(report: &Report, worker: u16, k: u64) -> Option<Serial>
    ensures { result ≡ isolation_by report.now worker k }
{
    match report.workers.get(worker as usize) {
        Some(part) => match part.isolations.get(k as usize) {
            Some(isolation) => Some(isolation.by),
            None => None,
        },
        None => None,
    }
}

// The command of an entry.
fn entry_by(report: &Report, entry: &Entry) -> Option<Serial>
    ensures { result ≡ entry_by report.now entry.now }
{
    match entry {
        Entry::Add { by, .. } => Some(*by),
        Entry::Look { by, .. } => Some(*by),
        Entry::Drop { by, .. } => Some(*by),
        Entry::Pin { by, .. } => Some(*by),
        Entry::Scan { worker, walk, .. } => scan_by(report, *worker, *walk),
        Entry::MovedIn { .. } => None,
        Entry::Closed => None,
        Entry::Drained { by, .. } => Some(*by),
    }
}

// The command of the entry with this number, if there is one.
fn freed_by(report: &Report, entries: &[Entry], entry: usize) -> Option<Serial>
    ensures { result ≡ freeing_command report.now entries.now entry }
{
    match entries.get(entry) {
        Some(entry) => entry_by(report, entry),
        None => None,
    }
}

// Adds a command in each group at or above another, if there is a command.
fn note_by(
    keys: &mut Vec<u64>,
    parents: &[u16],
    by: Option<Serial>,
    birth: u16,
) -> Result<(), Memory>
    requires { IsTree parents.now }
    ensures { OnOk result (keys.new.items ≡ keys.old.items ++ by_keys parents.now by birth) }
{
    if let Some(by) = by {
        note_path(keys, parents, birth, by)?;
    }
    Ok(())
}

// Adds the command that freed an object in each group at or above the object's own.
fn note_tag(
    keys: &mut Vec<u64>,
    parents: &[u16],
    report: &Report,
    entries: &[Entry],
    tag: FreedTag,
) -> Result<(), Memory>
    requires { IsTree parents.now }
    ensures { OnOk result (keys.new.items
        ≡ keys.old.items ++ freed_keys parents.now report.now entries.now tag) }
{
    let by = freed_by(report, entries, tag.entry);
    note_by(keys, parents, by, tag.tag.birth)?;
    Ok(())
}

// Adds the command that freed each of these objects in each group at or above its own.
fn note_freed(
    keys: &mut Vec<u64>,
    parents: &[u16],
    report: &Report,
    entries: &[Entry],
    tags: &[FreedTag],
) -> Result<(), Memory>
    requires { IsTree parents.now }
    ensures { OnOk result (keys.new.items
        ≡ keys.old.items ++ flat_map (freed_keys parents.now report.now entries.now) tags.now) }
{
    for tag in tags {
        note_tag(keys, parents, report, entries, *tag)?;
    }
    Ok(())
}

// The same of the objects that were freed from each of these lists.
fn note_lists(
    keys: &mut Vec<u64>,
    case: &Case,
    report: &Report,
    ends: &[PlaceEnd],
) -> Result<(), Memory>
    requires tree { IsTree case.now.parents.items }
    requires replay { IsReplayOf report.now case.now }
    ensures { OnOk result (keys.new.items ≡ keys.old.items ++ flat_map (λ (end : PlaceEnd).
        place_keys case.now.parents.items report.now end.place) ends.now) }
{
    for end in ends {
        let entries = journal_at(report, end.place);
        let tags = case.freed(report, end.place);
        note_freed(keys, case.parents.as_slice(), report, entries, tags)?;
    }
    Ok(())
}

// Adds a command in each group that it charged: of a put answered Added.
fn note_charge(
    keys: &mut Vec<u64>,
    parents: &[u16],
    by: Serial,
    command: &Command,
    reply: &Reply,
) -> Result<(), Memory>
    requires { IsTree parents.now }
    ensures { OnOk result (keys.new.items
        ≡ keys.old.items ++ charge_keys parents.now by command.now reply.now) }
{
    match command {
        Command::Put { at, .. } => match reply {
            Reply::Added { .. } => note_path(keys, parents, at.group, by),
            _ => Ok(()),
        },
        _ => Ok(()),
    }
}

// The same if the command was answered.
fn note_answer(
    keys: &mut Vec<u64>,
    parents: &[u16],
    report: &Report,
    by: Serial,
    command: &Command,
) -> Result<(), Memory>
    requires { IsTree parents.now }
    ensures { OnOk result (keys.new.items
        ≡ keys.old.items ++ answer_keys parents.now by command.now (answer_at report.now by)) }
{
    match answer_at(report, by) {
        Some(answer) => note_charge(keys, parents, by, command, &answer.reply),
        None => Ok(()),
    }
}

// The same of each command of a worker.
fn note_commands(
    keys: &mut Vec<u64>,
    parents: &[u16],
    report: &Report,
    worker: u16,
    commands: &[Command],
) -> Result<(), Memory>
    requires tree { IsTree parents.now }
    requires few { length commands.now ≤ 2 ^ 32 }
    ensures { OnOk result (keys.new.items
        ≡ keys.old.items ++ commands_keys parents.now report.now worker 0 commands.now) }
{
    for number in 0..commands.len() {
        let by = Serial {
            worker,
            command: number as u32,
        };
        note_answer(keys, parents, report, by, &commands[number])?;
    }
    Ok(())
}

// The same of each of these workers.
fn note_workers(
    keys: &mut Vec<u64>,
    parents: &[u16],
    report: &Report,
    workers: &[WorkerScript],
) -> Result<(), Memory>
    requires tree { IsTree parents.now }
    requires few { AreWorkersFew workers.now }
    ensures { OnOk result (keys.new.items
        ≡ keys.old.items ++ workers_keys parents.now report.now 0 workers.now) }
{
    for worker in 0..workers.len() {
        let commands = workers[worker].commands.as_slice();
        note_commands(keys, parents, report, worker as u16, commands)?;
    }
    Ok(())
}

/// Whether in each group that is there the operations of each command come to what it charged less
/// what it freed. It sorts the operations and what they are compared with once, and for an object
/// climbs from its group to the root.
pub fn are_nets(
    alloc: Global,
    case: &Case,
    script: &Script,
    report: &Report,
) -> Result<bool, Memory>
    requires case { IsCaseOf script.now report.now case.now }
    requires tree { IsTree (parents_of script.now) }
    requires few { AreWorkersFew script.now.workers.items }
    requires numbers { HasNumbers report.now }
    requires there { AllByRecursion (λ (o : UseStep).
        o.group < length (parents_of script.now)) report.now.uses.items }
    ensures { IfOk result (λ b. Decides b (AreNets script.now report.now)) }
{
    let uses = report.uses.as_slice();
    let mut ups = Vec::new(alloc);
    note_ups(&mut ups, uses, true)?;
    note_lists(&mut ups, case, report, report.places.as_slice())?;
    let mut downs = Vec::new(alloc);
    note_downs(&mut downs, uses, true)?;
    let workers = script.workers.as_slice();
    note_workers(&mut downs, case.parents.as_slice(), report, workers)?;
    let balanced = are_balanced(alloc, ups.as_slice(), downs.as_slice())?;
    Ok(balanced)
}
