// SPDX-License-Identifier: GPL-2.0-only
//! The walks that each command was to make.

ghost use Rattle.std.specs.Prelude.{◌≡◌, ◌<◌, ◌≤◌, ◌^◌, ℕ, length, IfOk};
ghost use Rattle.std.specs.Bool.{Decides};
ghost use Rattle.std.specs.List.{AllByRecursion};
ghost use Rattle.shr_audit_walks.specs.declared.refusals.Refusal.{Refusal};
ghost use Rattle.shr_audit_passes.specs.Commands.{StandByCommand};
ghost use Rattle.shr_model.specs.Trees.{IsTree};
ghost use Rattle.shr_laws.specs.Numbers.{HasNumbers};
ghost use Rattle.shr_laws.specs.Parts.{EachAnswer, commands_of, parents_of};
ghost use Rattle.shr_laws.specs.WalksLawful.{AreWalksOf};
ghost use Rattle.shr_laws.specs.WellFormed.{IsWellFormed};
ghost use Rattle.shr_audit_walks.specs.Commands.{AreDues, CanBeDue, IsAnswerMade, IsCommandMade, IsPartMade};
ghost use Rattle.shr_audit_walks.specs.Refusals.{refused_groups};
ghost use Rattle.shr_audit_walks.specs.RoundRows.{jobs_made};

use crate::orders::Subtrees;
use crate::puts::{is_put_made, is_whole};
use crate::refusals::{Refusal, refusals_by, refusals_of};
use crate::round_rows::{Control, is_row_made};
use shr_audit_case::serials::parents_of;
use shr_audit_passes::commands::walks_of;
use shr_base::ends::WorkerPart;
use shr_base::memory::Memory;
use shr_base::places::Serial;
use shr_base::replies::Reply;
use shr_base::scripts::{Command, Script};
use shr_base::walks::WalkRecord;
use shr_laws::report::Report;
use std::alloc::Global;

/// What the walks of commands are due by: the nodes, the groups, and the charges that were refused,
/// in the order of their commands.
#[derive(Drop)]
pub struct Dues {
    pub nodes: u8,
    pub subtrees: Subtrees,
    pub refusals: Vec<Refusal>,
}

// What the walks of the commands of a report are due by.
fn dues_of(alloc: Global, script: &Script, report: &Report) -> Result<Dues, Memory>
    requires tree { IsTree (parents_of script.now) }
    requires few { length (parents_of script.now) ≤ 65536 }
    requires nodes { 0 < script.now.nodes }
    ensures { IfOk result (λ dues. AreDues script.now report.now.uses.items dues) }
{
    let parents = parents_of(alloc, script)?;
    let subtrees = Subtrees::of(alloc, parents)?;
    let refusals = refusals_of(alloc, script, report.uses.as_slice())?;
    Ok(Dues {
        nodes: script.nodes,
        subtrees,
        refusals,
    })
}

/// Whether a command that was answered so, and of which these charges were refused, made the walks
/// that were due.
pub fn is_command_made(
    alloc: Global,
    dues: &Dues,
    refusals: &[Refusal],
    command: &Command,
    reply: &Reply,
    walks: &[WalkRecord],
) -> Result<bool, Memory>
    requires dues { CanBeDue dues.now }
    requires there { AllByRecursion (λ (x : Refusal). x.group < length
        dues.now.subtrees.parents.items) refusals.now }
    ensures { IfOk result (λ b. Decides b (IsCommandMade dues.now.subtrees.parents.items
        dues.now.nodes (refused_groups refusals.now) command.now reply.now (jobs_made walks.now))) }
{
    let whole = is_whole(reply);
    match command {
        Command::Put { at, .. } => is_put_made(alloc, dues, at.group, reply, refusals, walks),
        Command::Shrink {
            group,
            node,
            priority,
            nofs,
        } => {
            let control = Control {
                node: *node,
                priority: *priority,
                nofs: *nofs,
            };
            Ok(is_row_made(walks, &[*group], control, whole))
        }
        Command::Balance {
            node,
            priority,
            nofs,
        } => {
            let control = Control {
                node: *node,
                priority: *priority,
                nofs: *nofs,
            };
            Ok(is_row_made(walks, dues.subtrees.order(0), control, whole))
        }
        _ => Ok(walks.is_empty()),
    }
}

// Whether the command of a worker with this number did.
fn is_answer_made(
    alloc: Global,
    dues: &Dues,
    by: Serial,
    command: &Command,
    reply: &Reply,
    walks: &[WalkRecord],
) -> Result<bool, Memory>
    requires dues { CanBeDue dues.now }
    requires stand { StandByCommand walks.now }
    ensures { IfOk result (λ b. Decides b (IsAnswerMade dues.now by walks.now command.now
        reply.now)) }
{
    let refusals = refusals_by(dues.refusals.as_slice(), by);
    let own = walks_of(walks, by.command as usize);
    let made = is_command_made(alloc, dues, refusals, command, reply, own)?;
    Ok(made)
}

// The commands of a worker, none past the last worker.
fn commands_of(script: &Script, worker: usize) -> &[Command]
    ensures { result.now ≡ commands_of script.now worker }
{
    match script.workers.get(worker) {
        Some(worker) => worker.commands.as_slice(),
        None => &[],
    }
}

// Whether each command of a worker did.
fn is_part_made(
    alloc: Global,
    dues: &Dues,
    worker: u16,
    commands: &[Command],
    part: &WorkerPart,
) -> Result<bool, Memory>
    requires dues { CanBeDue dues.now }
    requires stand { StandByCommand part.now.walks.items }
    requires few { length commands.now ≤ 2 ^ 32 }
    ensures { IfOk result (λ b. Decides b (IsPartMade dues.now worker commands.now part.now)) }
{
    let answers = part.answers.as_slice();
    let walks = part.walks.as_slice();
    for n in 0..commands.len().min(answers.len()) {
        let by = Serial {
            worker,
            command: n as u32,
        };
        let reply = &answers[n].reply;
        if !is_answer_made(alloc, dues, by, &commands[n], reply, walks)? {
            return Ok(false);
        }
    }
    Ok(true)
}

/// Whether each command of a well formed report made the walks that it was to make: those that are
/// due, with the rounds of a put, or the first of them where the answer is want of memory.
pub fn are_walks_made(alloc: Global, script: &Script, report: &Report) -> Result<bool, Memory>
    requires well { IsWellFormed report.now }
    requires numbers { HasNumbers report.now }
    requires tree { IsTree (parents_of script.now) }
    requires groups { length (parents_of script.now) ≤ 65536 }
    requires nodes { 0 < script.now.nodes }
    requires few { (worker : ℕ) → length (commands_of script.now worker) ≤ 2 ^ 32 }
    ensures { IfOk result (λ b. Decides b (EachAnswer script.now report.now (λ by c a.
        AreWalksOf script.now report.now by c a.reply))) }
{
    let dues = dues_of(alloc, script, report)?;
    let parts = report.workers.as_slice();
    for worker in 0..parts.len() {
        let commands = commands_of(script, worker);
        if !is_part_made(alloc, &dues, worker as u16, commands, &parts[worker])? {
            return Ok(false);
        }
    }
    Ok(true)
}
