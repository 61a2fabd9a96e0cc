// SPDX-License-Identifier: GPL-2.0-only
//! The walks of a command.

ghost use Rattle.std.specs.Prelude.{◌≡◌, ◌==◌, ◌<◌, ◌≤◌, ℕ, filter, length, slice_get, Some, option_copied};
ghost use Rattle.std.specs.Bool.{Decides};
ghost use Rattle.shr_base.specs.declared.scripts.Script.{Script};
ghost use Rattle.shr_base.specs.Walks.{WalkRecord};
ghost use Rattle.shr_model.specs.Groups.{preorder_of};
ghost use Rattle.shr_base.specs.declared.scripts.Command.{Command};
ghost use Rattle.shr_laws.specs.Parts.{command_at, parents_of, serial_of, walks_by, EachAnswer};
ghost use Rattle.shr_laws.specs.WellFormed.{IsWellFormed};
ghost use Rattle.shr_laws.specs.WalksLawful.{IsToldBy};
ghost use Rattle.shr_audit_passes.specs.Commands.{IsPartTold, StandByCommand};

use crate::told::{is_balance_told, is_shrink_told};
use shr_base::ends::WorkerPart;
use shr_base::replies::Reply;
use shr_base::scripts::{Command, Script};
use shr_base::walks::WalkRecord;
use shr_laws::report::Report;

// The index of the first walk that isn't of an earlier command.
fn first_of(walks: &[WalkRecord], command: usize) -> usize
    requires { StandByCommand walks.now }
    ensures within { result ≤ length walks.now }
    ensures before { (n : ℕ) (w : WalkRecord) → n < result → slice_get walks.now n ≡ Some w
        → w.by.command < command }
    ensures behind { (n : ℕ) (w : WalkRecord) → result ≤ n → slice_get walks.now n ≡ Some w
        → command ≤ w.by.command }
{
    walks.partition_point(|walk| (walk.by.command as usize) < command)
}

// The index behind the last walk that isn't of a later command.
fn behind_of(walks: &[WalkRecord], command: usize) -> usize
    requires { StandByCommand walks.now }
    ensures within { result ≤ length walks.now }
    ensures before { (n : ℕ) (w : WalkRecord) → n < result → slice_get walks.now n ≡ Some w
        → w.by.command ≤ command }
    ensures behind { (n : ℕ) (w : WalkRecord) → result ≤ n → slice_get walks.now n ≡ Some w
        → command < w.by.command }
{
    walks.partition_point(|walk| walk.by.command as usize <= command)
}

/// The walks of a command, of the walks of its worker in the order of their commands, as a well
/// formed report has them.
pub fn walks_of(walks: &[WalkRecord], command: usize) -> &[WalkRecord]
    requires { StandByCommand walks.now }
    ensures { result.now ≡ filter (λ (w : WalkRecord). w.by.command == command) walks.now }
{
    let low = first_of(walks, command);
    let high = behind_of(walks, command);
    if low < high { &walks[low..high] } else { &[] }
}

/// Whether a command with these walks is answered so; a `balance` walks so many groups.
pub fn is_told_by(groups: usize, command: &Command, reply: &Reply, walks: &[WalkRecord]) -> bool
    ensures { (s : Script) → groups ≡ length (preorder_of (parents_of s) 0)
        → Decides result (IsToldBy s walks.now command.now reply.now) }
{
    match command {
        Command::Shrink { .. } => is_shrink_told(walks, reply),
        Command::Balance { .. } => is_balance_told(groups, walks, reply),
        _ => true,
    }
}

// The command of a worker with this number, if the script has it.
fn command_in(script: &Script, worker: usize, n: usize) -> Option<&Command>
    ensures { option_copied result ≡ command_at script.now (serial_of worker n) }
{
    match script.workers.get(worker) {
        Some(worker) => worker.commands.get(n),
        None => None,
    }
}

// Whether a command, if there is one, is answered as these walks of it say.
fn is_answer_told(
    groups: usize,
    command: Option<&Command>,
    reply: &Reply,
    walks: &[WalkRecord],
) -> bool
    ensures { (s : Script) → groups ≡ length (preorder_of (parents_of s) 0)
        → Decides result ((c : Command) → option_copied command.entry ≡ Some c
        → IsToldBy s walks.now c reply.now) }
{
    match command {
        Some(command) => {
            let told = is_told_by(groups, command, reply, walks);
            told
        }
        None => true,
    }
}

// Whether each command of a worker is answered as its walks say.
fn is_part_told(script: &Script, groups: usize, worker: usize, part: &WorkerPart) -> bool
    requires stand { StandByCommand part.now.walks.items }
    requires many { groups ≡ length (preorder_of (parents_of script.now) 0) }
    ensures { Decides result (IsPartTold script.now worker part.now) }
{
    let walks = part.walks.as_slice();
    let answers = part.answers.as_slice();
    for n in 0..answers.len() {
        let command = command_in(script, worker, n);
        if !is_answer_told(groups, command, &answers[n].reply, walks_of(walks, n)) {
            return false;
        }
    }
    true
}

/// Whether each `shrink` and `balance` is answered as its walks say, in a well formed report.
/// `groups` is how many groups a `balance` walks.
pub fn are_told(script: &Script, report: &Report, groups: usize) -> bool
    requires well { IsWellFormed report.now }
    requires many { groups ≡ length (preorder_of (parents_of script.now) 0) }
    ensures { Decides result (EachAnswer script.now report.now (λ by c a.
        IsToldBy script.now (walks_by report.now by) c a.reply)) }
{
    let parts = report.workers.as_slice();
    for worker in 0..parts.len() {
        if !is_part_told(script, groups, worker, &parts[worker]) {
            return false;
        }
    }
    true
}
