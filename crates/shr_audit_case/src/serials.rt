// SPDX-License-Identifier: GPL-2.0-only
//! Commands, answers and walks by their numbers.

ghost use Rattle.std.specs.Prelude.{◌≡◌, option_copied, IfOk};
ghost use Rattle.shr_laws.specs.Parts.{answer_at, command_at, parents_of, walk_at};

use shr_base::memory::Memory;
use shr_base::places::Serial;
use shr_base::replies::Answered;
use shr_base::scripts::{Command, Script};
use shr_base::walks::WalkRecord;
use shr_laws::report::Report;
use std::alloc::Global;

/// The command with this serial, if the script has it.
pub fn command_at(script: &Script, by: Serial) -> Option<&Command>
    ensures { option_copied result ≡ command_at script.now by }
{
    match script.workers.get(by.worker as usize) {
        Some(worker) => worker.commands.get(by.command as usize),
        None => None,
    }
}

/// The answer to the command with this serial, if the report has it.
pub fn answer_at(report: &Report, by: Serial) -> Option<&Answered>
    ensures { option_copied result ≡ answer_at report.now by }
{
    match report.workers.get(by.worker as usize) {
        Some(part) => part.answers.get(by.command as usize),
        None => None,
    }
}

/// A walk by the number of its worker and its own.
pub fn walk_at(report: &Report, worker: u16, n: u64) -> Option<&WalkRecord>
    ensures { option_copied result ≡ walk_at report.now worker n }
{
    match report.workers.get(worker as usize) {
        Some(part) => part.walks.get(n as usize),
        None => None,
    }
}

/// The parents of the groups of a script, the root first.
pub fn parents_of(alloc: Global, script: &Script) -> Result<Vec<u16>, Memory>
    ensures { IfOk result (λ parents. parents.items ≡ parents_of script.now) }
{
    let mut parents = Vec::new(alloc);
    parents.push(0)?;
    for group in script.groups.as_slice() {
        parents.push(group.parent)?;
    }
    Ok(parents)
}
