// SPDX-License-Identifier: GPL-2.0-only
//! Commands and answers by the numbers of their workers and their own.

ghost use Rattle.std.specs.Prelude.{◌≡◌, length, option_copied};
ghost use Rattle.shr_laws.specs.Parts.{answer_at, answers_of, command_at, commands_of, serial_of, sweeps_of};

use shr_base::replies::Answered;
use shr_base::scripts::{Command, Script};
use shr_laws::report::Report;

/// How many answers a worker has, none past the last part.
pub fn count_answers(report: &Report, worker: usize) -> usize
    ensures { result ≡ length (answers_of report.now worker) }
{
    match report.workers.get(worker) {
        Some(part) => part.answers.len(),
        None => 0,
    }
}

/// How many commands a worker has, none past the last worker.
pub fn count_commands(script: &Script, worker: usize) -> usize
    ensures { result ≡ length (commands_of script.now worker) }
{
    match script.workers.get(worker) {
        Some(commands) => commands.commands.len(),
        None => 0,
    }
}

/// How many answers a worker has to the sweep of a script, 1 at most.
pub fn count_sweeps(script: &Script, worker: usize) -> usize
    ensures { result ≡ sweeps_of script.now worker }
{
    if script.sweep.is_none() {
        return 0;
    }
    match script.workers.get(worker) {
        Some(_) => 1,
        None => 0,
    }
}

/// The command of a worker with this number, if it has one.
pub fn command_of(script: &Script, worker: usize, number: usize) -> Option<&Command>
    ensures { option_copied result ≡ command_at script.now (serial_of worker number) }
{
    match script.workers.get(worker) {
        Some(commands) => commands.commands.get(number),
        None => None,
    }
}

/// The answer of a worker with this number, if it has one.
pub fn answer_of(report: &Report, worker: usize, number: usize) -> Option<&Answered>
    ensures { option_copied result ≡ answer_at report.now (serial_of worker number) }
{
    match report.workers.get(worker) {
        Some(part) => part.answers.get(number),
        None => None,
    }
}
