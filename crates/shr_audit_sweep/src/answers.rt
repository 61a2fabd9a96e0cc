// SPDX-License-Identifier: GPL-2.0-only
//! The last answers of the workers.

ghost use Rattle.std.specs.Prelude.{◌≡◌, ℕ, ◌<◌, length, option_copied};
ghost use Rattle.std.specs.Bool.{Decides};
ghost use Rattle.std.specs.Option.{IsSomeAnd};
ghost use Rattle.shr_laws.specs.Parts.{answer_at, reply_at};
ghost use Rattle.shr_laws.specs.Swept.{IsSwept, IsSweptOut, sweep_serial, sweep_walks};
ghost use Rattle.shr_laws.specs.WellFormed.{IsWellFormed};
ghost use Rattle.shr_audit_sweep.specs.Swept.{HaveSweepAnswers, AreSweptOut, IsSweepTold};

use crate::walks::{are_sweep_walks, count_commands, have_freed, sweep_walks};
use shr_base::replies::{Answered, Reply};
use shr_base::scripts::{Script, Sweep};
use shr_base::walks::WalkRecord;
use shr_laws::report::Report;

// Whether a reply says how many walks these are, or that memory was short, and what they freed.
fn is_told(reply: &Reply, walks: &[WalkRecord]) -> bool
    ensures { Decides result (IsSweepTold walks.now reply.now) }
{
    match *reply {
        Reply::Swept { jobs, freed } => jobs as usize == walks.len() && have_freed(walks, freed),
        Reply::WalkMemory { freed } => have_freed(walks, freed),
        _ => false,
    }
}

// Whether an answer to the sweep says so of these walks, and each is one of the sweep.
fn is_swept(script: &Script, sweep: Sweep, walks: &[WalkRecord], answer: &Answered) -> bool
    ensures { Decides result (IsSwept script.now sweep walks.now answer.now) }
{
    answer.found.is_none() && is_told(&answer.reply, walks) && are_sweep_walks(script, sweep, walks)
}

// The answer of a worker to the sweep, if it has it.
fn sweep_answer<'a>(script: &Script, report: &'a Report, worker: usize) -> Option<&'a Answered>
    ensures { option_copied result
        ≡ answer_at report.now (sweep_serial script.now worker) }
{
    match report.workers.get(worker) {
        Some(part) => part.answers.get(count_commands(script, worker)),
        None => None,
    }
}

// Whether a worker has its answer to the sweep, and that is right.
fn is_answered(script: &Script, report: &Report, sweep: Sweep, worker: usize) -> bool
    requires { IsWellFormed report.now }
    ensures { Decides result (IsSomeAnd (answer_at report.now (sweep_serial script.now worker))
        (IsSwept script.now sweep (sweep_walks script.now report.now worker))) }
{
    match sweep_answer(script, report, worker) {
        Some(answer) => is_swept(script, sweep, sweep_walks(script, report, worker), answer),
        None => false,
    }
}

/// Whether each worker of the script has, and it is.
pub(crate) fn are_answered(script: &Script, report: &Report, sweep: Sweep) -> bool
    requires { IsWellFormed report.now }
    ensures { Decides result (HaveSweepAnswers script.now report.now sweep) }
{
    for worker in 0..script.workers.len() {
        if !is_answered(script, report, sweep, worker) {
            return false;
        }
    }
    true
}

// Whether a worker says that no job was left.
fn is_swept_out(script: &Script, report: &Report, worker: usize) -> bool
    ensures { Decides result (IsSomeAnd (reply_at report.now (sweep_serial script.now worker))
        IsSweptOut) }
{
    match sweep_answer(script, report, worker) {
        Some(answer) => matches!(answer.reply, Reply::Swept { .. }),
        None => false,
    }
}

/// Whether each worker says so.
pub(crate) fn are_swept_out(script: &Script, report: &Report) -> bool
    ensures { Decides result (AreSweptOut script.now report.now) }
{
    for worker in 0..script.workers.len() {
        if !is_swept_out(script, report, worker) {
            return false;
        }
    }
    true
}
