// SPDX-License-Identifier: GPL-2.0-only
//! Whether each answer is one that its command may have, but for the value of a hit.

ghost use Rattle.std.specs.Prelude.{◌≡◌, ℕ, Some, slice_get};
ghost use Rattle.std.specs.Bool.{Decides};
ghost use Rattle.shr_base.specs.declared.replies.Answered.{Answered};
ghost use Rattle.shr_base.specs.declared.scripts.Command.{Command};
ghost use Rattle.shr_audit_case.specs.Each.{AnswersInParts};
ghost use Rattle.shr_audit_case.specs.Places.{AreInOrder};
ghost use Rattle.shr_laws.specs.Parts.{command_at, id_found, journals_of, parents_of, serial_of};
ghost use Rattle.shr_audit_replies.specs.Answers.{AreAnswered, IsAnswered, MayReply};

use crate::citing::may_held;
use crate::numbers::command_of;
use crate::rows::may_unheld;
use shr_base::ends::WorkerPart;
use shr_base::replies::Answered;
use shr_base::scripts::{Command, Script};
use shr_laws::report::Report;

// Whether a command may have this answer.
fn may_answer(
    script: &Script,
    report: &Report,
    worker: usize,
    number: usize,
    command: &Command,
    answer: &Answered,
) -> bool
    requires { AreInOrder report.now.places.items }
    ensures { Decides result (IsAnswered script.now report.now
        (serial_of worker number) command.now answer.now) }
{
    match answer.found {
        Some(found) => may_held(report, worker, number, found.id, command, &answer.reply),
        None => may_unheld(command, &answer.reply),
    }
}

// Whether the command with this number, if the worker has it, may have this answer.
fn is_answered(
    script: &Script,
    report: &Report,
    worker: usize,
    number: usize,
    answer: &Answered,
) -> bool
    requires { AreInOrder report.now.places.items }
    ensures { Decides result ((c : Command) → command_at script.now
        (serial_of worker number) ≡ Some c → IsAnswered script.now report.now
        (serial_of worker number) c answer.now) }
{
    match command_of(script, worker, number) {
        Some(command) => may_answer(script, report, worker, number, command, answer),
        None => true,
    }
}

// Whether that is so of each answer of a worker.
fn is_worker_answered(script: &Script, report: &Report, worker: usize, answers: &[Answered]) -> bool
    requires { AreInOrder report.now.places.items }
    ensures { Decides result ((n : ℕ) (a : Answered) → slice_get answers.now n ≡ Some a
        → (c : Command) → command_at script.now (serial_of worker n) ≡ Some c
        → IsAnswered script.now report.now (serial_of worker n) c a) }
{
    for number in 0..answers.len() {
        if !is_answered(script, report, worker, number, &answers[number]) {
            return false;
        }
    }
    true
}

// Whether it is so of each worker.
fn are_workers_answered(script: &Script, report: &Report, parts: &[WorkerPart]) -> bool
    requires { AreInOrder report.now.places.items }
    ensures { Decides result ((worker : ℕ) (part : WorkerPart)
        → slice_get parts.now worker ≡ Some part
        → (n : ℕ) (a : Answered) → slice_get part.answers.items n ≡ Some a
        → (c : Command) → command_at script.now (serial_of worker n) ≡ Some c
        → IsAnswered script.now report.now (serial_of worker n) c a) }
{
    for worker in 0..parts.len() {
        if !is_worker_answered(script, report, worker, parts[worker].answers.as_slice()) {
            return false;
        }
    }
    true
}

/// Whether each answer is one that its command may have, whatever value a hit lends. It costs a
/// search for the place of each entry that is cited.
pub fn are_answered(script: &Script, report: &Report) -> bool
    requires { AreInOrder report.now.places.items }
    ensures { Decides result (AreAnswered script.now report.now) }
{
    let all = are_workers_answered(script, report, report.workers.as_slice());
    all
}
