// SPDX-License-Identifier: GPL-2.0-only
//! The isolations of each command.

ghost use Rattle.std.specs.Prelude.{◌≡◌, ◌==◌, ℕ, ◌<◌, ◌≤◌, ◌∷◌, [], filter, length, slice_get, Some};
ghost use Rattle.std.specs.Bool.{Decides};
ghost use Rattle.shr_base.specs.declared.places.Serial.{Serial};
ghost use Rattle.shr_base.specs.declared.scripts.Command.{Command};
ghost use Rattle.shr_base.specs.declared.walks.Isolation.{Isolation};
ghost use Rattle.shr_audit_formed.specs.Each.{EachItem};
ghost use Rattle.shr_laws.specs.Isolated.{isolations_by, isolations_told};
ghost use Rattle.shr_laws.specs.Parts.{commands_of, EachAnswer};
ghost use Rattle.shr_laws.specs.WellFormed.{IsWellFormed};
ghost use Rattle.shr_audit_isolations.specs.Commands.{PartTellsIsolations, IsolationsByCommand};

use shr_base::ends::WorkerPart;
use shr_base::replies::{Answered, Reply};
use shr_base::scripts::{Command, Script};
use shr_base::walks::Isolation;
use shr_laws::report::Report;

// The index of the first isolation that isn't of an earlier command.
fn first_of(isolations: &[Isolation], command: usize) -> usize
    requires { IsolationsByCommand isolations.now }
    ensures within { result ≤ length isolations.now }
    ensures before { (n : ℕ) (i : Isolation) → n < result → slice_get isolations.now n ≡ Some i
        → i.by.command < command }
    ensures behind { (n : ℕ) (i : Isolation) → result ≤ n → slice_get isolations.now n ≡ Some i
        → command ≤ i.by.command }
{
    isolations.partition_point(|isolation| (isolation.by.command as usize) < command)
}

// The index behind the last isolation that isn't of a later command.
fn behind_of(isolations: &[Isolation], command: usize) -> usize
    requires { IsolationsByCommand isolations.now }
    ensures within { result ≤ length isolations.now }
    ensures before { (n : ℕ) (i : Isolation) → n < result → slice_get isolations.now n ≡ Some i
        → i.by.command ≤ command }
    ensures behind { (n : ℕ) (i : Isolation) → result ≤ n → slice_get isolations.now n ≡ Some i
        → command < i.by.command }
{
    isolations.partition_point(|isolation| isolation.by.command as usize <= command)
}

// The isolations of a command, of those of its worker in the order of their commands.
fn isolations_of(isolations: &[Isolation], command: usize) -> &[Isolation]
    requires { IsolationsByCommand isolations.now }
    ensures { result.now
        ≡ filter (λ (i : Isolation). i.by.command == command) isolations.now }
{
    let low = first_of(isolations, command);
    let high = behind_of(isolations, command);
    if low < high {
        &isolations[low..high]
    } else {
        &[]
    }
}

// Whether an answer tells of an isolation.
fn tells(command: &Command, answer: &Answered) -> bool
    ensures { (by : Serial) → Decides result
        (0 < length (isolations_told by command.now answer.now)) }
{
    matches!(command, Command::Isolate { .. })
        && answer.found.is_some()
        && matches!(answer.reply, Reply::Isolated { .. })
}

// Whether an answer tells of this isolation.
fn tells_of(command: &Command, answer: &Answered, isolation: &Isolation) -> bool
    ensures { Decides result (isolation.now ∷ []
        ≡ isolations_told isolation.now.by command.now answer.now) }
{
    match (command, answer.found, &answer.reply) {
        (
            Command::Isolate { at, budget },
            Some(found),
            Reply::Isolated {
                visits,
                freed,
                ending,
            },
        ) => {
            isolation.place.id == found.id
                && isolation.place.node == at.node
                && isolation.place.group == at.group
                && isolation.budget == *budget
                && isolation.visits == *visits
                && isolation.freed == *freed
                && isolation.ending == *ending
        }
        _ => false,
    }
}

// Whether an answer tells of these isolations of its command.
fn tells_of_all(command: &Command, answer: &Answered, isolations: &[Isolation]) -> bool
    ensures { (by : Serial) → EachItem (λ i. i.by ≡ by) isolations.now
        → Decides result (isolations.now ≡ isolations_told by command.now answer.now) }
{
    match isolations.first() {
        Some(isolation) => {
            if isolations.len() > 1 {
                return false;
            }
            tells_of(command, answer, isolation)
        }
        None => !tells(command, answer),
    }
}

// The commands of a worker; none past the last worker.
fn commands_of(script: &Script, worker: usize) -> &[Command]
    ensures { result.now ≡ commands_of script.now worker }
{
    match script.workers.get(worker) {
        Some(worker) => worker.commands.as_slice(),
        None => &[],
    }
}

// Whether the answer to a command tells of these isolations, where there is such a command.
fn is_answer_told(
    commands: &[Command],
    number: usize,
    answer: &Answered,
    isolations: &[Isolation],
) -> bool
    ensures { (by : Serial) → EachItem (λ i. i.by ≡ by) isolations.now
        → Decides result ((c : Command) → slice_get commands.now number ≡ Some c
        → isolations.now ≡ isolations_told by c answer.now) }
{
    match commands.get(number) {
        Some(command) => tells_of_all(command, answer, isolations),
        None => true,
    }
}

// Whether each answer to a command of a worker tells of its isolations.
fn is_part_told(script: &Script, worker: usize, part: &WorkerPart) -> bool
    requires stand { IsolationsByCommand part.now.isolations.items }
    requires own { EachItem (λ i. i.by.worker ≡ worker) part.now.isolations.items }
    ensures { Decides result (PartTellsIsolations script.now worker part.now) }
{
    let commands = commands_of(script, worker);
    let isolations = part.isolations.as_slice();
    let answers = part.answers.as_slice();
    for n in 0..answers.len() {
        if !is_answer_told(commands, n, &answers[n], isolations_of(isolations, n)) {
            return false;
        }
    }
    true
}

/// The same of all workers.
pub(crate) fn are_told(script: &Script, report: &Report) -> bool
    requires { IsWellFormed report.now }
    ensures { Decides result (EachAnswer script.now report.now (λ by c a.
        isolations_by report.now by ≡ isolations_told by c a)) }
{
    let parts = report.workers.as_slice();
    for worker in 0..parts.len() {
        if !is_part_told(script, worker, &parts[worker]) {
            return false;
        }
    }
    true
}
