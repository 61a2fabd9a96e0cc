// SPDX-License-Identifier: GPL-2.0-only
//! What commands found.

ghost use Rattle.std.specs.Prelude.{◌≡◌, ℕ, Some, slice_get, length, option_copied, IfOk};
ghost use Rattle.std.specs.Bool.{Decides};
ghost use Rattle.shr_base.specs.declared.ends.WorkerPart.{WorkerPart};
ghost use Rattle.shr_base.specs.declared.replies.Answered.{Answered};
ghost use Rattle.shr_model.specs.Commands.{decl_named};
ghost use Rattle.shr_model.specs.Pool.{IsPoolJournal, is_before};
ghost use Rattle.shr_laws.specs.Lookups.{IsFoundRight};
ghost use Rattle.shr_laws.specs.Parts.{command_at, serial_of};
ghost use Rattle.shr_audit_case.specs.Live.{AreLives};
ghost use Rattle.shr_audit_tables.specs.Found.{AreFoundRight, IsFindAt, IsFindRight, IsLiveRight};

use shr_audit_case::live::Lives;
use shr_audit_case::steps::Registration;
use shr_base::ends::WorkerPart;
use shr_base::memory::Memory;
use shr_base::replies::{Answered, Found};
use shr_base::scripts::{Command, Script};
use shr_laws::report::Report;
use std::alloc::Global;

// The declaration that a command names, if it names one.
fn decl_named(command: &Command) -> Option<u8>
    ensures { result ≡ decl_named command.now }
{
    match command {
        Command::Put { at, .. } => Some(at.decl),
        Command::On { at, .. } => Some(at.decl),
        Command::Register { decl } => Some(*decl),
        Command::Unregister { decl } => Some(*decl),
        Command::Isolate { at, .. } => Some(at.decl),
        _ => None,
    }
}

// Whether a lookup has a number before the end of a registration, if that has one.
fn is_before(number: u32, to: Option<u32>) -> bool
    ensures { result ≡ is_before number to }
{
    match to {
        Some(to) => number < to,
        None => true,
    }
}

// Whether a lookup of a declaration with this number lies in the registration.
fn is_live_right(live: Option<Registration>, decl: u8, number: u32) -> bool
    ensures { Decides result (IsLiveRight live decl number) }
{
    match live {
        Some(of) => {
            let before = is_before(number, of.to);
            of.decl == decl && of.from <= number && before
        }
        None => false,
    }
}

// Whether a found cache was live with the declaration, by the registration of its lookup.
fn is_found_right(report: &Report, lives: &Lives, decl: u8, found: Found) -> bool
    requires { AreLives report.now.pool.items lives.now }
    ensures { Decides result (IsFoundRight report.now decl found) }
{
    if found.entry as usize > report.pool.len() {
        return false;
    }
    let live = lives.at(found.id, found.entry);
    let right = is_live_right(live, decl, found.number);
    right
}

// Whether that is so of what a command found, if it names a declaration and found one.
fn is_find_right(report: &Report, lives: &Lives, command: &Command, answer: &Answered) -> bool
    requires { AreLives report.now.pool.items lives.now }
    ensures { Decides result (IsFindRight report.now command.now answer.now) }
{
    let Some(decl) = decl_named(command) else {
        return true;
    };
    match answer.found {
        Some(found) => is_found_right(report, lives, decl, found),
        None => true,
    }
}

// The command of a worker with this number, if the script has it.
fn command_of(script: &Script, worker: usize, number: usize) -> Option<&Command>
    ensures { option_copied result ≡ command_at script.now (serial_of worker number) }
{
    match script.workers.get(worker) {
        Some(worker) => worker.commands.get(number),
        None => None,
    }
}

// Whether it is so of the command with this number, if there is one.
fn is_find_at(
    script: &Script,
    report: &Report,
    lives: &Lives,
    worker: usize,
    number: usize,
    answer: &Answered,
) -> bool
    requires { AreLives report.now.pool.items lives.now }
    ensures { Decides result (IsFindAt script.now report.now worker number answer.now) }
{
    match command_of(script, worker, number) {
        Some(command) => is_find_right(report, lives, command, answer),
        None => true,
    }
}

// Whether it is so of each answer of a worker.
fn are_finds_right(
    script: &Script,
    report: &Report,
    lives: &Lives,
    worker: usize,
    answers: &[Answered],
) -> bool
    requires { AreLives report.now.pool.items lives.now }
    ensures { Decides result ((n : ℕ) (a : Answered) → slice_get answers.now n ≡ Some a
        → IsFindAt script.now report.now worker n a) }
{
    for number in 0..answers.len() {
        if !is_find_at(script, report, lives, worker, number, &answers[number]) {
            return false;
        }
    }
    true
}

// Whether it is so of each worker.
fn are_parts_right(script: &Script, report: &Report, lives: &Lives, parts: &[WorkerPart]) -> bool
    requires { AreLives report.now.pool.items lives.now }
    ensures { Decides result ((worker : ℕ) (part : WorkerPart)
        → slice_get parts.now worker ≡ Some part
        → (n : ℕ) (a : Answered) → slice_get part.answers.items n ≡ Some a
        → IsFindAt script.now report.now worker n a) }
{
    for worker in 0..parts.len() {
        if !are_finds_right(
            script,
            report,
            lives,
            worker,
            parts[worker].answers.as_slice(),
        ) {
            return false;
        }
    }
    true
}

/// Whether each cache that a command found was live with its declaration, by the registration in
/// which the number of the lookup lies, in a report whose journal of registrations is one. `Memory`
/// is want of it alone.
pub fn are_found_right(alloc: Global, script: &Script, report: &Report) -> Result<bool, Memory>
    requires { IsPoolJournal script.now.ids (length script.now.caches.items)
        report.now.pool.items }
    ensures { IfOk result (λ b. Decides b (AreFoundRight script.now report.now)) }
{
    let lives = Lives::of(alloc, report.pool.as_slice())?;
    let right = are_parts_right(script, report, &lives, report.workers.as_slice());
    Ok(right)
}
