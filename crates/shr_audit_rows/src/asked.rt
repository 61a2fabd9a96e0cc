// SPDX-License-Identifier: GPL-2.0-only
//! What replies say of declarations after so many entries of the journal of registrations.

ghost use Rattle.std.specs.Prelude.{◌≡◌, ℕ, ◌<◌, ◌++◌, length, option_to_list, IfOk, OnOk};
ghost use Rattle.shr_model.specs.Commands.{decl_named};
ghost use Rattle.shr_laws.specs.Parts.{answers_of};
ghost use Rattle.shr_audit_rows.specs.Asked.{AddsSo, AreAllSo, IsSoIfAsked, asked_at, asked_in};

use crate::named::decl_named;
use shr_audit_replies::numbers::{answer_of, command_of, count_answers};
use shr_base::memory::Memory;
use shr_base::replies::Reply;
use shr_base::scripts::{Command, Script};
use shr_laws::report::Report;
use std::alloc::Global;

/// What a reply says of a declaration.
#[derive(Clone, Copy, Debug, PartialEq, Eq)]
pub enum Said {
    /// It isn't live.
    Uncached,
    /// It is.
    Cached,
    /// It isn't, and no id can be registered.
    Full,
}

/// What it says of that after so many entries of the journal of registrations, of the declaration
/// that its command names, if it names one.
#[derive(Clone, Copy, Debug, PartialEq, Eq)]
pub struct Asked {
    pub entry: u32,
    pub decl: Option<u8>,
    pub said: Said,
}

// What a reply to a command says, if it does.
fn asked_in(command: &Command, reply: &Reply) -> Option<Asked>
    ensures { result ≡ asked_in (decl_named command.now) reply.now }
{
    let decl = decl_named(command);
    match reply {
        Reply::NoCache { entry } => Some(Asked {
            entry: *entry,
            decl,
            said: Said::Uncached,
        }),
        Reply::AlreadyRegistered { entry } => Some(Asked {
            entry: *entry,
            decl,
            said: Said::Cached,
        }),
        Reply::NoId { entry } => Some(Asked {
            entry: *entry,
            decl,
            said: Said::Full,
        }),
        _ => None,
    }
}

// The same of the command with this number.
fn asked_at(script: &Script, report: &Report, worker: usize, number: usize) -> Option<Asked>
    ensures { result ≡ asked_at script.now report.now worker number }
{
    let Some(command) = command_of(script, worker, number) else {
        return None;
    };
    let Some(answer) = answer_of(report, worker, number) else {
        return None;
    };
    asked_in(command, &answer.reply)
}

// Adds what one says, if it does.
fn add(asked: &mut Vec<Asked>, more: Option<Asked>) -> Result<(), Memory>
    ensures { OnOk result (asked.new.items ≡ asked.old.items ++ option_to_list more) }
{
    let Some(more) = more else {
        return Ok(());
    };
    asked.push(more)?;
    Ok(())
}

// Adds what the answers of a worker say.
fn add_worker(
    asked: &mut Vec<Asked>,
    script: &Script,
    report: &Report,
    worker: usize,
) -> Result<(), Memory>
    ensures { OnOk result (AddsSo script.now report.now asked.old.items asked.new.items
        ((k : ℕ) → k < length (answers_of report.now worker)
        → IsSoIfAsked script.now report.now (asked_at script.now report.now worker k))) }
{
    for number in 0..count_answers(report, worker) {
        let more = asked_at(script, report, worker, number);
        add(asked, more)?;
    }
    Ok(())
}

/// What all answers say of declarations.
pub fn asked_of(alloc: Global, script: &Script, report: &Report) -> Result<Vec<Asked>, Memory>
    ensures { IfOk result (λ asked. AreAllSo script.now report.now asked.items) }
{
    let mut asked = Vec::new(alloc);
    for worker in 0..report.workers.len() {
        add_worker(&mut asked, script, report, worker)?;
    }
    Ok(asked)
}
