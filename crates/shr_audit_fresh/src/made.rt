// SPDX-License-Identifier: GPL-2.0-only
//! Once a worker was shown that a group is made, none of its later answers says that it isn't.

ghost use Rattle.std.specs.Prelude.{◌≡◌, ℕ, ◌↔◌, cond, Some, None, nat_eq, option_copied, IfOk};
ghost use Rattle.std.specs.Bool.{Decides};
ghost use Rattle.std.specs.HashMap.{get};
ghost use Rattle.shr_base.specs.declared.replies.Reply.TheVariants as reply;
ghost use Rattle.shr_base.specs.declared.scripts.Command.TheVariants.{MkGroup};
ghost use Rattle.shr_laws.specs.Freshness.{asks_made, is_past_group, made_shown, shows_made};
ghost use Rattle.shr_laws.specs.Parts.{reply_at, serial_of};
ghost use Rattle.shr_audit_fresh.specs.Worker.{StaysMade, makes, unmade};

use crate::firsts::{first_of, no_firsts, note};
use shr_audit_replies::numbers::{answer_of, command_of, count_answers};
use shr_base::memory::Memory;
use shr_base::replies::Reply;
use shr_base::scripts::{Command, Script};
use shr_laws::report::Report;
use std::alloc::Global;
use std::collections::HashMap;

// The group at which a command asks first whether it is made.
fn asks_made(command: &Command) -> Option<u16>
    ensures { result ≡ asks_made command.now }
{
    match command {
        Command::Put { at, .. } => Some(at.group),
        Command::On { at, .. } => Some(at.group),
        Command::Offline { group } => Some(*group),
        _ => None,
    }
}

// Whether an answer came after the command's group was seen to be made.
fn is_past_group(reply: &Reply) -> bool
    ensures { result ≡ is_past_group reply.now }
{
    match reply {
        Reply::NotMade { .. } => false,
        Reply::Worn { .. } => false,
        Reply::Memory => false,
        _ => true,
    }
}

// The group that a command makes.
fn makes(command: &Command) -> Option<u16>
    ensures { result ≡ makes command.now }
{
    match command {
        Command::MkGroup { group } => Some(*group),
        _ => None,
    }
}

// The group that a command makes, if the answer says that it was made, or was already.
fn made_now(group: u16, reply: &Reply) -> Option<u16>
    ensures { result ≡ made_shown (MkGroup group) reply.now }
{
    match reply {
        Reply::Made { .. } => Some(group),
        Reply::AlreadyMade { .. } => Some(group),
        _ => None,
    }
}

// The group that another command found to be made.
fn found_made(command: &Command, reply: &Reply) -> Option<u16>
    ensures { result ≡ cond (is_past_group reply.now) (asks_made command.now) None }
{
    if is_past_group(reply) {
        asks_made(command)
    } else {
        None
    }
}

// The group that an answer to a command shows to be made.
fn made_shown(command: &Command, reply: &Reply) -> Option<u16>
    ensures { result ≡ made_shown command.now reply.now }
{
    match makes(command) {
        Some(group) => made_now(group, reply),
        None => found_made(command, reply),
    }
}

// The same of the command with this number.
fn made_at(script: &Script, report: &Report, worker: usize, number: usize) -> Option<u16>
    ensures { result ≡ shows_made script.now report.now (serial_of worker number) }
{
    let Some(command) = command_of(script, worker, number) else {
        return None;
    };
    let Some(answer) = answer_of(report, worker, number) else {
        return None;
    };
    made_shown(command, &answer.reply)
}

// The group of which an answer says that it isn't made.
fn unmade(answer: &Reply) -> Option<u16>
    ensures { result ≡ unmade answer.now }
{
    match answer {
        Reply::NotMade { group } => Some(*group),
        _ => None,
    }
}

// The same of the answer with this number.
fn unmade_at(report: &Report, worker: usize, number: usize) -> Option<u16>
    ensures { (group : ℕ) → (result ≡ Some group)
        ↔ (reply_at report.now (serial_of worker number) ≡ Some (reply.NotMade group)) }
{
    match answer_of(report, worker, number) {
        Some(answer) => unmade(&answer.reply),
        None => None,
    }
}

// Whether no command was noted that showed the group to be made, if there is one.
fn may_say(firsts: &HashMap<u16, usize>, unmade: Option<u16>) -> bool
    ensures { Decides result ((group : ℕ) → unmade ≡ Some group
        → get nat_eq firsts.now group ≡ None) }
{
    match unmade {
        Some(group) => first_of(firsts, group).is_none(),
        None => true,
    }
}

/// Whether no later answer of a worker says that a group isn't made which an earlier one showed to be.
pub(crate) fn stays_made(
    alloc: Global,
    script: &Script,
    report: &Report,
    worker: usize,
) -> Result<bool, Memory>
    ensures { IfOk result (λ b. Decides b (StaysMade script.now report.now worker)) }
{
    let mut firsts = no_firsts(alloc);
    for number in 0..count_answers(report, worker) {
        if !may_say(&firsts, unmade_at(report, worker, number)) {
            return Ok(false);
        }
        let shown = made_at(script, report, worker, number);
        note(&mut firsts, shown, number)?;
    }
    Ok(true)
}
