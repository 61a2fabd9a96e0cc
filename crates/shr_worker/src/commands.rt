// SPDX-License-Identifier: GPL-2.0-only
//! One command of a worker.

ghost use Rattle.std.specs.Prelude.{◌≡◌, ◌+◌, ◌<◌, ◌≤◌, ◌^◌, IfOk, length};
ghost use Rattle.shr_base.specs.declared.scripts.Command.TheVariants as commands;
ghost use Rattle.shr_core.specs.Seats.{shape_of};
ghost use Rattle.shr_cache.specs.Opening.{IsTargetOf};
ghost use Rattle.shr_plain.specs.Opening.{ArePoolsOf};
ghost use Rattle.shr_plain.specs.Seat.{plain_state_of};
ghost use Rattle.shr_script.specs.Bounds.{IsCommandWithin};
ghost use Rattle.shr_script.specs.Content.{content_of};
ghost use Rattle.shr_walk.specs.Acting.{IsSame};
ghost use Rattle.shr_worker.specs.Commands.{CommandGives};
ghost use Rattle.shr_worker.specs.Isolating.{RecordGives};
ghost use Rattle.shr_worker.specs.Plain.{PlainGives};

use crate::making::mkgroup;
use crate::pools::{grab, is_due, is_due_after, release, walk_if};
use crate::reclaims::{balance, offline, shrink};
use crate::registrations::{register, unregister};
use crate::tenants::put;
use shr_base::log::Log;
use shr_base::memory::Memory;
use shr_base::places::Target;
use shr_base::replies::Answered;
use shr_base::scripts::{Act, Command};
use shr_base::text::Text;
use shr_base::walks::Isolation;
use shr_cache::dels::del;
use shr_cache::gets::get;
use shr_cache::pins::set_pin;
use shr_drop::isolating::isolate;
use shr_plain::PlainSeat;
use shr_walk::worker::Worker;
use std::sync::Wait;

// An act on the object of a key.
fn run_on<R: Wait>(worker: &mut Worker<'_, R>, at: Target, key: &Text, act: Act) -> Answered
    requires target { IsTargetOf (shape_of worker.old.shared.core) at }
    ensures gives { CommandGives worker.old.shared worker.old.by (commands.On at key.now act) result
        worker.old.state worker.new.state }
    ensures same { IsSame worker.old worker.new }
{
    match act {
        Act::Get => get(worker, at, key),
        Act::Del => del(worker, at, key),
        Act::SetPin { pinned } => set_pin(worker, at, key, pinned),
    }
}

/// Runs a command, and after a walk of the root the walk of the pools that is due.
///
/// `Memory` comes if there was no room to note an uncharge of a cache that was unregistered, or
/// for the record of a walk of the pools; every other want of memory is an answer.
pub fn run_command<R: Wait>(
    worker: &mut Worker<'_, R>,
    plain: &mut PlainSeat<'_>,
    isolations: &mut Log<Isolation>,
    command: &Command,
) -> Result<Answered, Memory>
    requires pools { ArePoolsOf worker.old.shared.script plain.old.pools }
    requires within { IsCommandWithin (content_of worker.old.shared.script) command.now }
    requires few { length plain.old.state.walks < 2 ^ 32 }
    ensures pools { plain.new.pools ≡ plain.old.pools }
    ensures few { length plain.new.state.walks ≤ length plain.old.state.walks + 1 }
    ensures gives { IfOk result (λ a. CommandGives worker.old.shared worker.old.by command.now a
        worker.old.state worker.new.state) }
    ensures plain { IfOk result (λ a. PlainGives worker.old.shared.script worker.old.by command.now
        a (plain_state_of plain.old) (plain_state_of plain.new)) }
    ensures recorded { IfOk result (λ a. RecordGives worker.old.shared worker.old.by command.now a
        worker.old.state worker.new.state isolations.old.items isolations.new.items) }
    ensures same { IsSame worker.old worker.new }
{
    // The tables are of the script, whose groups the command names.
    let shared = worker.shared;
    match command {
        Command::Put { at, key, value } => Ok(put(worker, *at, key, value)),
        Command::On { at, key, act } => Ok(run_on(worker, *at, key, *act)),
        Command::Shrink {
            group,
            node,
            priority,
            nofs,
        } => {
            let answered = shrink(worker, *group, *node, *priority, *nofs);
            let due = is_due_after(&shared.script, *group, &answered.reply);
            walk_if(worker, plain, *node, *priority, due)?;
            Ok(answered)
        }
        Command::Balance {
            node,
            priority,
            nofs,
        } => {
            let answered = balance(worker, *node, *priority, *nofs);
            let due = is_due(&shared.script, &answered.reply);
            walk_if(worker, plain, *node, *priority, due)?;
            Ok(answered)
        }
        Command::Offline { group } => Ok(offline(worker, *group)),
        Command::MkGroup { group } => Ok(mkgroup(worker, *group)),
        Command::Register { decl } => Ok(register(worker, *decl)),
        Command::Unregister { decl } => unregister(worker, *decl),
        Command::Release { node, pool, units } => {
            Ok(release(worker, plain, *node, *pool, *units))
        }
        Command::Grab { node, pool } => Ok(grab(worker, plain, *node, *pool)),
        Command::Isolate { at, budget } => Ok(isolate(worker, isolations, *at, *budget)),
    }
}
