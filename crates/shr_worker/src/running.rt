// SPDX-License-Identifier: GPL-2.0-only
//! The run of a worker.

ghost use Rattle.std.specs.Prelude.{◌≡◌, ◌+◌, ◌<◌, ◌≤◌, ◌^◌, [], IfOk, IsTrue, OnOk, length, slice_get, Some};
ghost use Rattle.shr_plain.specs.Opening.{ArePoolsOf};
ghost use Rattle.shr_script.specs.Bounds.{IsCommandWithin};
ghost use Rattle.shr_script.specs.Content.{content_of};
ghost use Rattle.shr_walk.specs.State.{IsRested};
ghost use Rattle.shr_worker.specs.Chain.{DeedGives, IsWorkOf, worker_commands, crew_at, crew_of, command_serial};
ghost use Rattle.shr_worker.specs.Tasks.{IsTask};

use crate::commands::run_command;
use crate::tasks::{Task, WorkerResult};
use shr_base::journals::UseStep;
use shr_base::log::Log;
use shr_base::memory::Memory;
use shr_base::places::Serial;
use shr_base::replies::Answered;
use shr_base::scripts::Command;
use shr_base::walks::Isolation;
use shr_outside::outside::Gate;
use shr_plain::PlainSeat;
use shr_walk::seats::Shared;
use shr_walk::worker::Worker;
use std::sync::Wait;

// Room for what so many commands note, by a guess: most are puts to a group below the root. Each of
// these notes two operations, and asks for room for six. Without it the list grows as they come.
fn expect_notes(uses: &mut Log<UseStep>, commands: usize)
    ensures { uses.new.items ≡ uses.old.items }
{
    let _ = uses.reserve(commands.saturating_mul(2).saturating_add(4));
}

// Runs the worker's command of this number.
fn run_next<R: Wait>(
    worker: &mut Worker<'_, R>,
    plain: &mut PlainSeat<'_>,
    isolations: &mut Log<Isolation>,
    number: u32,
    command: &Command,
) -> Result<Answered, Memory>
    requires pools { ArePoolsOf worker.old.shared.script plain.old.pools }
    requires within { IsCommandWithin (content_of worker.old.shared.script) command.now }
    requires few { length plain.old.state.walks < 2 ^ 32 }
    ensures shared { worker.new.shared ≡ worker.old.shared }
    ensures worker { worker.new.by.worker ≡ worker.old.by.worker }
    ensures pools { plain.new.pools ≡ plain.old.pools }
    ensures few { length plain.new.state.walks ≤ length plain.old.state.walks + 1 }
    ensures deed { IfOk result (λ a. DeedGives worker.old.shared
        (command_serial worker.old.by.worker number) command.now a
        (crew_at worker.old plain.old isolations.old.items)
        (crew_at worker.new plain.new isolations.new.items)) }
{
    worker.by = Serial {
        worker: worker.by.worker,
        command: number,
    };
    let answered = run_command(worker, plain, isolations, command)?;
    // Its seats are at rest again.
    let _seats = &worker.seats;
    Ok(answered)
}

// Runs the commands of a worker in order, as long as there is memory for the answers and the notes.
fn run_commands<R: Wait, G: Gate>(
    worker: &mut Worker<'_, R>,
    plain: &mut PlainSeat<'_>,
    answers: &mut Log<Answered>,
    isolations: &mut Log<Isolation>,
    gate: &G,
) -> Result<(), Memory>
    requires number { worker.old.by.worker < length worker.old.shared.script.workers.items }
    requires pools { ArePoolsOf worker.old.shared.script plain.old.pools }
    requires none { (plain.old.state.walks ≡ []) × (answers.old.items ≡ [])
        × (isolations.old.items ≡ []) }
    ensures shared { worker.new.shared ≡ worker.old.shared }
    ensures pools { plain.new.pools ≡ plain.old.pools }
    ensures all { OnOk result (length answers.new.items
        ≡ length (worker_commands worker.old.shared.script worker.old.by.worker)) }
    ensures work { OnOk result (IsWorkOf worker.old.shared worker.old.by.worker answers.new.items
        (crew_at worker.old plain.old [])
        (crew_at worker.new plain.new isolations.new.items)) }
{
    let number = worker.by.worker;
    let Some(mine) = worker.shared.script.workers.get(number as usize) else {
        unreachable!()
    };
    answers.reserve(mine.commands.len())?;
    expect_notes(&mut worker.seats.cache.uses, mine.commands.len());
    for (k, command) in mine.commands.as_slice().iter().enumerate() {
        answers.reserve(1)?;
        gate.before(number, k as u32);
        let answered = run_next(worker, plain, isolations, k as u32, command)?;
        answers.push(answered);
    }
    Ok(())
}

/// Runs the commands of one worker of the script, one after another. The gate is called before each.
///
/// Want of memory for an answer, to note an uncharge of a cache that was unregistered, or for the
/// record of a walk of the pools ends the run: then the result isn't whole, and what was done last
/// may have no answer or lack its notes. It waits when its commands do.
pub fn run_worker<'a, R: Wait, G: Gate>(
    rt: &'a R,
    shared: &'a Shared,
    task: Task<'a>,
    gate: &G,
) -> WorkerResult<'a>
    requires task { IsTask shared.now task }
    ensures number { result.number ≡ task.entry.number }
    ensures rested { IsRested shared.now result.seats }
    ensures pools { result.plain.pools ≡ task.entry.plain.pools }
    ensures all { IsTrue result.whole → length result.answers.items
        ≡ length (worker_commands shared.now.script task.entry.number) }
    ensures work { IsTrue result.whole → IsWorkOf shared.now task.entry.number result.answers.items
        (crew_of task.entry.seats task.entry.plain [])
        (crew_of result.seats result.plain result.isolations.items) }
{
    let Task {
        number,
        seats,
        plain,
    } = task;
    let mut plain = plain;
    let mut answers = Log::new(shared.core.alloc);
    let mut isolations = Log::new(shared.core.alloc);
    let mut worker = Worker {
        rt,
        shared,
        seats,
        by: Serial {
            worker: number,
            command: 0,
        },
    };
    let whole = run_commands(&mut worker, &mut plain, &mut answers, &mut isolations, gate).is_ok();
    WorkerResult {
        number,
        seats: worker.seats,
        plain,
        answers,
        isolations,
        whole,
    }
}
