// SPDX-License-Identifier: GPL-2.0-only
//! The sweep of a script, by as many helpers as it has workers.

ghost use Rattle.std.specs.Prelude.{◌≡◌, ◌<◌, ◌≤◌, ℕ, [], All, IfOk, OnOk, IsTrue, length, map, flat_map, vec_len};
ghost use Rattle.shr_pool.specs.Lines.{queue_line};
ghost use Rattle.shr_pool.specs.Passes as passes;
ghost use Rattle.shr_seats.specs.Standing.{at_first};
ghost use Rattle.shr_walk.specs.Sharing.{IsShared};
ghost use Rattle.shr_assemble.specs.Ends.{sweep_reply};
ghost use Rattle.shr_worker.specs.Replies.{unfound};
ghost use Rattle.shr_run.specs.Sweeps.{IsWorkerDone, worker_of, helped_of, popped_of, HasPass, IsHelperReady, HasHelpedOut, HaveHelpedOut, IsPassBack, AreOnce, handed_out, HaveSwept, SweepsIf};

use shr_base::memory::Memory;
use shr_base::places::Serial;
use shr_base::replies::{Answered, Reply};
use shr_base::scripts::Sweep;
use shr_outside::outside::Gate;
use shr_pool::answers::SweepAnswer;
use shr_pool::helping::help;
use shr_pool::jobs::{JobPass, JobQueue, Jobs};
use shr_walk::seats::Shared;
use shr_walk::worker::Worker;
use shr_worker::tasks::WorkerResult;
use std::alloc::Global;
use std::marker::Model;
use std::sync::Wait;
use std::thread;
use std::thread::Threads;

/// A worker that is done with its commands, and a pass to help with; with the runtime and the
/// tables that it runs with.
#[derive(Drop)]
pub(crate) struct Helper<'a, R: Wait> {
    pub rt: &'a R,
    pub shared: &'a Shared,
    pub worker: WorkerResult<'a>,
    pub pass: JobPass,
}

impl<'a, R: Wait> Model for Helper<'a, R> {
    ghost use Rattle.shr_run.specs.Sweeps.{Helping};

    ghost Value = { Helping };

    ghost view = { λ h. record { shared = h.shared.now; worker = h.worker; pass = h.pass } };
}

/// A worker that has helped, and its pass.
#[derive(Drop)]
pub(crate) struct Helped<'a> {
    pub worker: WorkerResult<'a>,
    pub pass: JobPass,
}

// A helper for each worker, in order, each with a new pass. `Memory` comes for want of memory, here
// or in a worker.
fn hand_out<'a, R: Wait>(
    rt: &'a R,
    alloc: Global,
    shared: &'a Shared,
    jobs: &mut Jobs,
    results: Vec<WorkerResult<'a>>,
) -> Result<Vec<Helper<'a, R>>, Memory>
    requires first { passes.IsJobPass jobs.old.queue jobs.old.first }
    requires none { (passes.pass_view jobs.old.first).popped ≡ [] }
    requires standing { (passes.pass_view jobs.old.first).standing ≡ at_first }
    requires few { vec_len results ≤ 64 }
    ensures queue { OnOk result (jobs.new.queue ≡ jobs.old.queue) }
    ensures first { OnOk result (passes.IsJobPass jobs.new.queue jobs.new.first) }
    ensures view { OnOk result (passes.pass_view jobs.new.first
        ≡ handed_out (passes.pass_view jobs.old.first).pushed (vec_len results.entry)) }
    ensures workers { IfOk result (λ helpers. map worker_of helpers.items ≡ results.entry.items) }
    ensures passes { IfOk result (λ helpers. All (HasPass shared.now jobs.new.queue
        (passes.pass_view jobs.old.first).pushed) helpers.items) }
    ensures whole { OnOk result (All (λ (w : WorkerResult). IsTrue w.whole) results.entry.items) }
{
    let mut helpers = Vec::new(alloc);
    for worker in results {
        if !worker.whole {
            return Err(Memory);
        }
        let pass = jobs.pass();
        helpers.push(Helper {
            rt,
            shared,
            worker,
            pass,
        })?;
    }
    Ok(helpers)
}

// The answer of a helper, as that of its worker.
fn answered(answer: SweepAnswer) -> Answered
    ensures { result ≡ unfound (sweep_reply answer) }
{
    let reply = match answer {
        SweepAnswer::Swept { jobs, freed } => Reply::Swept { jobs, freed },
        SweepAnswer::Memory { freed } => Reply::WalkMemory { freed },
    };
    Answered { reply, found: None }
}

// Helps with the sweep until no job is left, and answers. Without memory for the answer the result
// isn't whole, and nothing was popped.
fn help_out<'a, R: Wait, G: Gate>(
    queue: &JobQueue,
    sweep: Sweep,
    helper: Helper<'a, R>,
    gate: &G,
) -> Helped<'a>
    requires priority { sweep.priority ≤ 12 }
    requires ready { IsHelperReady queue.now helper }
    ensures { HasHelpedOut queue.now sweep helper.entry result }
{
    let Helper {
        rt,
        shared,
        worker,
        pass,
    } = helper;
    let mut result = worker;
    let mut pass = pass;
    if result.answers.reserve(1).is_err() {
        result.whole = false;
        return Helped {
            worker: result,
            pass,
        };
    }
    let by = Serial {
        worker: result.number,
        command: result.answers.len() as u32,
    };
    gate.before(by.worker, by.command);
    let seats = result.seats;
    let mut worker = Worker {
        rt,
        shared,
        seats,
        by,
    };
    let answer = help(&mut worker, queue, &mut pass, sweep.priority, sweep.nofs);
    result.seats = worker.seats;
    result.answers.push(answered(answer));
    Helped {
        worker: result,
        pass,
    }
}

// Each helper in a thread of its own, where one can be made. It waits for all.
fn help_all<'a, R: Threads + Wait + Sync, G: Gate + Sync>(
    rt: &R,
    queue: &JobQueue,
    sweep: Sweep,
    helpers: Vec<Helper<'a, R>>,
    gate: &G,
) -> Result<Vec<Helped<'a>>, Memory>
    requires priority { sweep.priority ≤ 12 }
    requires ready { All (IsHelperReady queue.now) helpers.items }
    ensures len { IfOk result (λ done. vec_len done ≡ vec_len helpers.entry) }
    ensures helped { IfOk result (λ done. HaveHelpedOut queue.now sweep helpers.entry.items
        done.items) }
{
    Ok(thread::map_vec(
        rt,
        helpers,
        &|helper: Helper<R>| -> Helped
            requires { (sweep.priority ≤ 12) × IsHelperReady queue.now helper }
            ensures { HasHelpedOut queue.entry.now sweep helper.entry result }
        { help_out(queue, sweep, helper, gate) },
    )?)
}

// The workers that helped, whose passes are joined, in order.
fn join_passes<'a>(
    alloc: Global,
    jobs: Jobs,
    helped: Vec<Helped<'a>>,
) -> Result<Vec<WorkerResult<'a>>, Memory>
    requires first { passes.IsJobPass jobs.queue jobs.first }
    requires view { passes.pass_view jobs.first
        ≡ handed_out (passes.pass_view jobs.first).pushed (vec_len helped) }
    requires back { All (IsPassBack jobs.queue) helped.items }
    ensures workers { IfOk result (λ workers. workers.items ≡ map helped_of helped.entry.items) }
    ensures once { OnOk result ((nodes groups : ℕ) → 0 < vec_len helped.entry
        → (passes.pass_view jobs.first).pushed ≡ queue_line nodes groups
        → AreOnce nodes groups (flat_map popped_of helped.entry.items)) }
{
    let mut jobs = jobs;
    let mut workers = Vec::new(alloc);
    for helper in helped {
        let Helped { worker, pass } = helper;
        jobs.join(pass);
        workers.push(worker)?;
    }
    Ok(workers)
}

// The sweep. If a result isn't whole, no helper starts.
fn sweep_all<'a, R: Threads + Wait + Sync, G: Gate + Sync>(
    rt: &'a R,
    alloc: Global,
    shared: &'a Shared,
    sweep: Sweep,
    results: Vec<WorkerResult<'a>>,
    gate: &G,
) -> Result<Vec<WorkerResult<'a>>, Memory>
    requires shared { IsShared shared.now }
    requires sweep { shared.now.script.sweep ≡ Some sweep }
    requires count { vec_len results ≡ length shared.now.script.workers.items }
    requires done { All (IsWorkerDone shared.now) results.items }
    ensures { IfOk result (λ swept. HaveSwept shared.now sweep results.entry.items swept.items) }
{
    let script = &shared.script;
    let mut jobs = Jobs::fill(rt, alloc, script.nodes, script.groups.len() as u16 + 1)?;
    let helpers = hand_out(rt, alloc, shared, &mut jobs, results)?;
    let helped = help_all(rt, &jobs.queue, sweep, helpers, gate)?;
    join_passes(alloc, jobs, helped)
}

/// Makes the sweep of the script, if it has one: the workers' seats go to as many helpers, which
/// work off one queue. `Memory` comes for want of memory; if it comes for the queue, or in a
/// worker before, no helper starts. The gate is called before each helper starts. It waits as the
/// helpers do.
pub(crate) fn sweep_if<'a, R: Threads + Wait + Sync, G: Gate + Sync>(
    rt: &'a R,
    alloc: Global,
    shared: &'a Shared,
    results: Vec<WorkerResult<'a>>,
    gate: &G,
) -> Result<Vec<WorkerResult<'a>>, Memory>
    requires shared { IsShared shared.now }
    requires count { vec_len results ≡ length shared.now.script.workers.items }
    requires done { All (IsWorkerDone shared.now) results.items }
    ensures { IfOk result (λ swept. SweepsIf shared.now shared.now.script.sweep
        results.entry.items swept.items) }
{
    match shared.script.sweep {
        None => Ok(results),
        Some(sweep) => sweep_all(rt, alloc, shared, sweep, results, gate),
    }
}
