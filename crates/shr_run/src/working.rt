// SPDX-License-Identifier: GPL-2.0-only
//! The workers on threads.

ghost use Rattle.std.specs.Prelude.{◌≡◌, All, IfOk, vec_len};
ghost use Rattle.shr_worker.specs.Tasks.{IsTask};
ghost use Rattle.shr_run.specs.Tasks.{Starting, HasRun, HaveRun};

use shr_base::memory::Memory;
use shr_outside::outside::Gate;
use shr_walk::seats::Shared;
use shr_worker::running::run_worker;
use shr_worker::tasks::{Task, WorkerResult};
use std::alloc::Global;
use std::marker::Model;
use std::sync::Wait;
use std::thread;
use std::thread::Threads;

/// A worker that can start: its task, with the runtime and the tables that it runs with.
#[derive(Drop)]
pub(crate) struct Start<'a, R: Wait> {
    pub rt: &'a R,
    pub shared: &'a Shared,
    pub task: Task<'a>,
}

impl<'a, R: Wait> Model for Start<'a, R> {
    ghost use Rattle.shr_run.specs.Tasks.{Starting};

    ghost Value = { Starting };

    ghost view = { λ s. record { shared = s.shared.now; task = s.task } };
}

// Runs a worker's task here.
fn run_one<'a, R: Wait, G: Gate>(start: Start<'a, R>, gate: &G) -> WorkerResult<'a>
    requires { IsTask start.shared start.task }
    ensures { HasRun start.entry result }
{
    let Start { rt, shared, task } = start;
    run_worker(rt, shared, task, gate)
}

// Runs these tasks here, one after another.
fn run_here<'a, R: Wait, G: Gate>(
    alloc: Global,
    starts: Vec<Start<'a, R>>,
    gate: &G,
) -> Result<Vec<WorkerResult<'a>>, Memory>
    requires tasks { All (λ (s : Starting). IsTask s.shared s.task) starts.items }
    ensures len { IfOk result (λ results. vec_len results ≡ vec_len starts.entry) }
    ensures run { IfOk result (λ results. HaveRun starts.entry.items results.items) }
{
    let mut results = Vec::new(alloc);
    for start in starts {
        let result = run_one(start, gate);
        results.push(result)?;
    }
    Ok(results)
}

/// Runs each task, in a thread of its own where one can be made, and waits for all; where there is
/// one task, it runs here, since nothing runs beside it and a thread has memory of its own. `Memory`
/// comes for want of memory.
///
/// Linux: tasks and `kswapd` run side by side; here each worker is both.
pub(crate) fn run_all<'a, R: Threads + Wait + Sync, G: Gate + Sync>(
    rt: &R,
    alloc: Global,
    starts: Vec<Start<'a, R>>,
    gate: &G,
) -> Result<Vec<WorkerResult<'a>>, Memory>
    requires tasks { All (λ (s : Starting). IsTask s.shared s.task) starts.items }
    ensures len { IfOk result (λ results. vec_len results ≡ vec_len starts.entry) }
    ensures run { IfOk result (λ results. HaveRun starts.entry.items results.items) }
{
    if starts.len() == 1 {
        return run_here(alloc, starts, gate);
    }
    Ok(thread::map_vec(
        rt,
        starts,
        &|start: Start<R>| -> WorkerResult
            requires { IsTask start.shared start.task }
            ensures { HasRun start.entry result }
        { run_one(start, gate) },
    )?)
}
