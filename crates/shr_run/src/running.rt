// SPDX-License-Identifier: GPL-2.0-only
//! A run, from a script to what its tables and its workers leave.

ghost use Rattle.std.specs.Prelude.{◌≡◌, IfOk};
ghost use Rattle.shr_script.specs.Content.{content_of, IsValid};
ghost use Rattle.shr_assemble.specs.Putting.{AreEnds};

use crate::joining::join_all;
use crate::starting::split_all;
use crate::sweeping::sweep_if;
use crate::working::run_all;
use shr_assemble::logs::WorkerLog;
use shr_base::memory::Memory;
use shr_base::scripts::Script;
use shr_outside::outside::Gate;
use shr_tables::ending::{Ends, finish};
use shr_tables::opening::open;
use std::alloc::Global;
use std::sync::Wait;
use std::thread::Threads;

/// What is left of a run: the ends of its tables, with its script, and the log of each worker, in
/// order.
#[derive(Drop)]
pub(crate) struct Ran {
    pub ends: Ends,
    pub logs: Vec<WorkerLog>,
}

/// Opens the tables of a valid script, runs its workers on threads, makes its sweep if it has
/// one, joins their seats and ends the tables. `Memory` comes for want of memory. It waits as the
/// workers and the helpers do.
pub(crate) fn run<R: Threads + Wait + Sync, G: Gate + Sync>(
    rt: &R,
    alloc: Global,
    script: Script,
    gate: &G,
) -> Result<Ran, Memory>
    requires { IsValid (content_of script) }
    ensures script { IfOk result (λ ran. ran.ends.script ≡ script) }
    ensures ran { IfOk result (λ ran. AreEnds ran.logs.items ran.ends) }
{
    let (tables, first) = open(rt, alloc, script)?;
    let mut crew = first.at(&tables);
    let starts = split_all(rt, alloc, &tables, &mut crew)?;
    let results = run_all(rt, alloc, starts, gate)?;
    let swept = sweep_if(rt, alloc, &tables.shared, results, gate)?;
    let logs = join_all(alloc, &mut crew, swept)?;
    let first = crew.leave();
    let ends = finish(alloc, tables, first)?;
    Ok(Ran { ends, logs })
}
