// SPDX-License-Identifier: GPL-2.0-only
//! The workers' seats, joined once they are done.

ghost use Rattle.std.specs.Prelude.{◌≡◌, IfOk, OnOk, All, IsTrue, map};
ghost use Rattle.shr_tables.specs.Firsts.{AreFirst, held_by};
ghost use Rattle.shr_run.specs.Joins.{IsAtEnd, AreJoinedAll, log_of};

use shr_assemble::logs::WorkerLog;
use shr_base::memory::Memory;
use shr_tables::parting::Notes;
use shr_tables::tables::CrewSeats;
use shr_worker::tasks::WorkerResult;
use std::alloc::Global;

/// Joins the seats of all workers into the first ones, in order, and gives what each worker
/// answered and noted. `Memory` comes for want of memory, here or in a worker.
pub(crate) fn join_all<'a>(
    alloc: Global,
    first: &mut CrewSeats<'a>,
    results: Vec<WorkerResult<'a>>,
) -> Result<Vec<WorkerLog>, Memory>
    requires first { AreFirst first.old }
    requires results { All (IsAtEnd (held_by first.old)) results.items }
    ensures first { OnOk result (AreFirst first.new) }
    ensures joined { OnOk result (AreJoinedAll first.old results.entry.items first.new) }
    ensures whole { OnOk result (All (λ (w : WorkerResult). IsTrue w.whole) results.entry.items) }
    ensures logs { IfOk result (λ logs. logs.items ≡ map log_of results.entry.items) }
{
    let mut logs = Vec::new(alloc);
    for worker in results {
        let WorkerResult {
            number: _,
            seats,
            plain,
            answers,
            isolations,
            whole,
        } = worker;
        if !whole {
            return Err(Memory);
        }
        let Notes {
            walks,
            carries,
            uses,
            plain,
        } = first.join(CrewSeats { seats, plain });
        logs.push(WorkerLog {
            answers,
            walks,
            carries,
            uses,
            plain,
            isolations,
        })?;
    }
    Ok(logs)
}
