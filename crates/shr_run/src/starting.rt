// SPDX-License-Identifier: GPL-2.0-only
//! Seats for all workers.

ghost use Rattle.std.specs.Prelude.{◌≡◌, IfOk, OnOk, length, vec_len};
ghost use Rattle.shr_core.specs.Seats.{view_of};
ghost use Rattle.shr_plain.specs.Opening.{ArePoolsOf};
ghost use Rattle.shr_walk.specs.Sharing.{IsShared};
ghost use Rattle.shr_run.specs.Tasks.{AreSplitOff, AreTasks};

use crate::working::Start;
use shr_base::memory::Memory;
use shr_tables::tables::{CrewSeats, Tables};
use shr_worker::tasks::Task;
use std::alloc::Global;
use std::sync::Wait;

/// A task for each worker of the script, in order, each with seats split off the first ones.
/// `Memory` comes for want of memory.
pub(crate) fn split_all<'a, R: Wait>(
    rt: &'a R,
    alloc: Global,
    tables: &'a Tables,
    first: &mut CrewSeats<'a>,
) -> Result<Vec<Start<'a, R>>, Memory>
    requires shared { IsShared tables.now.shared }
    requires pools { ArePoolsOf tables.now.shared.script tables.now.pools }
    requires first { AreSplitOff tables.now (view_of first.old.seats.cache.core) 0 first.old }
    ensures first { OnOk result (AreSplitOff tables.now (view_of first.old.seats.cache.core)
        (length tables.now.shared.script.workers.items) first.new) }
    ensures len { IfOk result (λ starts. vec_len starts
        ≡ length tables.now.shared.script.workers.items) }
    ensures tasks { IfOk result (λ starts. AreTasks tables.now
        (view_of first.old.seats.cache.core) starts.items) }
{
    let mut starts = Vec::new(alloc);
    for number in 0..tables.shared.script.workers.len() {
        let CrewSeats { seats, plain } = first.split(alloc)?;
        let task = Task {
            number: number as u16,
            seats,
            plain,
        };
        starts.push(Start {
            rt,
            shared: &tables.shared,
            task,
        })?;
    }
    Ok(starts)
}
