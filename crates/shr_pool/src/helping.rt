// SPDX-License-Identifier: GPL-2.0-only
//! A helper of a sweep.

ghost use Rattle.std.specs.Prelude.{◌≡◌, ◌≤◌};
ghost use Rattle.shr_pool.specs.Lines.{ends};
ghost use Rattle.shr_pool.specs.Passes as passes;
ghost use Rattle.shr_walk.specs.Acting.{IsSame};
ghost use Rattle.shr_pool.specs.Helping.{HelpGives, IsLineWithin};

use crate::answers::SweepAnswer;
use crate::jobs::{JobPass, JobQueue};
use shr_walk::balance::{is_short, told, walk_one};
use shr_walk::worker::Worker;
use std::sync::Wait;

/// Pops jobs and walks each, until the pass meets its mark: then no job is left, and it answers Swept.
///
/// The priority is at most 12, and each walk may enter a filesystem unless `nofs` is set. A group that is offline counts as
/// walked, with nothing freed. After the first walk that ends for want of memory it pops no more, and answers Memory; what
/// its walks did stands. It waits for rooms of the caches, and while another pass is in the middle of a pop.
///
/// Our own. Linux walks all groups in one thread, as `drop_slab` in mm/vmscan.c does.
pub fn help<R: Wait>(
    worker: &mut Worker<'_, R>,
    queue: &JobQueue,
    pass: &mut JobPass,
    priority: u8,
    nofs: bool,
) -> SweepAnswer
    requires priority { priority ≤ 12 }
    requires pass { passes.IsHandedOut queue.now pass.old }
    requires open { ends (passes.pass_view pass.old).popped ≡ 0 }
    requires line { IsLineWithin worker.old.shared (passes.pass_view pass.old) }
    ensures pass { passes.IsHandedOut queue.now pass.new }
    ensures helped { HelpGives worker.old.shared worker.old.by priority nofs result
        (passes.pass_view pass.old) (passes.pass_view pass.new) worker.old.state worker.new.state }
    ensures same { IsSame worker.old worker.new }
{
    let mut jobs = 0;
    let mut freed = 0;
    for _turn in worker.rt.forever() {
        let job = match queue.pop(worker.rt, pass) {
            Some(job) => job,
            None => return SweepAnswer::Swept { jobs, freed },
        };
        let answer = walk_one(worker, job.group, job.node, priority, nofs);
        freed += told(&answer);
        if is_short(&answer) {
            return SweepAnswer::Memory { freed };
        }
        jobs += 1;
    }
    unreachable!()
}
