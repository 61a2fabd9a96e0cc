// SPDX-License-Identifier: GPL-2.0-only
//! What helpers of a sweep come to, one after another.

use crate::commands::{Command, ask};
use crate::desk::opening::{open, worker_at};
use shr_pool::answers::SweepAnswer;
use shr_pool::helping::help;
use shr_pool::jobs::Jobs;
use shr_walk::worker::Worker;
use std::alloc::Global;
use std::sync::Wait;
use std::test::Fail;

// /p is group 1, and /p/c group 2.
const FAMILY: &[u8] =
    b"shrinkers 1\nsize 1 1\ngroup /p max\ngroup /p/c max\ncache dentry plain 2 0 0 any on\nend\n";

// What two helpers answer, of whom the second comes when the first is done.
type Helped = (SweepAnswer, SweepAnswer);

// Two helpers work off the jobs of all groups on node 0.
fn helped<R: Wait>(worker: &mut Worker<'_, R>) -> Option<Helped> {
    let rt = worker.rt;
    let alloc = worker.shared.core.alloc;
    let shape = worker.shared.core.shape();
    let groups = shape.parents.len();
    if shape.nodes == 0 || groups == 0 || groups > 256 {
        return None;
    }
    let mut jobs = Jobs::fill(rt, alloc, 1, groups as u16).ok()?;
    let mut one = jobs.pass();
    let mut two = jobs.pass();
    let first = help(worker, &jobs.queue, &mut one, 0, false);
    let second = help(worker, &jobs.queue, &mut two, 0, false);
    jobs.join(one);
    jobs.join(two);
    Some((first, second))
}

// The same if a group has an object and the one below it two.
fn helped_family<R: Wait>(rt: &R, alloc: Global) -> Result<Option<Helped>, Fail> {
    let (shared, first) = open(alloc, FAMILY)?;
    let mut worker = worker_at(rt, &shared, first)?;
    ask(&mut worker, Command::Put, 1, b"k1");
    ask(&mut worker, Command::Put, 2, b"k2");
    ask(&mut worker, Command::Put, 2, b"k3");
    let helped = helped(&mut worker);
    Ok(helped)
}

#[test]
fn the_first_helper_walks_all_and_the_second_nothing(rt: HostRuntime) -> Result<(), Fail> {
    let helped = helped_family(&rt, rt.alloc())?;
    let all = SweepAnswer::Swept { jobs: 3, freed: 3 };
    let none = SweepAnswer::Swept { jobs: 0, freed: 0 };
    assert_eq!(rt; helped, Some((all, none)));
    Ok(())
}
