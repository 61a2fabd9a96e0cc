// SPDX-License-Identifier: GPL-2.0-only
//! Filling the queue, its passes, and popping.

ghost use Rattle.std.specs.Prelude.{ℕ, ◌≡◌, ◌<◌, ◌≤◌, ◌+◌, ◌*◌, ◌/◌, ◌++◌, [], length, map, replicate, true, false, IfOk, MatchOption};
ghost use Rattle.crossbeam_queue.specs.Passes.{view, IsPassOf, ruled_capacity};
ghost use Rattle.shr_seats.specs.Standing.{at_first, at_split, with_split, with_join, IsWhole};
ghost use Rattle.shr_pool.specs.declared.items.SweepItem.TheVariants.{Walk, End};
ghost use Rattle.shr_pool.specs.Known.{HasPoppedWithin};
ghost use Rattle.shr_pool.specs.Lines.{ends, job_at, queue_line, most_helpers};
ghost use Rattle.shr_pool.specs.Passes.{IsFilling, IsHandedOut, IsJobPass, pass_view};
ghost use Rattle.shr_pool.specs.Worked.{ArePopped, AreWorked, AreEachOnce};
ghost use Rattle.shr_pool.specs.Rule.{with_push, with_pop, split_pass_view, joined_pass_view, new_pass_view};

use crate::items::{SweepItem, SweepJob};
use crate::law::{Law, Popped, Pushed, Seating, Shown};
use crate::view::PassView;
use crossbeam_queue::{Pass, RuledArrayQueue};
use shr_base::memory::Memory;
use std::alloc::Global;
use std::sync::Wait;

/// How many helpers there may be.
pub const MOST_HELPERS: usize = 64;

/// The queue of jobs, whose rule says which jobs were pushed and who popped each.
pub(crate) type Queue = RuledArrayQueue<SweepItem, PassView, Law>;

/// What one helper pops with. It may be sent to a thread.
#[derive(Drop)]
pub struct JobPass {
    pub(crate) pass: Pass<SweepItem, PassView>,
}

/// The queue, which helpers share.
#[derive(Drop)]
pub struct JobQueue {
    pub(crate) ring: Queue,
}

/// The queue, with its first pass, which stays with the thread that made it: a pass can't be lent to
/// two threads, so only `queue` is lent.
#[derive(Drop)]
pub struct Jobs {
    pub queue: JobQueue,
    pub first: JobPass,
}

fn push<R: Wait>(rt: &R, queue: &Queue, pass: &mut Pass<SweepItem, PassView>, item: SweepItem)
    requires pass { IsPassOf queue.now pass.old }
    requires filling { IsFilling (view pass.old) }
    requires room { length (view pass.old).pushed < ruled_capacity queue.now }
    ensures pass { IsPassOf queue.now pass.new }
    ensures pushed { view pass.new ≡ with_push (view pass.old) item }
{
    match queue.push_as::<Pushed, R>(rt, pass, item) {
        Ok(()) => {}
        Err(_) => unreachable!(),
    }
}

// The job with this number.
fn job(nodes: u8, groups: u16, i: usize) -> SweepJob
    requires groups { 0 < groups }
    requires i { i < nodes * groups }
    ensures { result ≡ job_at groups i }
{
    SweepJob {
        group: (i % groups as usize) as u16,
        node: (i / groups as usize) as u8,
    }
}

impl Jobs {
    /// A queue with a job for each group on each node, by node and then by group, and behind them
    /// [`MOST_HELPERS`] marks.
    ///
    /// `nodes` is from 1 to 4, and `groups`, the root counted, from 1 to 256. Memory comes where there
    /// is no room for all of them at once; then nothing stands. No push finds the queue full.
    pub fn fill<R: Wait>(rt: &R, alloc: Global, nodes: u8, groups: u16) -> Result<Jobs, Memory>
        requires nodes { (0 < nodes) × (nodes ≤ 4) }
        requires groups { (0 < groups) × (groups ≤ 256) }
        ensures pass { IfOk result (λ j. IsJobPass j.queue j.first) }
        ensures line { IfOk result (λ j. (pass_view j.first).pushed ≡ queue_line nodes groups) }
        ensures none { IfOk result (λ j. (pass_view j.first).popped ≡ []) }
        ensures standing { IfOk result (λ j. (pass_view j.first).standing ≡ at_first) }
    {
        let count = nodes as usize * groups as usize;
        let (queue, mut pass) = Queue::ruled(alloc, count + MOST_HELPERS)?;
        for i in 0..count {
            push(
                rt,
                &queue,
                &mut pass,
                SweepItem::Walk {
                    job: job(nodes, groups, i),
                },
            );
        }
        for _mark in 0..MOST_HELPERS {
            push(rt, &queue, &mut pass, SweepItem::End);
        }
        Ok(Jobs {
            queue: JobQueue { ring: queue },
            first: JobPass { pass },
        })
    }

    /// A pass for a helper, which has popped nothing and knows what was pushed. Once one was handed
    /// out nothing more is pushed.
    pub fn pass(&mut self) -> JobPass
        requires first { IsJobPass self.old.queue self.old.first
            × ((pass_view self.old.first).standing.first ≡ true) }
        requires few { (pass_view self.old.first).standing.splits < most_helpers }
        ensures queue { self.new.queue ≡ self.old.queue }
        ensures first { IsJobPass self.new.queue self.new.first
            × (pass_view self.new.first ≡ split_pass_view (pass_view self.old.first)) }
        ensures pass { IsJobPass self.new.queue result
            × (pass_view result ≡ new_pass_view (pass_view self.old.first)) }
    {
        JobPass {
            pass: self.queue.ring.another::<Seating>(&mut self.first.pass),
        }
    }

    /// Joins a helper's pass into the first one, which then has what that one popped. Once all are
    /// joined, no job was popped twice, and where a mark was popped each job was popped once.
    pub fn join(&mut self, pass: JobPass)
        requires first { IsJobPass self.old.queue self.old.first
            × ((pass_view self.old.first).standing.first ≡ true) }
        requires pass { IsHandedOut self.old.queue pass }
        ensures queue { self.new.queue ≡ self.old.queue }
        ensures first { IsJobPass self.new.queue self.new.first
            × (pass_view self.new.first ≡ joined_pass_view (pass_view self.old.first)
            (pass_view pass)) }
        ensures popped { IsWhole (pass_view self.new.first).standing
            → ArePopped (pass_view self.new.first) }
        ensures worked { (nodes groups : ℕ) → IsWhole (pass_view self.new.first).standing
            → (pass_view self.new.first).pushed ≡ queue_line nodes groups → AreWorked nodes groups
            (pass_view self.new.first) }
        ensures once { (nodes groups : ℕ) → IsWhole (pass_view self.new.first).standing
            → (pass_view self.new.first).pushed ≡ queue_line nodes groups → AreEachOnce nodes groups
            (pass_view self.new.first) }
    {
        let JobPass { pass } = pass;
        self.queue
            .ring
            .absorb::<Seating>(&mut self.first.pass, pass);
        self.queue.ring.learn_as::<Shown>(&mut self.first.pass);
    }
}

impl JobQueue {
    /// The next job, or None where the pass met its mark: then no job is left, now or ever. A pass
    /// that met its mark pops no more. Of no item it has popped more than was pushed.
    ///
    /// It waits only while another pass is in the middle of a pop.
    pub fn pop<R: Wait>(&self, rt: &R, pass: &mut JobPass) -> Option<SweepJob>
        requires pass { IsHandedOut self.now pass.old }
        requires open { ends (pass_view pass.old).popped ≡ 0 }
        requires marked { most_helpers ≤ ends (pass_view pass.old).pushed }
        ensures pass { IsJobPass self.now pass.new }
        ensures popped { MatchOption result (pass_view pass.new ≡ with_pop (pass_view pass.old) End)
            (λ job. pass_view pass.new ≡ with_pop (pass_view pass.old) (Walk job)) }
        ensures within { HasPoppedWithin (pass_view pass.new) }
    {
        match self.ring.pop_as::<Popped, R>(rt, &mut pass.pass) {
            Some(SweepItem::Walk { job }) => Some(job),
            Some(SweepItem::End) => None,
            None => unreachable!(),
        }
    }
}
