// SPDX-License-Identifier: GPL-2.0-only
//! The walks of the pools that commands have.

ghost use Rattle.std.specs.Prelude.{◌≡◌, ◌==◌, ℕ, ◌<◌, ◌≤◌, filter, length, map, slice_get, Some, option_map, option_to_list};
ghost use Rattle.std.specs.Bool.{Decides};
ghost use Rattle.shr_base.specs.declared.walks.PlainWalk.{PlainWalk};
ghost use Rattle.shr_audit_formed.specs.Each.{EachItem};
ghost use Rattle.shr_laws.specs.Parts.{commands_of, EachAnswer};
ghost use Rattle.shr_laws.specs.UnitParts.{EachPlain, plain_by, plain_due, plain_job_of, plain_jobs};
ghost use Rattle.shr_laws.specs.WellFormed.{IsWellFormed};
ghost use Rattle.shr_audit_pools.specs.Due.{HasDue, IsDue, IsPartDue, PoolWalksByCommand, job_told};

use shr_audit_case::serials::{answer_at, command_at};
use shr_base::ends::WorkerPart;
use shr_base::replies::{Answered, Reply};
use shr_base::scripts::{Command, Script};
use shr_base::walks::PlainWalk;
use shr_laws::report::Report;

/// What a walk of the pools is to do.
#[derive(Clone, Copy, Debug, PartialEq, Eq)]
pub struct Job {
    pub node: u8,
    pub priority: u8,
}

// The walk of the pools that a command with this answer has, if there is a pool.
fn job_of(command: &Command, reply: &Reply) -> Option<Job>
    ensures { option_to_list (option_map job_told result) ≡ plain_jobs command.now reply.now }
{
    match (command, reply) {
        (Command::Balance { node, priority, .. }, Reply::Walked { .. }) => Some(Job {
            node: *node,
            priority: *priority,
        }),
        (
            Command::Shrink {
                group,
                node,
                priority,
                ..
            },
            Reply::Walked { .. },
        ) => {
            if *group == 0 {
                Some(Job {
                    node: *node,
                    priority: *priority,
                })
            } else {
                None
            }
        }
        _ => None,
    }
}

// The same in any script.
fn job_due(script: &Script, command: &Command, reply: &Reply) -> Option<Job>
    ensures { option_to_list (option_map job_told result)
        ≡ plain_due script.now command.now reply.now }
{
    if script.pools.len() == 0 {
        return None;
    }
    job_of(command, reply)
}

// Whether a walk of the pools did this.
fn is_job(job: Job, walk: &PlainWalk) -> bool
    ensures { Decides result (plain_job_of walk.now ≡ job_told job) }
{
    walk.node == job.node && walk.priority == job.priority
}

// Whether these are the walk that is due, or none if none is.
fn are_due(due: Option<Job>, walks: &[PlainWalk]) -> bool
    ensures { Decides result
        (map plain_job_of walks.now ≡ option_to_list (option_map job_told due)) }
{
    match due {
        Some(job) => walks.len() == 1 && is_job(job, &walks[0]),
        None => walks.is_empty(),
    }
}

// The index of the first walk that isn't of an earlier command.
fn first_of(walks: &[PlainWalk], command: usize) -> usize
    requires { PoolWalksByCommand walks.now }
    ensures within { result ≤ length walks.now }
    ensures before { (n : ℕ) (w : PlainWalk) → n < result → slice_get walks.now n ≡ Some w
        → w.by.command < command }
    ensures behind { (n : ℕ) (w : PlainWalk) → result ≤ n → slice_get walks.now n ≡ Some w
        → command ≤ w.by.command }
{
    walks.partition_point(|walk| (walk.by.command as usize) < command)
}

// The index behind the last walk that isn't of a later command.
fn behind_of(walks: &[PlainWalk], command: usize) -> usize
    requires { PoolWalksByCommand walks.now }
    ensures within { result ≤ length walks.now }
    ensures before { (n : ℕ) (w : PlainWalk) → n < result → slice_get walks.now n ≡ Some w
        → w.by.command ≤ command }
    ensures behind { (n : ℕ) (w : PlainWalk) → result ≤ n → slice_get walks.now n ≡ Some w
        → command < w.by.command }
{
    walks.partition_point(|walk| walk.by.command as usize <= command)
}

// The walks of a command, of those of its worker in the order of their commands.
fn walks_of(walks: &[PlainWalk], command: usize) -> &[PlainWalk]
    requires { PoolWalksByCommand walks.now }
    ensures { result.now ≡ filter (λ (w : PlainWalk). w.by.command == command) walks.now }
{
    let low = first_of(walks, command);
    let high = behind_of(walks, command);
    if low < high { &walks[low..high] } else { &[] }
}

/// The commands of a worker; none past the last worker.
pub fn commands_of(script: &Script, worker: usize) -> &[Command]
    ensures { result.now ≡ commands_of script.now worker }
{
    match script.workers.get(worker) {
        Some(worker) => worker.commands.as_slice(),
        None => &[],
    }
}

// Whether a command with this answer has these walks, where there is such a command.
fn has_due(
    script: &Script,
    commands: &[Command],
    number: usize,
    answer: &Answered,
    walks: &[PlainWalk],
) -> bool
    ensures { Decides result (HasDue script.now commands.now number answer.now walks.now) }
{
    match commands.get(number) {
        Some(command) => are_due(job_due(script, command, &answer.reply), walks),
        None => true,
    }
}

// Whether each command of a worker has the walks that are due.
fn is_part_due(script: &Script, worker: usize, part: &WorkerPart) -> bool
    requires { PoolWalksByCommand part.now.plain.items }
    ensures { Decides result (IsPartDue script.now worker part.now) }
{
    let commands = commands_of(script, worker);
    let walks = part.plain.as_slice();
    let answers = part.answers.as_slice();
    for n in 0..answers.len() {
        if !has_due(script, commands, n, &answers[n], walks_of(walks, n)) {
            return false;
        }
    }
    true
}

/// Whether each command has the walks of the pools that are due to its answer, and no other.
pub fn are_walks_due(script: &Script, report: &Report) -> bool
    requires { IsWellFormed report.now }
    ensures { Decides result (EachAnswer script.now report.now (λ by c a.
        map plain_job_of (plain_by report.now by) ≡ plain_due script.now c a.reply)) }
{
    let parts = report.workers.as_slice();
    for worker in 0..parts.len() {
        if !is_part_due(script, worker, &parts[worker]) {
            return false;
        }
    }
    true
}

// Whether a walk of the pools is due to a command of the script, by its reply.
fn is_due(script: &Script, report: &Report, walk: &PlainWalk) -> bool
    ensures { Decides result (IsDue script.now report.now walk.now) }
{
    let Some(command) = command_at(script, walk.by) else {
        return false;
    };
    let Some(answer) = answer_at(report, walk.by) else {
        return false;
    };
    job_due(script, command, &answer.reply).is_some()
}

// Whether each of these walks is.
fn are_all_due(script: &Script, report: &Report, walks: &[PlainWalk]) -> bool
    ensures { Decides result (EachItem (IsDue script.now report.now) walks.now) }
{
    for walk in walks {
        if !is_due(script, report, walk) {
            return false;
        }
    }
    true
}

/// Whether each walk of the pools is due to a command of the script.
pub fn are_walks_of_commands(script: &Script, report: &Report) -> bool
    ensures { Decides result (EachPlain report.now (λ worker n w.
        IsDue script.now report.now w)) }
{
    for part in report.workers.as_slice() {
        if !are_all_due(script, report, part.plain.as_slice()) {
            return false;
        }
    }
    true
}
