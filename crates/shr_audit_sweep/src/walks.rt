// SPDX-License-Identifier: GPL-2.0-only
//! The walks that a worker made for the sweep.

ghost use Rattle.std.specs.Prelude.{◌≡◌, ◌≤◌, length, sum_by};
ghost use Rattle.std.specs.Bool.{Decides};
ghost use Rattle.shr_base.specs.Walks.{WalkRecord};
ghost use Rattle.shr_audit_formed.specs.Each.{EachItem};
ghost use Rattle.shr_model.specs.Walks.{freed_told};
ghost use Rattle.shr_laws.specs.Parts.{commands_of};
ghost use Rattle.shr_laws.specs.Swept.{IsSweepWalk, sweep_walks};
ghost use Rattle.shr_laws.specs.WellFormed.{IsWellFormed};

use shr_audit_passes::commands::walks_of;
use shr_base::scripts::{Script, Sweep};
use shr_base::walks::{WalkAnswer, WalkRecord};
use shr_laws::report::Report;

/// How many commands a worker has; none past the last worker.
pub(crate) fn count_commands(script: &Script, worker: usize) -> usize
    ensures { result ≡ length (commands_of script.now worker) }
{
    match script.workers.get(worker) {
        Some(worker) => worker.commands.len(),
        None => 0,
    }
}

/// The walks that a worker made for the sweep.
pub(crate) fn sweep_walks<'a>(
    script: &Script,
    report: &'a Report,
    worker: usize,
) -> &'a [WalkRecord]
    requires { IsWellFormed report.now }
    ensures { result.now ≡ sweep_walks script.now report.now worker }
{
    let parts = report.workers.as_slice();
    if worker >= parts.len() {
        return &[];
    }
    let walks = parts[worker].walks.as_slice();
    walks_of(walks, count_commands(script, worker))
}

// Whether a walk is of a group on a node of the script, with the priority and the kind of its sweep.
fn is_sweep_walk(script: &Script, sweep: Sweep, walk: &WalkRecord) -> bool
    ensures { Decides result (IsSweepWalk script.now sweep walk.now) }
{
    walk.group as usize <= script.groups.len()
        && walk.node < script.nodes
        && walk.priority == sweep.priority
        && walk.nofs == sweep.nofs
}

/// Whether each of these walks is.
pub(crate) fn are_sweep_walks(script: &Script, sweep: Sweep, walks: &[WalkRecord]) -> bool
    ensures { Decides result (EachItem (IsSweepWalk script.now sweep) walks.now) }
{
    for walk in walks {
        if !is_sweep_walk(script, sweep, walk) {
            return false;
        }
    }
    true
}

// How much a walk told that it freed.
fn freed_told(answer: WalkAnswer) -> u64
    ensures { result ≡ freed_told answer }
{
    match answer {
        WalkAnswer::Walked { freed } => freed,
        WalkAnswer::Offline { .. } => 0,
        WalkAnswer::Memory { freed } => freed,
    }
}

/// Whether these walks told that they freed so much together.
pub(crate) fn have_freed(walks: &[WalkRecord], freed: u64) -> bool
    ensures { Decides result
        (freed ≡ sum_by (λ (w : WalkRecord). freed_told w.answer) walks.now) }
{
    let mut left = freed;
    for walk in walks {
        let told = freed_told(walk.answer());
        if told > left {
            return false;
        }
        left -= told;
    }
    left == 0
}
