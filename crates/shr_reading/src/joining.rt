// SPDX-License-Identifier: GPL-2.0-only
//! Two parts of a script as one.

ghost use Rattle.std.specs.Prelude.{◌≡◌, ◌+◌, IfSome, IsTrue};
ghost use Rattle.shr_script.specs.Content.{content_of};
ghost use Rattle.shr_reading.specs.Parts.{AreDeclaredAlike, AreFewTogether, DoFit, joined_content, all_commands};

use shr_base::scripts::{Script, WorkerScript};

// As many groups, caches and pools.
fn are_declared_alike(first: &Script, second: &Script) -> bool
    ensures { IsTrue result → AreDeclaredAlike (content_of first.now) (content_of second.now) }
{
    first.groups.len() == second.groups.len()
        && first.caches.len() == second.caches.len()
        && first.pools.len() == second.pools.len()
}

// What is left of the room for commands behind those of the workers, or `None` past it.
fn room_behind(room: usize, workers: &[WorkerScript]) -> Option<usize>
    ensures { IfSome result (λ left.
        left + all_commands workers.now ≡ room) }
{
    let mut left = room;
    for worker in workers {
        let commands = worker.commands.len();
        if commands > left {
            return None;
        }
        left -= commands;
    }
    Some(left)
}

// No more workers and commands than a script may have.
fn are_few(first: &[WorkerScript], second: &[WorkerScript]) -> bool
    ensures { IsTrue result → AreFewTogether first.now second.now }
{
    let Some(left) = room_behind(20_000, first) else {
        return false;
    };
    first.len().saturating_add(second.len()) <= 64 && room_behind(left, second).is_some()
}

// Whether two parts behind this head make a script.
fn do_fit(head: &Script, first: &Script, second: &Script) -> bool
    ensures { IsTrue result
        → DoFit (content_of head.now) (content_of first.now) (content_of second.now) }
{
    are_declared_alike(head, first)
        && are_declared_alike(head, second)
        && first.sweep.is_none()
        && first.workers.len() > 0
        && second.workers.len() > 0
        && are_few(first.workers.as_slice(), second.workers.as_slice())
}

// The second with the workers of the first before its own. `None` for want of memory.
fn with_workers(first: Script, second: Script) -> Option<Script>
    ensures { IfSome result (λ s. content_of s ≡ joined_content (content_of first) (content_of second)) }
{
    let Script {
        version: _,
        nodes: _,
        ids: _,
        groups: _,
        caches: _,
        pools: _,
        mut workers,
        sweep: _,
    } = first;
    let Script {
        version,
        nodes,
        ids,
        groups,
        caches,
        pools,
        workers: others,
        sweep,
    } = second;
    workers.reserve(others.len()).ok()?;
    workers.append(others);
    Some(Script {
        version,
        nodes,
        ids,
        groups,
        caches,
        pools,
        workers,
        sweep,
    })
}

/// Two parts behind this head as one script. `None` where they make none, or for want of memory.
pub(crate) fn joined(head: &Script, first: Script, second: Script) -> Option<Script>
    ensures fit { IfSome result (λ s.
        DoFit (content_of head.now) (content_of first) (content_of second)) }
    ensures both { IfSome result (λ s.
        content_of s ≡ joined_content (content_of first) (content_of second)) }
{
    if do_fit(head, &first, &second) {
        with_workers(first, second)
    } else {
        None
    }
}
