// SPDX-License-Identifier: GPL-2.0-only
//! The commands on pools of units, and the walk of the pools that comes after one of the root.

ghost use Rattle.std.specs.Prelude.{◌≡◌, ◌+◌, ◌<◌, ◌≤◌, ◌^◌, ◌==◌, ◌&&◌, OnErr, OnOk, length};
ghost use Rattle.shr_plain.specs.Opening.{ArePoolsOf};
ghost use Rattle.shr_plain.specs.Seat.{ActsPlain, plain_state_of};
ghost use Rattle.shr_script.specs.Bounds.{IsCommandWithin};
ghost use Rattle.shr_script.specs.Content.{content_of};
ghost use Rattle.shr_base.specs.declared.scripts.Command.TheVariants as commands;
ghost use Rattle.shr_worker.specs.Plain.{Grabs, Releases, WalksIf, is_due, is_walked, worker_units_place};

use crate::replies::{grab_reply, release_reply};
use shr_base::memory::Memory;
use shr_base::places::Place;
use shr_base::replies::{Answered, Reply};
use shr_base::scripts::Script;
use shr_cache::replies::unfound;
use shr_plain::PlainSeat;
use shr_walk::worker::Worker;
use std::sync::Wait;

// The place where the units of a pool are for a node: at node 0 for one that is flat.
fn units_place(script: &Script, pool: u8, node: u8) -> Place
    requires { pool < length script.now.pools.items }
    ensures { result ≡ worker_units_place script.now pool node }
{
    let declared = &script.pools.as_slice()[pool as usize];
    Place {
        id: pool as u16,
        node: if declared.flat { 0 } else { node },
        group: 0,
    }
}

/// Releases units to a pool.
///
/// It waits for the pool's room. `Full`, `Worn` and `Memory` leave the pool as it was.
pub fn release<R: Wait>(
    worker: &Worker<'_, R>,
    plain: &mut PlainSeat<'_>,
    node: u8,
    pool: u8,
    units: u32,
) -> Answered
    requires pools { ArePoolsOf worker.now.shared.script plain.old.pools }
    requires within { IsCommandWithin (content_of worker.now.shared.script)
        (commands.Release node pool units) }
    ensures releases { ActsPlain (Releases worker.now.shared.script worker.now.by node pool units
        result) plain.old plain.new }
{
    let place = units_place(&worker.shared.script, pool, node);
    let answer = plain.release(worker.rt, worker.by, pool, node, units);
    unfound(release_reply(place, answer))
}

/// Grabs a unit of a pool.
///
/// It waits for the pool's room. `Worn` and `Memory` leave the pool as it was.
pub fn grab<R: Wait>(
    worker: &Worker<'_, R>,
    plain: &mut PlainSeat<'_>,
    node: u8,
    pool: u8,
) -> Answered
    requires pools { ArePoolsOf worker.now.shared.script plain.old.pools }
    requires within { IsCommandWithin (content_of worker.now.shared.script)
        (commands.Grab node pool) }
    ensures grabs { ActsPlain (Grabs worker.now.shared.script worker.now.by node pool result)
        plain.old plain.new }
{
    let place = units_place(&worker.shared.script, pool, node);
    let answer = plain.grab(worker.rt, worker.by, pool, node);
    unfound(grab_reply(place, answer))
}

// Whether a reply is that of walks which no want of memory cut short.
fn is_walked(reply: &Reply) -> bool
    ensures { result ≡ is_walked reply.now }
{
    matches!(reply, Reply::Walked { .. })
}

/// Whether a walk of the pools is due after a walk of the root that was answered so: if there was
/// memory, in a script with a pool.
pub(crate) fn is_due(script: &Script, reply: &Reply) -> bool
    ensures { result ≡ is_due script.now reply.now }
{
    script.pools.len() != 0 && is_walked(reply)
}

/// Whether a walk of the pools is due after a walk of this group that was answered so: if it is the
/// root.
pub(crate) fn is_due_after(script: &Script, group: u16, reply: &Reply) -> bool
    ensures { result ≡ ((group == 0) && is_due script.now reply.now) }
{
    group == 0 && is_due(script, reply)
}

/// Walks the pools once if that is due. `Memory` comes if there is no room for the record of the
/// walk, and nothing was walked then.
///
/// Linux: what `shrink_slab` in mm/shrinker.c does for the root with the shrinkers that aren't
/// `SHRINKER_MEMCG_AWARE`.
pub(crate) fn walk_if<R: Wait>(
    worker: &Worker<'_, R>,
    plain: &mut PlainSeat<'_>,
    node: u8,
    priority: u8,
    due: bool,
) -> Result<(), Memory>
    requires pools { ArePoolsOf worker.now.shared.script plain.old.pools }
    requires node { node < worker.now.shared.script.nodes }
    requires priority { priority ≤ 12 }
    requires few { length plain.old.state.walks < 2 ^ 32 }
    ensures pools { plain.new.pools ≡ plain.old.pools }
    ensures few { length plain.new.state.walks ≤ length plain.old.state.walks + 1 }
    ensures kept { OnErr result (plain_state_of plain.new ≡ plain_state_of plain.old) }
    ensures walks { OnOk result (WalksIf due worker.now.shared.script worker.now.by node priority
        (plain_state_of plain.old) (plain_state_of plain.new)) }
{
    if !due {
        return Ok(());
    }
    plain.reserve_walk()?;
    plain.walk_plain(worker.rt, worker.by, node, priority);
    Ok(())
}
