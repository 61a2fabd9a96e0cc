// SPDX-License-Identifier: GPL-2.0-only
//! A desk at the start.

ghost use Rattle.std.specs.Prelude.{◌≡◌, ◌+◌, ◌<◌, ◌≤◌, ◌^◌, IfOk};
ghost use Rattle.shr_walk.specs.Acting.{IsFit};
ghost use Rattle.shr_walk_trials.specs.Desk.{AreFirstSeats, AreNew};

use crate::desk::lists::BY;
use crate::desk::registrations::register;
use shr_base::log::Log;
use shr_base::memory::Memory;
use shr_core::table::Core;
use shr_registry::answers::RegisterAnswer;
use shr_script::read::read_script;
use shr_seats::shape::Shape;
use shr_walk::seats::{CacheSeat, FirstSeats, Seats, Shared};
use shr_walk::worker::Worker;
use std::alloc::Global;
use std::sync::Wait;
use std::test::Fail;

/// The tables of a script, and the first seats.
pub fn open(alloc: Global, text: &[u8]) -> Result<(Shared, FirstSeats), Fail>
    ensures { IfOk result (λ t. AreNew t.0 t.1) }
{
    let Ok(script) = read_script(alloc, text) else {
        return Err(Fail::from("no script"));
    };
    Ok(Shared::open(alloc, script)?)
}

// The same with new lists, whose journals take at most so many entries.
fn shorten(
    mut shared: Shared,
    mut first: FirstSeats,
    most_entries: u32,
) -> Result<(Shared, FirstSeats), Memory>
    requires new { AreNew shared first }
    requires few { most_entries ≤ 2 ^ 31 }
    ensures { IfOk result (λ t. AreNew t.0 t.1) }
{
    let old = shared.core.shape();
    let shape = Shape {
        parents: shared.tree.parents()?,
        later: shared.tree.laters()?,
        limits: shared.tree.limits()?,
        nodes: old.nodes,
        ids: old.ids,
        decls: old.decls,
        most_items: old.most_items,
        most_entries,
    };
    let (core, seat) = Core::new(shared.core.alloc, shape, 0)?;
    shared.core = core;
    first.core = seat;
    Ok((shared, first))
}

/// The same, but that a list's journal takes at most so many entries beside its Closed.
pub fn open_short(
    alloc: Global,
    text: &[u8],
    most_entries: u32,
) -> Result<(Shared, FirstSeats), Fail>
    requires { most_entries ≤ 2 ^ 31 }
    ensures { IfOk result (λ t. AreNew t.0 t.1) }
{
    let (shared, first) = open(alloc, text)?;
    Ok(shorten(shared, first, most_entries)?)
}

/// The seats of one worker more, where the first seats were split `splits` times.
pub fn another<'a>(shared: &Shared, first: &mut Seats<'a>, splits: u8) -> Result<Seats<'a>, Memory>
    requires first { AreFirstSeats shared.now first.old splits }
    requires few { splits < 64 }
    ensures first { IfOk result (λ s. AreFirstSeats shared.now first.new (splits + 1)) }
    ensures seats { IfOk result (λ s. IsFit shared.now s) }
{
    let core = first.cache.core.split()?;
    let charge = first.cache.charge.split()?;
    let deferred = first.deferred.split()?;
    let alloc = shared.core.alloc;
    Ok(Seats {
        cache: CacheSeat {
            core,
            charge,
            uses: Log::new(alloc),
        },
        deferred,
        walks: Log::new(alloc),
        carries: Log::new(alloc),
    })
}

/// The worker of these seats.
pub fn worker_of<'a, R: Wait>(rt: &'a R, shared: &'a Shared, seats: Seats<'a>) -> Worker<'a, R>
    requires { IsFit shared.now seats }
    ensures { result.shared ≡ shared.entry.now }
{
    Worker {
        rt,
        shared,
        seats,
        by: BY,
    }
}

/// The seats of a worker that is done.
pub fn seats_of<'a, R: Wait>(worker: Worker<'a, R>) -> Seats<'a>
    ensures { IsFit worker.entry.shared result }
{
    worker.seats
}

/// Registers each declaration that is on, in order.
pub fn register_all<R: Wait>(worker: &mut Worker<'_, R>) -> Result<(), Fail>
    ensures { worker.new.shared ≡ worker.old.shared }
{
    for decl in 0..worker.shared.core.shape().decls {
        if is_on(worker.shared, decl) && !is_registered(&register(worker, decl)) {
            return Err(Fail::from("a declaration was not registered"));
        }
    }
    Ok(())
}

fn is_on(shared: &Shared, decl: u8) -> bool {
    shared
        .script
        .caches
        .get(decl as usize)
        .is_some_and(|cache| cache.on)
}

fn is_registered(answer: &Option<RegisterAnswer>) -> bool {
    matches!(answer, Some(RegisterAnswer::Registered { .. }))
}

/// A worker at the first seats, which registered each cache that is on.
pub fn worker_at<'a, R: Wait>(
    rt: &'a R,
    shared: &'a Shared,
    first: FirstSeats,
) -> Result<Worker<'a, R>, Fail>
    requires { AreNew shared.now first }
{
    let mut worker = worker_of(rt, shared, first.at(shared));
    register_all(&mut worker)?;
    Ok(worker)
}
