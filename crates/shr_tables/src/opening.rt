// SPDX-License-Identifier: GPL-2.0-only
//! The tables of a script at the start of its run.

ghost use Rattle.std.specs.Prelude.{◌≡◌, ◌+◌, ◌<◌, IfOk, OnOk, length, true, []};
ghost use Rattle.shr_core.specs.Gained.{IsIdle};
ghost use Rattle.shr_core.specs.Rule.{opener};
ghost use Rattle.shr_core.specs.Seats.{view_of, shape_of};
ghost use Rattle.shr_plain.specs.Opening.{ArePoolsOf};
ghost use Rattle.shr_script.specs.Content.{content_of, IsValid};
ghost use Rattle.shr_seats.specs.Standing.{IsWhole};
ghost use Rattle.shr_walk.specs.Sharing.{IsShared, IsFromStart};
ghost use Rattle.shr_tables.specs.Opened.{Enters, AreEntered, AreReady, IsPlainReady};
ghost use Rattle.shr_tables.specs.First.{HasEntered};

use crate::tables::{FirstCrew, Tables};
use shr_base::memory::Memory;
use shr_base::scripts::Script;
use shr_core::seat::Seat;
use shr_plain::{FirstPlainSeat, Pools};
use shr_registry::answers::RegisterAnswer;
use shr_registry::registering::register;
use shr_walk::seats::{FirstSeats, Shared};
use std::alloc::Global;
use std::sync::Wait;

// Registers a declaration by the one seat that there is, which has registered none but lower ones.
fn enter<R: Wait>(rt: &R, seat: &mut Seat<'_>, decl: u8) -> Result<(), Memory>
    requires first_lookup { seat.old.core.setting.first_lookup ≡ 0 }
    requires idle { IsIdle (view_of seat.old) }
    requires first { (view_of seat.old).standing.first ≡ true }
    requires whole { IsWhole (view_of seat.old).standing }
    requires untried { (view_of seat.old).claims.attempts ≡ [] }
    requires decl { decl < (shape_of seat.old.core).decls }
    requires entered { HasEntered decl (view_of seat.old) }
    requires room { length (view_of seat.old).turns.known < (shape_of seat.old.core).ids }
    ensures table { seat.new.core ≡ seat.old.core }
    ensures idle { IsIdle (view_of seat.new) }
    ensures entered { OnOk result (HasEntered (decl + 1) (view_of seat.new)) }
    ensures one_more { OnOk result (length (view_of seat.new).turns.known
        ≡ length (view_of seat.old).turns.known + 1) }
    ensures enters { OnOk result (Enters decl (view_of seat.old) (view_of seat.new)) }
{
    match register(rt, seat, decl) {
        RegisterAnswer::Registered { id: _, entry: _ } => Ok(()),
        RegisterAnswer::AlreadyRegistered { entry: _ } => unreachable!(),
        RegisterAnswer::NoId { entry: _ } => unreachable!(),
        RegisterAnswer::Memory => Err(Memory),
    }
}

// Registers the caches that are on, in order.
fn enter_all<R: Wait>(rt: &R, shared: &Shared, seat: &mut Seat<'_>) -> Result<(), Memory>
    requires shared { IsShared shared.now }
    requires from_start { IsFromStart shared.now }
    requires fresh { seat.old ≡ record { core = shared.now.core; view = opener } }
    ensures table { OnOk result (seat.new.core ≡ shared.now.core) }
    ensures idle { OnOk result (IsIdle (view_of seat.new)) }
    ensures entered { OnOk result (AreEntered shared.now.script.caches.items
        (length shared.now.script.caches.items) opener (view_of seat.new)) }
{
    let caches = shared.script.caches.as_slice();
    let decls = shared.core.shape().decls;
    for decl in 0..decls {
        if !caches[decl as usize].on {
            continue;
        }
        enter(rt, seat, decl)?;
    }
    Ok(())
}

// The tables of the caches, with those that are on registered, and their first seats.
fn open_shared<R: Wait>(
    rt: &R,
    alloc: Global,
    script: Script,
) -> Result<(Shared, FirstSeats), Memory>
    requires { IsValid (content_of script) }
    ensures shared { IfOk result (λ t. IsShared t.0) }
    ensures script { IfOk result (λ t. t.0.script ≡ script) }
    ensures from_start { IfOk result (λ t. IsFromStart t.0) }
    ensures ready { IfOk result (λ t. AreReady t.0 t.1) }
{
    let (shared, first) = Shared::open(alloc, script)?;
    let FirstSeats {
        core,
        charge,
        deferred,
    } = first;
    let mut seat = core.at(&shared.core);
    enter_all(rt, &shared, &mut seat)?;
    let core = seat.leave();
    Ok((
        shared,
        FirstSeats {
            core,
            charge,
            deferred,
        },
    ))
}

// The pools of a valid script, and their first seat.
fn open_pools(alloc: Global, script: &Script) -> Result<(Pools, FirstPlainSeat), Memory>
    requires { IsValid (content_of script.now) }
    ensures pools { IfOk result (λ t. ArePoolsOf script.now t.0) }
    ensures ready { IfOk result (λ t. IsPlainReady t.0 t.1) }
{
    let (pools, plain) = Pools::new(alloc, &script.pools, script.nodes)?;
    Ok((pools, plain))
}

/// The tables of a valid script whose caches that are on are registered, in order, and their first
/// seats. `Memory` comes for want of memory.
///
/// Linux: the calls of `shrinker_register` by which filesystems come up, before any task asks for
/// memory.
pub fn open<R: Wait>(rt: &R, alloc: Global, script: Script) -> Result<(Tables, FirstCrew), Memory>
    requires { IsValid (content_of script) }
    ensures shared { IfOk result (λ t. IsShared t.0.shared) }
    ensures script { IfOk result (λ t. t.0.shared.script ≡ script) }
    ensures from_start { IfOk result (λ t. IsFromStart t.0.shared) }
    ensures ready { IfOk result (λ t. AreReady t.0.shared t.1.seats) }
    ensures pools { IfOk result (λ t. ArePoolsOf t.0.shared.script t.0.pools) }
    ensures plain { IfOk result (λ t. IsPlainReady t.0.pools t.1.plain) }
{
    let (pools, plain) = open_pools(alloc, &script)?;
    let (shared, seats) = open_shared(rt, alloc, script)?;
    Ok((Tables { shared, pools }, FirstCrew { seats, plain }))
}
