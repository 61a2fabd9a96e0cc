// SPDX-License-Identifier: GPL-2.0-only
//! Threads at the lists of a cache. Each test holds for every schedule.

ghost use Rattle.std.specs.Prelude.{IfOk};
ghost use Rattle.shr_walk.specs.Acting.{IsFit};
ghost use Rattle.shr_walk_trials.specs.Desk.{AreNew, CanStart};

use crate::desk::holding::{hold, rest};
use crate::desk::left::{outcome, place_of};
use crate::desk::lists::fill;
use crate::desk::opening::{another, open, register_all, seats_of, worker_of};
use crate::desk::registrations::unregister;
use crate::desk::walks::walk;
use crate::desk::words::phase;
use shr_base::places::Place;
use shr_base::walks::{GoneThen, Outcome, WalkAnswer};
use shr_registry::answers::UnregisterAnswer;
use shr_walk::seats::{FirstSeats, Seats, Shared};
use shr_walk::worker::Worker;
use std::alloc::Global;
use std::marker::Model;
use std::sync::Wait;
use std::test::Fail;
use std::thread;
use std::thread::Threads;

const THREE_IDS: &[u8] =
    b"shrinkers 1\nsize 1 3\ncache one plain 2 0 0 any on\ncache two plain 2 0 0 any on\ncache three plain 2 0 0 any on\nend\n";

// The root's list of id 1.
const HELD: Place = Place {
    id: 1,
    node: 0,
    group: 0,
};

// Loads the word of id 1 until it is dying, ten million times at the most.
fn wait_for_dying<R: Wait>(worker: &mut Worker<'_, R>) {
    for _turn in 0..10_000_000 {
        if phase(worker, 1).is_none_or(|phase| phase % 3 == 2) {
            return;
        }
    }
}

// What the first thread starts with: the seats of a worker that is to walk, and those that hold an id
// meanwhile, with the runtime and the tables that they work with.
#[derive(Drop)]
struct Start<'a, R: Wait> {
    rt: &'a R,
    shared: &'a Shared,
    walker: Seats<'a>,
    holder: Seats<'a>,
}

impl<'a, R: Wait> Model for Start<'a, R> {
    ghost use Rattle.shr_walk_trials.specs.Desk.{Starting};

    ghost Value = { Starting };

    ghost view = { λ s. record { shared = s.shared.now; walker = s.walker; holder = s.holder } };
}

// What the walk was told, the lookup of its first attempt if the pass of that ran, and the outcomes
// of the next two.
type Walked = (
    Option<WalkAnswer>,
    (Option<u32>, Option<Outcome>, Option<Outcome>),
);

// Puts an object on the root's list of id 0, and walks the root while id 1 is dying, which waits
// until the reference to it is given back.
fn walk_past<R: Wait>(start: Start<'_, R>) -> Walked
    requires { CanStart HELD start }
{
    let Start {
        rt,
        shared,
        walker,
        mut holder,
    } = start;
    let mut worker = worker_of(rt, shared, walker);
    fill(&mut worker, place_of(0), 1);
    wait_for_dying(&mut worker);
    let answer = walk(&mut worker, 0, 0, false);
    rest(shared, &mut holder, HELD);
    (answer, outcomes(&worker.seats))
}

// Unregisters the second cache, by a worker of its own, and tells whether id 1 was freed.
fn is_freed_by<R: Wait>(mut ender: Worker<'_, R>) -> bool {
    matches!(
        unregister(&mut ender, 1),
        Some(UnregisterAnswer::Freed { id: 1, .. })
    )
}

// The lookup of the first attempt if its pass ran, and the outcomes of the next two.
fn outcomes(walker: &Seats<'_>) -> (Option<u32>, Option<Outcome>, Option<Outcome>) {
    let number = match outcome(walker, 0, 0) {
        Some(Outcome::Ran { number, pass: _ }) => Some(number),
        _ => None,
    };
    (number, outcome(walker, 0, 1), outcome(walker, 0, 2))
}

// The seats of three workers, of which the first registered each cache that is on.
fn three<'a, R: Wait>(
    rt: &'a R,
    shared: &'a Shared,
    first: FirstSeats,
) -> Result<(Seats<'a>, Seats<'a>, Seats<'a>), Fail>
    requires { AreNew shared.now first }
    ensures { IfOk result (λ t. IsFit shared.entry.now t.0 × IsFit shared.entry.now t.1
        × IsFit shared.entry.now t.2) }
{
    let mut first = first.at(shared);
    let holder = another(shared, &mut first, 0)?;
    let ender = another(shared, &mut first, 1)?;
    let mut worker = worker_of(rt, shared, first);
    register_all(&mut worker)?;
    Ok((seats_of(worker), holder, ender))
}

// What the two threads start with: the walker, for which an id is held, and the worker that ends the cache
// of that id.
fn both<'a, R: Wait>(
    rt: &'a R,
    shared: &'a Shared,
    first: FirstSeats,
) -> Result<(Start<'a, R>, Worker<'a, R>), Fail>
    requires { AreNew shared.now first }
    ensures { IfOk result (λ t. CanStart HELD t.0) }
{
    let (walker, mut holder, ender) = three(rt, shared, first)?;
    let Some(0) = hold(shared, &mut holder, HELD) else {
        return Err(Fail::from("the id is not held"));
    };
    let start = Start {
        rt,
        shared,
        walker,
        holder,
    };
    Ok((start, worker_of(rt, shared, ender)))
}

// What the walk beside the end of a cache came to, and whether the cache's id was freed.
fn walked_beside<R: Threads + Wait + Sync>(rt: &R, alloc: Global) -> Result<(Walked, bool), Fail> {
    let (shared, first) = open(alloc, THREE_IDS)?;
    let (start, ender) = both(rt, &shared, first)?;
    Ok(thread::join(
        rt,
        move ||
            requires { CanStart HELD start }
        { walk_past(start) },
        move || is_freed_by(ender),
    ))
}

#[test]
fn a_root_walk_passes_a_dying_id(rt: HostRuntime) -> Result<(), Fail> {
    let gone = Outcome::Gone {
        number: 1,
        then: GoneThen::Root,
    };
    let empty = Outcome::Empty {
        number: 0,
        version: 0,
    };
    let outcomes = (Some(1), Some(gone), Some(empty));
    let walked = (Some(WalkAnswer::Walked { freed: 1 }), outcomes);
    let beside = walked_beside(&rt, rt.alloc())?;
    assert_eq!(rt; beside, (walked, true));
    Ok(())
}
