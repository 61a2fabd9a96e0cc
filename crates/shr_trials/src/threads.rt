// SPDX-License-Identifier: GPL-2.0-only
//! Two threads at the lists of one cache. The test holds for every schedule.

ghost use Rattle.std.specs.Prelude.{◌≤◌};
ghost use Rattle.shr_core.specs.Seats.{view_of};
ghost use Rattle.shr_core.specs.Steps.{IsAtRest};
ghost use Rattle.shr_trials.specs.Calm.{IsCalm, StaysCalm};

use crate::calls::{close, count, place_of, put, rest};
use crate::desk::{WIDE, end, join, open, pair};
use shr_core::seat::Seat;
use shr_node::answers::{NodeAnswer, SpliceAnswer};
use std::sync::Wait;
use std::test::Fail;
use std::thread;

// Adds an object of group 2 with a key of its own, and says how many were added.
fn add_one<R: Wait>(rt: &R, seat: &mut Seat<'_>, number: u16) -> usize
    requires { IsCalm (view_of seat.old) }
    ensures calm { StaysCalm seat.old seat.new }
    ensures one { result ≤ 1 }
{
    let key = number.to_le_bytes();
    match put(rt, seat, place_of(2), &key) {
        Some(NodeAnswer::Told { at: _, told: true }) => 1,
        _ => 0,
    }
}

// Adds 300 objects of group 2, and says how many were added.
fn fill<R: Wait>(rt: &R, seat: &mut Seat<'_>) -> usize
    requires { IsCalm (view_of seat.old) }
    ensures calm { StaysCalm seat.old seat.new }
    ensures rest { IsAtRest (view_of seat.new) }
{
    let mut added = 0;
    for number in 0..300 {
        added += add_one(rt, seat, number);
    }
    rest(seat);
    added
}

// Counts the list of group 2 until it has so many objects, ten million times at the most.
fn wait_for(seat: &mut Seat<'_>, objects: u32)
    requires { IsCalm (view_of seat.old) }
    ensures { StaysCalm seat.old seat.new }
{
    for _turn in 0..10_000_000 {
        if count(seat, place_of(2)).is_some_and(|seen| seen.len >= objects) {
            return;
        }
    }
}

// Splices group 2 while objects are added to it.
fn splice_between<R: Wait>(rt: &R, seat: &mut Seat<'_>) -> Option<SpliceAnswer>
    requires { IsCalm (view_of seat.old) }
    ensures calm { StaysCalm seat.old seat.new }
    ensures rest { IsAtRest (view_of seat.new) }
{
    wait_for(seat, 100);
    let answer = close(rt, seat, place_of(2));
    rest(seat);
    answer
}

#[test]
fn adds_beside_a_splice_lose_no_object(rt: HostRuntime) -> Result<(), Fail> {
    let (table, first) = open(rt.alloc(), WIDE)?;
    let (mut first, mut second) = pair(&rt, &table, first)?;
    let (added, answer) = thread::join_mut(
        &rt,
        &mut || fill(&rt, &mut first),
        &mut || splice_between(&rt, &mut second),
    );
    let first = join(first, second);
    let left = end(table, first)?;
    let spliced = matches!(&answer, Some(SpliceAnswer::Spliced { moved: _ }));
    // Each add went to the child's list before the splice, or to the parent's after it.
    assert_eq!(rt; (added, spliced, left), (300, true, (300, 0, true)));
    Ok(())
}
