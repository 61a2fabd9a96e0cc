// SPDX-License-Identifier: GPL-2.0-only
//! Visits of a fake shrinker.

use crate::desk::holding::{hold, rest};
use crate::desk::left::place_of;
use crate::desk::opening::{open, worker_at};
use crate::desk::words::is_set;
use crate::fakes::Fake;
use shr_base::walks::{Ending, Outcome, PassRecord};
use shr_walk::visiting;
use shr_walk::worker::Worker;
use std::alloc::Global;
use std::sync::Wait;
use std::test::Fail;

const PLAIN: &[u8] = b"shrinkers 1\nsize 1 1\ngroup /a max\ncache dentry plain 2 0 0 any on\nend\n";

// Visits the place of group 1 with a fake, whose list gets an object behind its first count where `late` is true.
fn visit<R: Wait>(
    worker: &mut Worker<'_, R>,
    floor: u32,
    late: bool,
    priority: u8,
) -> Option<Outcome> {
    let place = place_of(1);
    if priority > 12 {
        return None;
    }
    let shared = worker.shared;
    let number = hold(shared, &mut worker.seats, place)?;
    let mut fake = Fake {
        rt: worker.rt,
        shared,
        place,
        floor,
        late,
        calls: 0,
        last: None,
    };
    let seats = &mut worker.seats;
    let outcome = visiting::visit(seats, &mut fake, place, number, priority, 2, 0);
    rest(shared, seats, place);
    Some(outcome)
}

// What a visit of an empty list comes to that gets an object behind its first count, and whether its
// bit is set afterwards.
fn visited_late<R: Wait>(
    rt: &R,
    alloc: Global,
    floor: u32,
) -> Result<(Option<Outcome>, Option<bool>), Fail> {
    let (shared, first) = open(alloc, PLAIN)?;
    let mut worker = worker_at(rt, &shared, first)?;
    let outcome = visit(&mut worker, floor, true, 12);
    let bit = is_set(&mut worker, place_of(1));
    Ok((outcome, bit))
}

// A pass over one object, which ends without an ask.
const fn pass(next: u64, ending: Ending) -> PassRecord {
    PassRecord {
        len: 1,
        version: 1,
        nr: 0,
        asks: 0,
        closed: 0,
        scanned: 0,
        freed: 0,
        next,
        ending,
    }
}

#[test]
fn an_object_behind_the_first_count_is_found_by_the_second(rt: HostRuntime) -> Result<(), Fail> {
    let skip = Outcome::RestoredSkip {
        number: 0,
        first: 0,
        len: 1,
        version: 1,
    };
    let ran = Outcome::RestoredRan {
        number: 0,
        first: 0,
        pass: pass(0, Ending::Through),
    };
    let at_the_floor = visited_late(&rt, rt.alloc(), 1)?;
    assert_eq!(rt; at_the_floor, (Some(skip), Some(true)));
    let above_it = visited_late(&rt, rt.alloc(), 0)?;
    assert_eq!(rt; above_it, (Some(ran), Some(true)));
    Ok(())
}
