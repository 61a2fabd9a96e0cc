// SPDX-License-Identifier: GPL-2.0-only
//! What each command is answered at a group that can't end.

use crate::commands::{Command, Heard, first_unlike};
use crate::desk::left::place_of;
use crate::desk::lists::{drop_key, fill};
use crate::desk::opening::{open, worker_at};
use crate::desk::walks::offline;
use crate::desk::words::{count, defer};
use shr_base::replies::Spent;
use shr_offline::answers::OfflineAnswer;
use shr_walk::worker::Worker;
use std::alloc::Global;
use std::sync::Wait;
use std::test::Fail;

// /p is group 1, and /p/c group 2.
const FAMILY: &[u8] =
    b"shrinkers 1\nsize 1 1\ngroup /p max\ngroup /p/c max\ncache dentry clock 2 0 0 any on\nend\n";

const GOING: [(Command, Heard); 5] = [
    (Command::Put, ("offline", 0)),
    (Command::Get, ("offline", 0)),
    (Command::Del, ("offline", 0)),
    (Command::Pin, ("offline", 0)),
    (Command::Unpin, ("offline", 0)),
];

// What going offline answers, the first command that is not answered offline then, and how many
// deferred words were carried and objects charged.
type Going = (Option<OfflineAnswer>, Option<usize>, usize, usize);

// Takes a group offline whose object can't be handed over, since its parent's list is full.
fn going<R: Wait>(worker: &mut Worker<'_, R>) -> Going {
    fill(worker, place_of(1), 20_000);
    fill(worker, place_of(2), 1);
    defer(worker, place_of(2), 7);
    let answer = offline(worker, 2);
    let unlike = first_unlike(worker, 2, &GOING);
    (
        answer,
        unlike,
        worker.seats.carries.len(),
        worker.seats.cache.uses.len(),
    )
}

// The same, what going offline answers once the parent's list has lost an object, and how many
// it has then.
type Gone = (Going, Option<OfflineAnswer>, u32);

fn going_and_gone<R: Wait>(worker: &mut Worker<'_, R>) -> Gone {
    let before = going(worker);
    drop_key(worker, place_of(1), &0u16.to_le_bytes());
    let answer = offline(worker, 2);
    let left = count(worker, place_of(1)).map_or(0, |seen| seen.len);
    (before, answer, left)
}

// The same of the two groups of a family.
fn gone<R: Wait>(rt: &R, alloc: Global) -> Result<Gone, Fail> {
    let (shared, first) = open(alloc, FAMILY)?;
    let mut worker = worker_at(rt, &shared, first)?;
    let gone = going_and_gone(&mut worker);
    Ok(gone)
}

#[test]
fn a_group_below_a_full_list_is_offline_and_ends_later(rt: HostRuntime) -> Result<(), Fail> {
    let spent = Spent::List {
        place: place_of(1),
        entries: 20_001,
        items: 20_001,
    };
    let before = (Some(OfflineAnswer::Worn { spent }), None, 0, 0);
    let done = OfflineAnswer::Done {
        entry: 1,
        moved: 1,
        deferred: 7,
    };
    let gone = gone(&rt, rt.alloc())?;
    assert_eq!(rt; gone, (before, Some(done), 20_000));
    Ok(())
}
