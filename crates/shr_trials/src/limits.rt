// SPDX-License-Identifier: GPL-2.0-only
//! Journals, lookups and phases that are used up.

use crate::acts::Act::{Del, Get, Pin, Put, Scan};
use crate::acts::Heard;
use crate::calls::place_of;
use crate::desk::{Desk, Row, Sizes, WIDE, open};
use shr_base::places::Place;
use shr_base::replies::{HalfWhy, Spent};
use shr_registry::answers::{FindAnswer, RegisterAnswer, UnregisterAnswer};
use std::alloc::Global;
use std::sync::Wait;
use std::test::Fail;

// With each call after the second a third entry would stand there, and so many objects.
const USED_UP: [Row; 7] = [
    (Put, 0, b"a", ("added", 0, 0, 0)),
    (Get, 0, b"a", ("hit", 0, 1, 0)),
    (Put, 0, b"b", ("full", 0, 3, 2)),
    (Get, 0, b"a", ("full", 0, 3, 1)),
    (Del, 0, b"a", ("full", 0, 3, 0)),
    (Pin, 0, b"a", ("full", 0, 3, 1)),
    (Scan, 0, b"", ("full", 0, 3, 1)),
];

// Two ids, and journals that take two entries.
const SHORT: Sizes = Sizes {
    ids: 2,
    most_entries: 2,
    ..WIDE
};

// Why an id is left half unregistered.
fn why_half(answer: Option<UnregisterAnswer>) -> Option<HalfWhy> {
    match answer {
        Some(UnregisterAnswer::Half { why, .. }) => Some(why),
        _ => None,
    }
}

// The id that is freed, and the entry of its end.
fn freed(answer: Option<UnregisterAnswer>) -> Option<(u16, u32)> {
    match answer {
        Some(UnregisterAnswer::Freed { id, entry, .. }) => Some((id, entry)),
        _ => None,
    }
}

// Whether the calls are told what they must be that use up the journal of a list of id 0, why it is
// not drained then, and what registering answers.
fn half<R: Wait>(
    rt: &R,
    alloc: Global,
) -> Result<(bool, Option<HalfWhy>, Option<RegisterAnswer>), Fail> {
    let (core, first) = open(alloc, SHORT)?;
    let mut desk = Desk::new(rt, &core, first)?;
    let is_told = desk.first_unlike(rt, &USED_UP).is_none();
    let why = why_half(desk.unregister(rt, 0));
    Ok((is_told, why, desk.register(rt, 0)))
}

#[test]
fn a_list_whose_journal_is_used_up_is_not_drained(rt: HostRuntime) -> Result<(), Fail> {
    let spent = Spent::List {
        place: place_of(0),
        entries: 3,
        items: 0,
    };
    // The id stays dying, and the other is live.
    let none = RegisterAnswer::NoId { entry: 3 };
    let half = half(&rt, rt.alloc())?;
    assert_eq!(rt; half, (true, Some(HalfWhy::Worn { spent }), Some(none)));
    Ok(())
}

// What an add and a drop hear that use up the journal of a list of id 1, and the id that is freed
// then.
fn drained<R: Wait>(rt: &R, alloc: Global) -> Result<(Heard, Heard, Option<(u16, u32)>), Fail> {
    let other = Place {
        id: 1,
        ..place_of(0)
    };
    let (core, first) = open(alloc, SHORT)?;
    let mut desk = Desk::new(rt, &core, first)?;
    desk.turn(rt, 1);
    let added = desk.make(rt, Put, other, b"c");
    let dropped = desk.make(rt, Del, other, b"c");
    Ok((added, dropped, freed(desk.unregister(rt, 1))))
}

#[test]
fn an_empty_list_whose_journal_is_used_up_stops_no_drain(rt: HostRuntime) -> Result<(), Fail> {
    let (added, dropped, freed) = drained(&rt, rt.alloc())?;
    assert_eq!(rt; added, ("added", 0, 0, 0));
    assert_eq!(rt; dropped, ("dropped", 0, 1, 0));
    assert_eq!(rt; freed, Some((1, 2)));
    Ok(())
}

// The number of the last lookup but for those that are kept free, and what a find answers then.
fn last_lookup<R: Wait>(rt: &R, alloc: Global) -> Result<(u32, Option<FindAnswer>), Fail> {
    let last = Sizes {
        first_lookup: 4_294_967_039,
        ..WIDE
    };
    let (core, first) = open(alloc, last)?;
    let mut desk = Desk::new(rt, &core, first)?;
    Ok((desk.number, desk.turn(rt, 0)))
}

#[test]
fn a_cache_whose_lookups_are_used_up_is_not_found(rt: HostRuntime) -> Result<(), Fail> {
    let spent = Spent::Lookups {
        id: 0,
        seen: 4_294_967_040,
    };
    let (number, answer) = last_lookup(&rt, rt.alloc())?;
    assert_eq!(rt; number, 4_294_967_039);
    assert_eq!(rt; answer, Some(FindAnswer::Worn { spent }));
    Ok(())
}

// Unregisters and registers a cache again so many times, unregisters it, and registers it. The
// last two answers are told.
fn turned<R: Wait>(
    rt: &R,
    alloc: Global,
    turns: u32,
) -> Result<(Option<(u16, u32)>, Option<RegisterAnswer>), Fail> {
    let (core, first) = open(alloc, WIDE)?;
    let mut desk = Desk::new(rt, &core, first)?;
    for _turn in 0..turns {
        desk.unregister(rt, 0);
        desk.register(rt, 0);
    }
    let end = freed(desk.unregister(rt, 0));
    Ok((end, desk.register(rt, 0)))
}

#[test]
fn an_id_whose_phases_are_used_up_is_registered_no_more(rt: HostRuntime) -> Result<(), Fail> {
    // The desk registered it once. Each registration and its end are three entries.
    let none = RegisterAnswer::NoId { entry: 65_535 };
    let turned = turned(&rt, rt.alloc(), 21_844)?;
    assert_eq!(rt; turned, (Some((0, 65_533)), Some(none)));
    Ok(())
}
