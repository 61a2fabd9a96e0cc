// SPDX-License-Identifier: GPL-2.0-only
//! Lists that go to a parent's, late calls for their groups, and a parent without room.

use crate::acts::Act::{Close, Del, Get, Pin, Put, Scan};
use crate::desk::{Row, Sizes, WIDE, leave};
use std::test::Fail;

// After the splice the parent's journal has p's Add and the MovedIn.
const LATE: [Row; 14] = [
    (Put, 1, b"p", ("added", 1, 0, 0)),
    (Put, 2, b"x", ("added", 2, 0, 0)),
    (Put, 2, b"y", ("added", 2, 1, 0)),
    (Close, 2, b"", ("spliced", 0, 2, 0)),
    (Put, 2, b"z", ("added", 1, 2, 0)),
    (Put, 2, b"x", ("exists", 1, 3, 0)),
    (Get, 2, b"x", ("hit", 1, 4, 0)),
    (Get, 2, b"q", ("miss", 1, 5, 0)),
    (Scan, 2, b"", ("closed", 0, 0, 0)),
    (Pin, 1, b"p", ("done", 1, 6, 0)),
    (Pin, 2, b"q", ("miss", 1, 7, 0)),
    (Del, 2, b"z", ("dropped", 1, 8, 0)),
    (Del, 2, b"z", ("miss", 1, 9, 0)),
    (Del, 1, b"p", ("pinned", 1, 10, 0)),
];

#[test]
fn late_calls_for_a_closed_list_go_to_its_parent(rt: HostRuntime) -> Result<(), Fail> {
    assert!(rt; leave(&rt, rt.alloc(), WIDE, &LATE, b"xyp*")?);
    Ok(())
}

// The first splice moves both a, which came to the group's list from below it, and b. The parent's
// list was empty: its bit is set by the splice alone.
const LOWEST: [Row; 4] = [
    (Put, 3, b"a", ("added", 3, 0, 0)),
    (Put, 2, b"b", ("added", 2, 0, 0)),
    (Close, 2, b"", ("spliced", 0, 2, 0)),
    (Close, 2, b"", ("spliced", 0, 0, 0)),
];

#[test]
fn the_lowest_list_goes_first(rt: HostRuntime) -> Result<(), Fail> {
    assert!(rt; leave(&rt, rt.alloc(), WIDE, &LOWEST, b"ab*")?);
    Ok(())
}

const OF_TWO: Sizes = Sizes {
    most_items: 2,
    ..WIDE
};

// The splice is refused while the parent's list has p.
const FULL: [Row; 7] = [
    (Put, 1, b"p", ("added", 1, 0, 0)),
    (Put, 2, b"x", ("added", 2, 0, 0)),
    (Put, 2, b"y", ("added", 2, 1, 0)),
    (Put, 2, b"z", ("full", 2, 3, 3)),
    (Close, 2, b"", ("full", 1, 2, 3)),
    (Del, 1, b"p", ("dropped", 1, 1, 0)),
    (Close, 2, b"", ("spliced", 0, 2, 0)),
];

#[test]
fn a_parent_without_room_leaves_its_child_open(rt: HostRuntime) -> Result<(), Fail> {
    assert!(rt; leave(&rt, rt.alloc(), OF_TWO, &FULL, b"xy*")?);
    Ok(())
}
