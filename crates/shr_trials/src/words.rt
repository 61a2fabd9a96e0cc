// SPDX-License-Identifier: GPL-2.0-only
//! A lookup word and a count word at known values.

use crate::acts::Act::{Del, Put};
use crate::desk::{Desk, Row, WIDE, open};
use shr_base::ends::LookupWord;
use shr_core::counts::Seen;
use std::alloc::Global;
use std::sync::Wait;
use std::test::Fail;

const ADD_AND_DROP: [Row; 2] = [
    (Put, 1, b"k1", ("added", 1, 0, 0)),
    (Del, 1, b"k1", ("dropped", 1, 1, 0)),
];

// The word of an id that is held by its first lookup, and the count of a list after an add and a
// drop.
fn words<R: Wait>(rt: &R, alloc: Global) -> Result<(Option<LookupWord>, Option<Seen>), Fail> {
    let (core, first) = open(alloc, WIDE)?;
    let mut desk = Desk::new(rt, &core, first)?;
    if desk.first_unlike(rt, &ADD_AND_DROP).is_some() {
        return Err(Fail::from("another answer"));
    }
    Ok((desk.word(), desk.count(1)))
}

#[test]
fn words_count_lookups_references_and_entries(rt: HostRuntime) -> Result<(), Fail> {
    let held = LookupWord {
        decl: 0,
        phase: 1,
        lookups: 1,
        refs: 1,
    };
    let empty = Seen { len: 0, version: 2 };
    let words = words(&rt, rt.alloc())?;
    assert_eq!(rt; words, (Some(held), Some(empty)));
    Ok(())
}
