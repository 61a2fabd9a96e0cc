// SPDX-License-Identifier: GPL-2.0-only
//! The calls of a list at known values.

use shr_base::objects::{Object, Policy};
use shr_base::places::Serial;
use shr_base::text::Text;
use shr_list::answers::{AddAnswer, CloseAnswer, DropAnswer, Slot};
use shr_list::list::List;
use std::alloc::Global;
use std::hash::{FoldHasher, Hasher};
use std::test::Fail;

const BY: Serial = Serial {
    worker: 0,
    command: 0,
};

// An object of group 1.
fn object(alloc: Global, key: &[u8]) -> Result<Object, Fail> {
    Ok(Object {
        serial: BY,
        birth: 1,
        key: Text::of(alloc, key)?,
        value: Text::of(alloc, b"v1")?,
        marked: true,
        pinned: true,
    })
}

// What an add answered: a word, and its numbers.
fn told(answer: AddAnswer) -> (&'static str, u32, u32) {
    match answer {
        AddAnswer::Added { entry } => ("added", entry, 0),
        AddAnswer::Exists { entry } => ("exists", entry, 0),
        AddAnswer::Closed => ("closed", 0, 0),
        AddAnswer::Worn { entries, items } => ("worn", entries, items),
        AddAnswer::Memory { object: _ } => ("memory", 0, 0),
    }
}

// A key that is added, and what that is answered.
type Row = (&'static [u8], (&'static str, u32, u32));

// Adds objects of these keys, and gives the first whose answer is another than the row's.
fn first_unlike(alloc: Global, list: &mut List, rows: &[Row]) -> Result<Option<usize>, Fail> {
    for (i, (key, answer)) in rows.iter().enumerate() {
        if told(list.add(object(alloc, key)?)) != *answer {
            return Ok(Some(i));
        }
    }
    Ok(None)
}

const OF_TWO: [Row; 4] = [
    (b"a", ("added", 0, 0)),
    (b"b", ("added", 1, 0)),
    (b"c", ("worn", 3, 3)),
    (b"a", ("exists", 2, 0)),
];

const OF_ONE_ENTRY: [Row; 2] = [(b"a", ("added", 0, 0)), (b"a", ("worn", 2, 1))];

// The first unlike answers of a list of two objects and of one of one entry.
fn unlike(alloc: Global) -> Result<[Option<usize>; 2], Fail> {
    let mut of_two = List::new(alloc, 2, 100);
    let first = first_unlike(alloc, &mut of_two, &OF_TWO)?;
    let mut of_one = List::new(alloc, 2, 1);
    Ok([first, first_unlike(alloc, &mut of_one, &OF_ONE_ENTRY)?])
}

#[test]
fn a_list_takes_no_more_than_its_limits(rt: HostRuntime) -> Result<(), Fail> {
    let unlike = unlike(rt.alloc())?;
    assert_eq!(rt; unlike, [None, None]);
    Ok(())
}

// Two keys of the suite's case `keys-of-one-print`.
const FIRST: &[u8] = b"L\"BC\".CCP%LRZxos;%}p^Z>'key00000";

const SECOND: &[u8] = b"L\"BC\".CCP%LRZxos;%}p^Z>'key00001";

fn print(key: &[u8]) -> u64 {
    let mut hasher = FoldHasher::default();
    hasher.write(key);
    hasher.finish()
}

#[test]
fn the_keys_of_the_suite_have_one_print(rt: HostRuntime) -> Result<(), Fail> {
    assert_eq!(rt; print(FIRST), print(SECOND));
    Ok(())
}

const KEYS: [&[u8]; 3] = [b"a", b"b", b"c"];

// Adds an object of this key, which is marked and pinned by the lowest two bits.
fn add_key(list: &mut List, object: Object, key: &Text, bits: u32) {
    list.add(object);
    if bits % 2 == 1 {
        list.look(BY, 1, key);
    }
    if bits / 2 % 2 == 1 {
        list.set_pin(BY, 1, key, true);
    }
}

// Adds objects of the first `count` keys, each marked and pinned by two bits of `shape`.
fn add_keys(alloc: Global, list: &mut List, count: usize, shape: u32) -> Result<(), Fail> {
    let mut bits = shape;
    for key in KEYS.iter().take(count) {
        add_key(list, object(alloc, key)?, &Text::of(alloc, key)?, bits);
        bits /= 4;
    }
    Ok(())
}

// Closes a child's list into its parent's. What is answered, and how many objects and entries the
// two have then.
type Closing = (Option<CloseAnswer>, (u32, u32), (usize, usize));

fn close(child: &mut List, parent: &mut List) -> Closing {
    let answer = if child.closed() || parent.closed() {
        None
    } else {
        Some(child.close_into(parent, 2))
    };
    (
        answer,
        (child.len(), parent.len()),
        (child.entries().len(), parent.entries().len()),
    )
}

// Closes a list of a and b into one that has room for one object beside a, and once more when a is
// dropped there.
fn close_twice(alloc: Global) -> Result<(Closing, Closing), Fail> {
    let key = Text::of(alloc, b"a")?;
    let mut child = List::new(alloc, 2, 100);
    add_keys(alloc, &mut child, 2, 0)?;
    let mut parent = List::new(alloc, 2, 100);
    add_keys(alloc, &mut parent, 1, 0)?;
    let first = close(&mut child, &mut parent);
    parent.drop_key(BY, 1, &key);
    Ok((first, close(&mut child, &mut parent)))
}

#[test]
fn two_objects_are_too_many_for_a_parent_with_room_for_one(rt: HostRuntime) -> Result<(), Fail> {
    let worn = CloseAnswer::Worn {
        entries: 2,
        items: 3,
    };
    let moved = CloseAnswer::Moved { objects: 2 };
    let (first, second) = close_twice(rt.alloc())?;
    assert_eq!(rt; first, (Some(worn), (2, 1), (2, 1)));
    assert_eq!(rt; second, (Some(moved), (0, 2), (3, 3)));
    Ok(())
}

const TEN: &[u8; 10] = b"abcdefghij";

// How many objects of ten keys of a letter a list takes. A list of ten has an index.
fn add_ten(alloc: Global, list: &mut List) -> Result<u32, Fail> {
    let mut added: u32 = 0;
    for letter in TEN {
        if told(list.add(object(alloc, &[*letter])?)).0 == "added" {
            added = added.saturating_add(1);
        }
    }
    Ok(added)
}

// How often an object of this key is dropped, in three tries.
fn drops(list: &mut List, key: &Text) -> u32 {
    let mut dropped: u32 = 0;
    for _ in 0..3 {
        if let DropAnswer::Dropped { .. } = list.drop_key(BY, 1, key) {
            dropped = dropped.saturating_add(1);
        }
    }
    dropped
}

// Closes a list of ten into one of the same names, and drops a name there as often as it comes.
// Then it is emptied, and takes ten once more, and no two of a name.
fn take_each_twice(alloc: Global) -> Result<[u32; 5], Fail> {
    let key = Text::of(alloc, b"d")?;
    let mut child = List::new(alloc, 10, 100);
    let mut parent = List::new(alloc, 30, 100);
    add_ten(alloc, &mut child)?;
    add_ten(alloc, &mut parent)?;
    close(&mut child, &mut parent);
    let twice = drops(&mut parent, &key);
    let many = parent.len();
    parent.scan(0, 0, Policy::Plain, 30);
    let added = add_ten(alloc, &mut parent)?;
    let again = add_ten(alloc, &mut parent)?;
    Ok([twice, many, added, again, drops(&mut parent, &key)])
}

#[test]
fn a_list_with_each_name_twice_finds_both(rt: HostRuntime) -> Result<(), Fail> {
    assert_eq!(rt; take_each_twice(rt.alloc())?, [2, 18, 10, 0, 1]);
    Ok(())
}

// The slots of a list of two marked objects, of which a scan met one.
fn slots(alloc: Global) -> Result<[Option<Slot>; 3], Fail> {
    let mut list = List::new(alloc, 5, 100);
    add_keys(alloc, &mut list, 2, 5)?;
    list.scan(0, 0, Policy::Clock, 1);
    Ok([list.slot(0), list.slot(1), list.slot(2)])
}

#[test]
fn a_rotated_object_keeps_its_slot(rt: HostRuntime) -> Result<(), Fail> {
    let head = Slot {
        key: 1,
        prev: None,
        next: Some(0),
    };
    let tail = Slot {
        key: 0,
        prev: Some(1),
        next: None,
    };
    let slots = slots(rt.alloc())?;
    assert_eq!(rt; slots, [Some(head), Some(tail), None]);
    Ok(())
}
