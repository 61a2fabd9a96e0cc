// SPDX-License-Identifier: GPL-2.0-only
//! What is left when a core has ended.

use shr_base::ends::{Closed, PlaceEnd};
use shr_base::memory::Memory;
use shr_base::places::Place;
use std::alloc::Global;

// What a core left at a place.
fn end_of(closed: &Closed, place: Place) -> Option<&PlaceEnd> {
    closed
        .places
        .as_slice()
        .iter()
        .find(|end| end.place == place)
}

// Puts the keys of a list from the head behind a text.
fn add_keys(text: &mut Vec<u8>, end: &PlaceEnd) -> Result<(), Memory> {
    let mut walk = end.items.walk();
    for met in 0..end.items.len() {
        if let Some(object) = walk.next() {
            text.extend_from_slice(object.key.bytes())?;
        }
    }
    Ok(())
}

/// The keys of a list from the head, and `*` behind them if the bit of the place is set, for an id
/// of 0.
pub(crate) fn spelled(alloc: Global, closed: &Closed, place: Place) -> Result<Vec<u8>, Memory> {
    let mut text = Vec::new(alloc);
    if let Some(end) = end_of(closed, place) {
        add_keys(&mut text, end)?;
    }
    if is_marked(closed, place.group) {
        text.push(b'*')?;
    }
    Ok(text)
}

/// How many objects are in a list.
pub(crate) fn objects_at(closed: &Closed, place: Place) -> usize {
    match end_of(closed, place) {
        Some(end) => end.items.len(),
        None => 0,
    }
}

/// Whether the bit of id 0 is set in the map of a group.
pub(crate) fn is_marked(closed: &Closed, group: u16) -> bool {
    let mut maps = closed.maps.as_slice().iter();
    maps.any(|map| map.group == group && map.bits % 2 == 1)
}
