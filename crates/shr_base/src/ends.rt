// SPDX-License-Identifier: GPL-2.0-only
//! What is left when a run has ended.

use crate::items::Items;
use crate::journals::{Entry, PlainEntry, PoolEntry, TreeEntry};
use crate::log::Log;
use crate::places::Place;
use crate::replies::Answered;
use crate::walks::{Carry, Isolation, PlainWalk, WalkRecord};

/// A lookup word taken apart. Its phase modulo 3 is 0 for idle, 1 for live, 2 for dying.
///
/// Linux: `refcount` of `struct shrinker` in include/linux/shrinker.h. The other fields are
/// our own.
#[derive(Clone, Copy, Debug, PartialEq, Eq)]
pub struct LookupWord {
    pub decl: u8,
    pub phase: u16,
    pub lookups: u32,
    pub refs: u8,
}

/// A deferred amount of a place.
///
/// Linux: an element of `nr_deferred` of `struct shrinker_info_unit` in include/linux/shrinker.h.
#[derive(Clone, Copy, Debug, PartialEq, Eq)]
pub struct PlaceAmount {
    pub place: Place,
    pub amount: u64,
}

/// A list at the end of a run: its journal, and its items from the head.
#[derive(Drop)]
pub struct PlaceEnd {
    pub place: Place,
    pub entries: Log<Entry>,
    pub items: Items,
}

/// A bit word at the end of a run. Bit i stands for the id 64 * unit + i.
///
/// Linux: `map` of `struct shrinker_info_unit` in include/linux/shrinker.h.
#[derive(Clone, Copy, Debug, PartialEq, Eq)]
pub struct MapEnd {
    pub node: u8,
    pub group: u16,
    pub unit: u8,
    pub bits: u64,
}

/// What the core table leaves: the journal of registrations, each place with a journal by id, node
/// and group, each bit word by node, group and unit, and each id's number of lookups.
#[derive(Drop)]
pub struct Closed {
    pub pool: Log<PoolEntry>,
    pub places: Log<PlaceEnd>,
    pub maps: Log<MapEnd>,
    pub lookups: Log<u32>,
}

/// What the charge table leaves: the journal of the tree, and each group's usage word.
#[derive(Drop)]
pub struct ChargeEnd {
    pub tree: Log<TreeEntry>,
    pub usage: Log<u64>,
}

/// A pool's journal on one node at the end of a run, and the units that are free then.
#[derive(Drop)]
pub struct UnitsEnd {
    pub pool: u8,
    pub node: u8,
    pub entries: Log<PlainEntry>,
    pub free: u32,
}

/// What one worker did: an answer for each command, its walks, its carries, its walks of the pools
/// and its isolations, each in order.
#[derive(Drop)]
pub struct WorkerPart {
    pub answers: Log<Answered>,
    pub walks: Log<WalkRecord>,
    pub carries: Log<Carry>,
    pub plain: Log<PlainWalk>,
    pub isolations: Log<Isolation>,
}
