// SPDX-License-Identifier: GPL-2.0-only
//! Where a list stands, where a command finds its object, and which command did something.

/// One list: that of a shrinker's id, a node and a group.
///
/// Linux: `struct list_lru_one`, found by `list_lru_from_memcg_idx` in mm/list_lru.c.
#[derive(Clone, Copy, Debug, PartialEq, Eq)]
pub struct Place {
    pub id: u16,
    pub node: u8,
    pub group: u16,
}

/// Where a command finds its object: a group, a node, and a cache by its declaration.
#[derive(Clone, Copy, Debug, PartialEq, Eq)]
pub struct Target {
    pub group: u16,
    pub node: u8,
    pub decl: u8,
}

/// A command: the number of its worker, and its own number in that worker's list.
#[derive(Clone, Copy, Debug, PartialEq, Eq)]
pub struct Serial {
    pub worker: u16,
    pub command: u32,
}

/// An entry of a place's journal, by its number from 0.
#[derive(Clone, Copy, Debug, PartialEq, Eq)]
pub struct At {
    pub place: Place,
    pub entry: u32,
}
