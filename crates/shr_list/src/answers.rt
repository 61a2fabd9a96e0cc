// SPDX-License-Identifier: GPL-2.0-only
//! What the calls of a list answer.
//!
//! The variants that refuse stand last, in the order of the tests: Closed, Worn, Memory.

use shr_base::log::Log;
use shr_base::objects::Object;
use shr_base::text::Text;

/// What `List::add` answers.
///
/// Linux: `list_lru_add` in mm/list_lru.c answers true or false. `Closed`, `Worn` and `Memory` are
/// our own.
#[derive(Drop)]
pub enum AddAnswer {
    /// The object stands at the tail. This is the number of its entry.
    Added { entry: u32 },
    /// An object of its birth group and key is there, and nothing was added.
    Exists { entry: u32 },
    /// The list was emptied into its parent's.
    Closed,
    /// The journal or the list would grow to these numbers, one of them above its limit.
    Worn { entries: u32, items: u32 },
    /// There was no memory; the object comes back as it was given.
    Memory { object: Object },
}

/// What `List::look` answers.
#[derive(Drop)]
pub enum LookAnswer {
    /// The object is there, is marked now, and has this value.
    Hit { entry: u32, value: Text },
    /// No object of this birth group and key is there.
    Miss { entry: u32 },
    /// The list was emptied into its parent's.
    Closed,
    /// The journal and the list would have these numbers, one of them above its limit.
    Worn { entries: u32, items: u32 },
    /// There was no memory.
    Memory,
}

/// What `List::drop_key` answers.
///
/// Linux: `list_lru_del` in mm/list_lru.c answers true or false. All but `Dropped` and `Miss` are
/// our own.
#[derive(Drop)]
pub enum DropAnswer {
    /// The object was there, unpinned, and was taken out.
    Dropped { entry: u32, object: Object },
    /// The object is there and pinned, and stays.
    Pinned { entry: u32 },
    /// No object of this birth group and key is there.
    Miss { entry: u32 },
    /// The list was emptied into its parent's.
    Closed,
    /// The journal and the list would have these numbers, one of them above its limit.
    Worn { entries: u32, items: u32 },
    /// There was no memory.
    Memory,
}

/// What `List::set_pin` answers.
#[derive(Clone, Copy, Debug, PartialEq, Eq)]
pub enum PinAnswer {
    /// The object is there and has the pin that was asked for, even if it had it before.
    Done { entry: u32 },
    /// No object of this birth group and key is there.
    Miss { entry: u32 },
    /// The list was emptied into its parent's.
    Closed,
    /// The journal and the list would have these numbers, one of them above its limit.
    Worn { entries: u32, items: u32 },
    /// There was no memory.
    Memory,
}

/// What `List::scan` answers.
///
/// Linux: `list_lru_walk_one` in mm/list_lru.c answers how many objects were removed.
#[derive(Drop)]
pub enum ListScan {
    /// What was freed, in order; how many objects were met; whether one of them stopped the scan.
    Scanned {
        entry: u32,
        freed: Log<Object>,
        visits: u32,
        stopped: bool,
    },
    /// The list was emptied into its parent's.
    Closed,
    /// The journal and the list would have these numbers, one of them above its limit.
    Worn {
        entries: u32,
        items: u32,
    },
    /// There was no memory.
    Memory,
}

/// What `List::close_into` answers.
///
/// Our own: `memcg_reparent_list_lru_node` in mm/list_lru.c answers nothing and cannot fail.
#[derive(Clone, Copy, Debug, PartialEq, Eq)]
pub enum CloseAnswer {
    /// This many objects stand before the head of the parent's list now.
    Moved { objects: u32 },
    /// The parent's journal and list would have these numbers, one of them above its limit.
    Worn { entries: u32, items: u32 },
    /// There was no memory.
    Memory,
}

/// What `List::drain` answers.
#[derive(Drop)]
pub enum DrainAnswer {
    /// The objects that the list held, from the head.
    Drained { objects: Log<Object> },
    /// The journal and the list would have these numbers, one of them above its limit.
    Worn { entries: u32, items: u32 },
    /// There was no memory.
    Memory,
}

/// Where an object is kept, and where its neighbours are.
///
/// Linux: the address, `prev` and `next` of the `struct list_head` in the object, of
/// include/linux/types.h.
#[derive(Clone, Copy, Debug, PartialEq, Eq)]
pub struct Slot {
    /// The key of the object's node in the slab, which it keeps while it is listed.
    pub key: u32,
    /// The key of the one before, or none at the head.
    pub prev: Option<u32>,
    /// The key of the one after, or none at the tail.
    pub next: Option<u32>,
}
