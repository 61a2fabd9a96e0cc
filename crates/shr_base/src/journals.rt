// SPDX-License-Identifier: GPL-2.0-only
//! The entries of journals. Our own: Linux keeps no journal.

use crate::objects::Policy;
use crate::places::Serial;
use crate::text::Text;

/// What a `Drop` entry did.
#[derive(Clone, Copy, Debug, PartialEq, Eq)]
pub enum DropKind {
    /// The object was there, unpinned, and was taken out.
    Dropped,
    /// The object was there and pinned.
    Pinned,
    /// No such object was there.
    Miss,
}

/// An entry of the journal of one list.
#[derive(Drop)]
pub enum Entry {
    Add {
        by: Serial,
        birth: u16,
        added: bool,
        key: Text,
        value: Text,
    },
    Look {
        by: Serial,
        birth: u16,
        key: Text,
        hit: bool,
    },
    Drop {
        by: Serial,
        birth: u16,
        key: Text,
        kind: DropKind,
    },
    Pin {
        by: Serial,
        birth: u16,
        key: Text,
        pinned: bool,
        hit: bool,
    },
    /// `visits` objects were met, at most `asked`; `freed` of them were removed.
    Scan {
        worker: u16,
        walk: u64,
        asked: u32,
        policy: Policy,
        visits: u32,
        freed: u32,
        stopped: bool,
    },
    /// The objects of this child group's list were put before those that were here.
    MovedIn {
        child: u16,
        objects: u32,
    },
    /// The list was emptied into its parent's, and takes nothing any more.
    Closed,
    /// The list was emptied by an `unregister`.
    Drained {
        by: Serial,
        objects: u32,
    },
}

/// An entry of the journal of registrations.
///
/// Our own: a change of `shrinker_list` and `shrinker_idr` in mm/shrinker.c.
#[derive(Clone, Copy, Debug, PartialEq, Eq)]
pub enum PoolEntry {
    /// `from` is the number of the first lookup of this registration.
    Registered { decl: u8, id: u16, from: u32 },
    /// `to` is the number of the first lookup that is past this registration.
    Unregistered { decl: u8, id: u16, to: u32 },
    Idle { id: u16 },
}

/// An entry of the journal of the tree: which groups were made, and which went offline.
///
/// Our own: `online_css`, and the begin and the end of `offline_css`, in kernel/cgroup/cgroup.c.
#[derive(Clone, Copy, Debug, PartialEq, Eq)]
pub enum TreeEntry {
    Begin { group: u16 },
    Done { group: u16 },
    Made { group: u16 },
}

/// An entry of the journal of one pool on one node.
#[derive(Clone, Copy, Debug, PartialEq, Eq)]
pub enum PlainEntry {
    /// So many units became free.
    Release {
        by: Serial,
        units: u32,
    },
    /// A free unit was taken, if there was one.
    Grab {
        by: Serial,
        got: bool,
    },
    /// The scan of a walk freed this many of the units that it asked for.
    Reclaim {
        worker: u16,
        walk: u32,
        asked: u32,
        freed: u32,
    },
}

/// One charge or uncharge of one group. Its number is that of the group's operations before it: the
/// seats of a table make fewer than 2^32 of them.
///
/// Linux: an addition or subtraction on `usage` of `struct page_counter` in
/// include/linux/page_counter.h. The number is our own.
#[derive(Clone, Copy, Debug, PartialEq, Eq)]
pub struct UseStep {
    /// The usage that it found, in objects. It may be negative for a moment.
    pub found: i64,
    pub operation: u32,
    pub by: Serial,
    pub group: u16,
    pub up: bool,
}
