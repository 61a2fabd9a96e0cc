// SPDX-License-Identifier: GPL-2.0-only
//! What the calls answer.

use shr_base::log::Log;
use shr_base::objects::Object;
use shr_base::places::At;
use shr_base::replies::Spent;

/// What a tenant's call answers: `add`, `look`, `drop_key` or `set_pin`.
///
/// Linux: `list_lru_add` and `list_lru_del` in mm/list_lru.c answer true or false. `Worn` and
/// `Memory` are our own.
#[derive(Drop)]
pub enum NodeAnswer<T> {
    /// The call's entry is here, and this is what the list told of it.
    Told { at: At, told: T },
    /// The list would pass its greatest number of entries or objects.
    Worn { spent: Spent },
    /// There was no memory.
    Memory,
}

/// What `scan` answers.
///
/// Linux: `list_lru_walk_one` in mm/list_lru.c answers how many objects were removed.
#[derive(Drop)]
pub enum NodeScan {
    /// These objects were removed, `visits` were met, and the policy stopped the scan or did not.
    Scanned {
        freed: Log<Object>,
        visits: u32,
        stopped: bool,
    },
    /// The list was emptied into its parent's.
    Closed,
    /// The list would pass its greatest number of entries.
    Worn {
        spent: Spent,
    },
    /// There was no memory.
    Memory,
}

/// What `close_one` answers.
///
/// Our own: `memcg_reparent_list_lru_one` in mm/list_lru.c answers nothing and cannot fail.
#[derive(Clone, Copy, Debug, PartialEq, Eq)]
pub enum OneClose {
    /// The list is closed now, and this many objects moved to its parent's.
    Closed { objects: u32 },
    /// The list was closed before. Nothing moved.
    WasClosed,
    /// The parent's list would pass its greatest number of entries or objects. Both lists are as
    /// before.
    Worn { spent: Spent },
    /// There was no memory. Both lists are as before.
    Memory,
}

/// What `splice` answers.
///
/// Our own: `memcg_reparent_list_lru_node` in mm/list_lru.c answers nothing and cannot fail.
#[derive(Clone, Copy, Debug, PartialEq, Eq)]
pub enum SpliceAnswer {
    /// Each list of the subtree is closed. The group's own list gave `moved` objects in this call.
    Spliced { moved: u64 },
    /// The list of a parent would pass its greatest number of entries or objects. What was closed
    /// stays closed.
    Worn { spent: Spent },
    /// There was no memory. What was closed stays closed.
    Memory,
}

/// What `drain` answers.
#[derive(Clone, Copy, Debug, PartialEq, Eq)]
pub enum NodeDrain {
    /// No list of the id on the node holds an object.
    Drained,
    /// A list would pass its greatest number of entries. The lists before it in falling order are
    /// empty.
    Worn { spent: Spent },
    /// There was no memory. The lists before that in falling order are empty.
    Memory,
}
