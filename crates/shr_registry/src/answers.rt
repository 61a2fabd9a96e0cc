// SPDX-License-Identifier: GPL-2.0-only
//! What the calls answer. In a refusal `entry` is the length of the pool's journal that was seen,
//! and the refusal speaks of that many first entries.

use shr_base::log::Log;
use shr_base::objects::Object;
use shr_base::replies::{HalfWhy, Spent};

/// What `register` answers.
///
/// Linux: `shrinker_alloc` in mm/shrinker.c answers NULL if there is no memory or no id.
#[derive(Clone, Copy, Debug, PartialEq, Eq)]
pub enum RegisterAnswer {
    /// The declaration is live.
    AlreadyRegistered { entry: u32 },
    /// Each id is live, dying or has a phase of 65,533 or more.
    NoId { entry: u32 },
    /// There was no memory, and nothing changed.
    Memory,
    /// The declaration is live now with this id, by the Registered that is this entry of the
    /// journal.
    Registered { id: u16, entry: u32 },
}

/// What `find` answers.
///
/// Linux: `shrinker_try_get` in include/linux/shrinker.h answers true or false.
#[derive(Clone, Copy, Debug, PartialEq, Eq)]
pub enum FindAnswer {
    /// The seat holds the id by the lookup with this number.
    Held { id: u16, number: u32, entry: u32 },
    /// The declaration is not live.
    NoCache { entry: u32 },
    /// The numbers of the id's lookups are used up.
    Worn { spent: Spent },
}

/// What `unregister` answers. `entry` of `Freed` and `Half` is the Unregistered; `from` and `to`
/// are the id's lookups at its steps to live and to dying; `objects` are those of the lists that
/// were drained.
///
/// Our own: `shrinker_free` in mm/shrinker.c answers nothing and cannot fail.
#[derive(Drop)]
pub enum UnregisterAnswer {
    /// The id is idle and each of its lists is empty.
    Freed {
        id: u16,
        entry: u32,
        from: u32,
        to: u32,
        objects: Log<Object>,
    },
    /// The declaration is not live.
    NoCache {
        entry: u32,
    },
    /// There was no memory, and nothing changed.
    Memory,
    /// The drain met `why`. The id stays dying, and the objects that were not drained stay listed.
    Half {
        id: u16,
        entry: u32,
        from: u32,
        to: u32,
        objects: Log<Object>,
        why: HalfWhy,
    },
}
