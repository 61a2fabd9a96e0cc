// SPDX-License-Identifier: GPL-2.0-only
//! The records of walks and of the passes that they make.

ghost use Rattle.std.specs.Prelude.{◌≡◌};
ghost use Rattle.shr_base.specs.WalkParts.{walk_record};

use crate::attempts::Attempt;
use crate::found::Found;
use crate::log::Log;
use crate::places::{Place, Serial};
use crate::replies::{IsolateEnd, Spent};
use std::marker::Model;

/// How a pass ended: by its loop's test, or by what the next scan call answered.
///
/// Linux: the test of the loop in `do_shrink_slab` of mm/shrinker.c, or `SHRINK_STOP`.
#[derive(Clone, Copy, Debug, PartialEq, Eq)]
pub enum Ending {
    Through,
    /// Linux: `SHRINK_STOP` of `scan_objects`.
    Stop,
    NoRoom,
    Worn { spent: Spent },
}

/// One pass of a shrinker over one place.
///
/// Linux: the locals of `do_shrink_slab` in mm/shrinker.c.
#[derive(Clone, Copy, Debug, PartialEq, Eq)]
pub struct PassRecord {
    /// The count that it began with (`freeable`), and the version that it was read at.
    pub len: u32,
    pub version: u32,
    /// The deferred count that was taken over.
    pub nr: u64,
    /// The scan calls that were answered with a number freed, or that the list was closed.
    pub asks: u32,
    /// Those of them that were answered that the list was closed.
    pub closed: u32,
    /// The sum of those asks (`scanned`).
    pub scanned: u64,
    pub freed: u64,
    /// What was deferred again (`next_deferred`).
    pub next: u64,
    pub ending: Ending,
}

/// What was done about the bit of an id that was gone.
///
/// Our own: `shrink_slab_memcg` in mm/shrinker.c clears the bit and looks at nothing again.
#[derive(Clone, Copy, Debug, PartialEq, Eq)]
pub enum GoneThen {
    Set,
    Clear,
    /// The root has no bits.
    Root,
}

/// What an attempt of a walk at one id came to. `number` is that of its lookup.
#[derive(Clone, Copy, Debug, PartialEq, Eq)]
pub enum Outcome {
    Worn {
        seen: u32,
    },
    Gone {
        number: u32,
        then: GoneThen,
    },
    Skip {
        number: u32,
        len: u32,
        version: u32,
    },
    Ran {
        number: u32,
        pass: PassRecord,
    },
    Empty {
        number: u32,
        version: u32,
    },
    Cleared {
        number: u32,
        first: u32,
        second: u32,
    },
    RestoredSkip {
        number: u32,
        first: u32,
        len: u32,
        version: u32,
    },
    RestoredRan {
        number: u32,
        first: u32,
        pass: PassRecord,
    },
}

/// A bit word as a walk loaded it. Bit i stands for the id 64 * unit + i.
///
/// Linux: `map` of `struct shrinker_info_unit` in include/linux/shrinker.h.
#[derive(Clone, Copy, Debug, PartialEq, Eq)]
pub struct MapSeen {
    pub unit: u8,
    pub bits: u64,
}

/// What a walk is answered.
///
/// Linux: `shrink_slab_memcg` in mm/shrinker.c answers how many objects were freed.
#[derive(Clone, Copy, Debug, PartialEq, Eq)]
pub enum WalkAnswer {
    Walked { freed: u64 },
    Offline { entry: u32 },
    Memory { freed: u64 },
}

/// What a walk is asked. Our own name for what Linux hands down in pieces.
///
/// Linux: `memcg`, `nid` and `gfp_mask` of `struct shrink_control` in include/linux/shrinker.h, and
/// the priority of `shrink_slab`. The command is our own.
#[derive(Clone, Copy, Debug, PartialEq, Eq)]
pub struct WalkAsked {
    pub by: Serial,
    pub group: u16,
    pub node: u8,
    /// 12 for the mildest walk, 0 for the hardest.
    pub priority: u8,
    /// Whether no file system may be entered.
    pub nofs: bool,
}

// Which of its answers a walk was given.
#[derive(Clone, Copy)]
enum End {
    Walked,
    Offline,
    Memory,
}

/// One walk over a group on a node. A run keeps each of its walks, and most find nothing: such a
/// record has 48 bytes. Contracts see what was asked, the maps and attempts, and the answer.
///
/// Linux: `shrink_slab_memcg` and `shrink_slab` in mm/shrinker.c.
#[derive(Drop)]
pub struct WalkRecord {
    pub by: Serial,
    pub group: u16,
    pub node: u8,
    pub priority: u8,
    pub nofs: bool,
    // The answer in two parts: as one value it would take 8 bytes more.
    end: End,
    told: u64,
    found: Found,
}

impl Model for WalkRecord {
    ghost use Rattle.shr_base.specs.Walks.{WalkRecord as Walked};
    ghost use Rattle.shr_base.specs.WalkParts.{walk_record, answer_in, IsToldWithin};

    ghost Value = { Walked };

    ghost view = { λ w. walk_record
        (record { by = w.by; group = w.group; node = w.node; priority = w.priority; nofs = w.nofs })
        w.found.maps.items w.found.attempts.items (answer_in w.end w.told) };

    ghost invariant = { λ w. IsToldWithin w.end w.told };
}

impl WalkRecord {
    /// The record of a walk that was asked this, found this and was given this answer. It takes no
    /// memory.
    pub fn new(asked: WalkAsked, found: Found, answer: WalkAnswer) -> WalkRecord
        ensures { result ≡ walk_record asked found.maps.items found.attempts.items answer }
    {
        let (end, told) = match answer {
            WalkAnswer::Walked { freed } => (End::Walked, freed),
            WalkAnswer::Offline { entry } => (End::Offline, entry as u64),
            WalkAnswer::Memory { freed } => (End::Memory, freed),
        };
        WalkRecord {
            by: asked.by,
            group: asked.group,
            node: asked.node,
            priority: asked.priority,
            nofs: asked.nofs,
            end,
            told,
            found,
        }
    }

    /// The bit words that it loaded, in the order of their units.
    pub fn maps(&self) -> &[MapSeen]
        ensures { result.now ≡ self.now.maps.items }
    {
        self.found.maps()
    }

    /// Its attempts, in their order.
    pub fn attempts(&self) -> &[Attempt]
        ensures { result.now ≡ self.now.attempts.items }
    {
        self.found.attempts()
    }

    /// What it was answered.
    pub fn answer(&self) -> WalkAnswer
        ensures { result ≡ self.now.answer }
    {
        match self.end {
            End::Walked => WalkAnswer::Walked { freed: self.told },
            End::Offline => WalkAnswer::Offline {
                entry: self.told as u32,
            },
            End::Memory => WalkAnswer::Memory { freed: self.told },
        }
    }
}

/// A deferred amount that an offlining moved from a place to that of its parent group.
///
/// Linux: `reparent_shrinker_deferred` in mm/shrinker.c, which leaves the child's amount there.
#[derive(Clone, Copy, Debug, PartialEq, Eq)]
pub struct Carry {
    pub by: Serial,
    pub place: Place,
    pub amount: u64,
}

/// What a walk of the pools came to at one pool.
#[derive(Clone, Copy, Debug, PartialEq, Eq)]
pub enum PlainTry {
    Empty { version: u32 },
    Skip { len: u32, version: u32 },
    Ran { pass: PassRecord },
}

/// What a walk of the pools is answered.
#[derive(Clone, Copy, Debug, PartialEq, Eq)]
pub enum PlainAnswer {
    Walked { freed: u64 },
    Memory { freed: u64 },
}

/// One walk over the pools on a node, with a try for each pool in order.
///
/// Linux: what `shrink_slab` in mm/shrinker.c does with the shrinkers that aren't
/// `SHRINKER_MEMCG_AWARE`.
#[derive(Drop)]
pub struct PlainWalk {
    pub by: Serial,
    pub node: u8,
    pub priority: u8,
    pub tries: Log<PlainTry>,
    pub answer: PlainAnswer,
}

/// One isolation: visits of a list that give its room back after each.
///
/// Linux: `list_lru_walk_one` in mm/list_lru.c, of which each callback answers `LRU_RETRY` or
/// `LRU_REMOVED_RETRY`. That this comes after a skip and a rotation too is our own.
#[derive(Clone, Copy, Debug, PartialEq, Eq)]
pub struct Isolation {
    pub by: Serial,
    pub place: Place,
    pub budget: u32,
    pub visits: u32,
    pub freed: u32,
    pub ending: IsolateEnd,
}
