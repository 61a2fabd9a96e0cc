// SPDX-License-Identifier: GPL-2.0-only
//! What a command is answered.

use crate::places::{At, Place};
use crate::text::Text;

/// Which counter of stated size is used up, with its numbers.
#[derive(Clone, Copy, Debug, PartialEq, Eq)]
pub enum Spent {
    /// The lookups of an id: this many were seen.
    Lookups {
        id: u16,
        seen: u32,
    },
    /// A list: it would have this many entries and items.
    List {
        place: Place,
        entries: u32,
        items: u32,
    },
    /// A worker's charges: it has made this many.
    Charges {
        charges: u32,
        uncharges: u32,
    },
}

/// Why an `unregister` stopped half way.
#[derive(Clone, Copy, Debug, PartialEq, Eq)]
pub enum HalfWhy {
    Memory,
    Worn { spent: Spent },
}

/// How an isolation ended. Our own: `list_lru_walk_one` of mm/list_lru.c answers what was removed.
#[derive(Clone, Copy, Debug, PartialEq, Eq)]
pub enum IsolateEnd {
    /// Its budget of visits is used up.
    Spent,
    /// A scan met no object.
    Bare,
    /// A scan was stopped by its policy.
    Stop,
    /// The list takes nothing any more.
    Closed,
    Worn { spent: Spent },
    NoRoom,
}

/// The id that a command's cache was held with, the number of that lookup, and how many entries of
/// the journal of registrations had been seen.
#[derive(Clone, Copy, Debug, PartialEq, Eq)]
pub struct Found {
    pub id: u16,
    pub number: u32,
    pub entry: u32,
}

/// The answer to a command.
#[derive(Drop)]
pub enum Reply {
    Added {
        at: At,
    },
    Exists {
        at: At,
    },
    Hit {
        at: At,
        value: Text,
    },
    Miss {
        at: At,
    },
    Dropped {
        at: At,
    },
    Pinned {
        at: At,
    },
    Done {
        at: At,
    },
    Offline {
        entry: u32,
    },
    Over {
        group: u16,
        operation: u64,
        usage: u32,
    },
    NoCache {
        entry: u32,
    },
    Worn {
        spent: Spent,
    },
    Memory,
    Walked {
        freed: u64,
    },
    WalkMemory {
        freed: u64,
    },
    OfflineDone {
        entry: u32,
        moved: u64,
        deferred: u64,
    },
    AlreadyDone {
        entry: u32,
    },
    Root,
    HasChildren {
        child: u16,
        entry: u32,
    },
    Made {
        entry: u32,
    },
    AlreadyMade {
        entry: u32,
    },
    NotMade {
        group: u16,
    },
    Registered {
        id: u16,
        entry: u32,
    },
    AlreadyRegistered {
        entry: u32,
    },
    NoId {
        entry: u32,
    },
    Freed {
        id: u16,
        entry: u32,
        from: u32,
        to: u32,
        objects: u32,
    },
    Half {
        id: u16,
        entry: u32,
        from: u32,
        to: u32,
        objects: u32,
        why: HalfWhy,
    },
    Isolated {
        visits: u32,
        freed: u32,
        ending: IsolateEnd,
    },
    Released {
        pool: u8,
        node: u8,
        entry: u32,
    },
    Full {
        pool: u8,
        node: u8,
        entries: u32,
        free: u32,
    },
    Grabbed {
        pool: u8,
        node: u8,
        entry: u32,
    },
    Bare {
        pool: u8,
        node: u8,
        entry: u32,
    },
    Swept {
        jobs: u32,
        freed: u64,
    },
}

/// An answer, with what `find` gave if the cache was held.
#[derive(Drop)]
pub struct Answered {
    pub reply: Reply,
    pub found: Option<Found>,
}
