// SPDX-License-Identifier: GPL-2.0-only
//! A script: the tree of groups, the declarations of caches, and each worker's commands.

use crate::log::Log;
use crate::objects::Policy;
use crate::places::Target;
use crate::text::Text;

/// A group below the root. Its number is its place in the script, from 1.
///
/// Linux: a memory cgroup with its `memory.max`, which counts pages.
#[derive(Drop)]
pub struct GroupDecl {
    pub path: Text,
    pub parent: u16,
    /// The most objects that it may be charged for; without end if there is none (`max`).
    pub limit: Option<u32>,
    /// It isn't there at the start, and a command makes it.
    pub later: bool,
}

/// A cache. Its number is its place in the script, from 0.
///
/// Linux: `struct shrinker` in include/linux/shrinker.h, of which its owner fills in `seeks` and
/// `batch`. The rest is our own; `fs` is what `super_cache_scan` in fs/super.c asks.
#[derive(Drop)]
pub struct CacheDecl {
    pub name: Text,
    pub policy: Policy,
    /// How costly an object is to make again (`seeks` of `struct shrinker`), 0 to 1000.
    pub seeks: u32,
    /// Objects per scan call (`batch` of `struct shrinker`), 0 for the default.
    pub batch: u32,
    /// A list of at most this many objects is skipped.
    pub floor: u32,
    /// It can't be scanned if the walk may not enter a filesystem (`__GFP_FS`).
    pub fs: bool,
    /// It is registered before the workers start.
    pub on: bool,
}

/// A pool of units that knows no groups. Its number is its place in the script, from 0.
///
/// Linux: a `struct shrinker` without `SHRINKER_MEMCG_AWARE`; one that is flat lacks
/// `SHRINKER_NUMA_AWARE` too (include/linux/shrinker.h).
#[derive(Drop)]
pub struct PoolDecl {
    pub name: Text,
    /// How costly a unit is to make again, 0 to 1000, as of a cache.
    pub seeks: u32,
    /// Units per scan call, 0 for the default, as of a cache.
    pub batch: u32,
    /// A pool of at most this many free units on a node is skipped.
    pub floor: u32,
    /// Its units are all at node 0, for which each node stands.
    pub flat: bool,
}

/// The walk of every group on every node that a script's last line but one may ask for.
#[derive(Clone, Copy, Debug, PartialEq, Eq)]
pub struct Sweep {
    pub priority: u8,
    pub nofs: bool,
}

/// What a command does with the object of a key, if there is one.
#[derive(Clone, Copy, Debug, PartialEq, Eq)]
pub enum Act {
    Get,
    Del,
    SetPin { pinned: bool },
}

/// A command of a worker.
#[derive(Drop)]
pub enum Command {
    Put {
        at: Target,
        key: Text,
        value: Text,
    },
    On {
        at: Target,
        key: Text,
        act: Act,
    },
    Shrink {
        group: u16,
        node: u8,
        priority: u8,
        nofs: bool,
    },
    Balance {
        node: u8,
        priority: u8,
        nofs: bool,
    },
    Offline {
        group: u16,
    },
    MkGroup {
        group: u16,
    },
    Register {
        decl: u8,
    },
    Unregister {
        decl: u8,
    },
    Isolate {
        at: Target,
        budget: u32,
    },
    Release {
        node: u8,
        pool: u8,
        units: u32,
    },
    Grab {
        node: u8,
        pool: u8,
    },
}

/// The commands of one worker, in order.
#[derive(Drop)]
pub struct WorkerScript {
    pub commands: Log<Command>,
}

/// A whole script.
#[derive(Drop)]
pub struct Script {
    /// 1 or 2: which limits it keeps, and how its report is written.
    pub version: u8,
    pub nodes: u8,
    pub ids: u16,
    pub groups: Log<GroupDecl>,
    pub caches: Log<CacheDecl>,
    pub pools: Log<PoolDecl>,
    pub workers: Log<WorkerScript>,
    /// What all workers do together behind their commands.
    pub sweep: Option<Sweep>,
}

/// What is wrong with a line of a script.
#[derive(Clone, Copy, Debug, PartialEq, Eq)]
pub enum Code {
    BadHeader,
    UnknownWord,
    BadNumber,
    BadText,
    BadPath,
    NoParent,
    Exists,
    UnknownGroup,
    UnknownCache,
    NoWorker,
    TooMany,
    Missing,
    Trailing,
    NoEnd,
}
