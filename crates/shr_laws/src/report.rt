// SPDX-License-Identifier: GPL-2.0-only
//! The report.

use shr_base::ends::{MapEnd, PlaceAmount, PlaceEnd, UnitsEnd, WorkerPart};
use shr_base::journals::{PoolEntry, TreeEntry, UseStep};
use shr_base::log::Log;
use shr_base::text::Text;

/// All that a run reports. A part that is empty prints no line.
#[derive(Drop)]
pub struct Report {
    /// That of the script.
    pub version: u8,
    pub nodes: u8,
    pub ids: u16,
    /// The paths of the groups, by number; the first is that of the root.
    pub groups: Log<Text>,
    /// The names of the caches, by number.
    pub caches: Log<Text>,
    /// The names of the pools of units, by number.
    pub pools: Log<Text>,
    /// The journal of registrations.
    pub pool: Log<PoolEntry>,
    /// The journal of the tree.
    pub tree: Log<TreeEntry>,
    /// What the workers did, up to the last one that has an answer.
    pub workers: Log<WorkerPart>,
    /// Each list whose journal isn't empty, by id, node and group.
    pub places: Log<PlaceEnd>,
    /// The pools' journals that aren't empty, by pool and node.
    pub units: Log<UnitsEnd>,
    /// The bit words, by node, group and unit.
    pub maps: Log<MapEnd>,
    /// The deferred words that aren't 0, by id, node and group.
    pub deferred: Log<PlaceAmount>,
    /// Those of the pools, by pool and node.
    pub pool_deferred: Log<PlaceAmount>,
    /// The charges and uncharges, by group and operation.
    pub uses: Log<UseStep>,
    /// The number of lookups of each id.
    pub lookups: Log<u32>,
    /// How many objects were added, were freed, and are listed at the end.
    pub added: u64,
    pub freed: u64,
    pub listed: u64,
}
