// SPDX-License-Identifier: GPL-2.0-only
//! What a pass is planned to do.

/// How many objects a pass is to scan, and how many with each scan call.
///
/// Linux: `delta`, `total_scan` and `batch_size` of `do_shrink_slab` in mm/shrinker.c.
#[derive(Clone, Copy, Debug, PartialEq, Eq)]
pub struct Plan {
    /// The new work, by the count, the priority and the cost of an object.
    pub delta: u64,
    /// The new work and a share of what was deferred, at most twice the count.
    pub total: u64,
    /// Objects per scan call, above 0.
    pub batch: u32,
}
