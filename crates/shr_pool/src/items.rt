// SPDX-License-Identifier: GPL-2.0-only
//! What the queue of a sweep holds.

/// A group that a helper is to walk on a node: one step of a sweep.
///
/// Linux: the walks that `drop_slab` in mm/vmscan.c makes, one for each group on each node.
#[derive(Clone, Copy, Debug, PartialEq, Eq)]
pub struct SweepJob {
    pub group: u16,
    pub node: u8,
}

/// A job, or behind all jobs the mark that one helper ends by.
#[derive(Clone, Copy, Debug, PartialEq, Eq)]
pub enum SweepItem {
    Walk { job: SweepJob },
    End,
}
