// SPDX-License-Identifier: GPL-2.0-only
//! How pools are counted and scanned.

/// How the units of a pool are counted and scanned.
///
/// Linux: `seeks`, `batch` and `flags` of `struct shrinker` in include/linux/shrinker.h. The floor
/// is our own.
#[derive(Clone, Copy, Debug, PartialEq, Eq)]
pub struct Setting {
    /// How costly a unit is to make again, 0 to 1000.
    pub seeks: u32,
    /// Units per scan call, 0 for the default.
    pub batch: u32,
    /// A pool of at most this many free units on a node is skipped.
    pub floor: u32,
    /// Its units are all at node 0, for which each node stands.
    pub flat: bool,
}
