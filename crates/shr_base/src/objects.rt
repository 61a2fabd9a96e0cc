// SPDX-License-Identifier: GPL-2.0-only
//! What a cache keeps, and how a scan decides about it.

use crate::places::Serial;
use crate::text::Text;

/// An object of a cache. In its list it is known by its birth group and key.
///
/// Linux: what embeds a list's `struct list_head`, as `struct dentry` by `d_lru`.
#[derive(Drop)]
pub struct Object {
    /// The `put` that made it.
    pub serial: Serial,
    pub key: Text,
    pub value: Text,
    /// The group that is charged for it, which it keeps when its list moves to a parent.
    pub birth: u16,
    /// It was looked up since a scan last met it (`DCACHE_REFERENCED` of a dentry).
    pub marked: bool,
    /// Its owner asked that it stays (a dentry with a raised `d_lockref`).
    pub pinned: bool,
}

/// What a cache's scan does with an object, as its `isolate` callback.
#[derive(Clone, Copy, Debug, PartialEq, Eq)]
pub enum Policy {
    /// Every object is removed.
    Plain,
    /// A pinned object is skipped, a marked one is rotated and loses its mark, any other is
    /// removed.
    Clock,
    /// A pinned object stops the scan, any other is removed.
    Halt,
}

/// What the callback of a scan answers of an object.
///
/// Linux: `enum lru_status` in include/linux/list_lru.h, without the two that drop the lock.
#[derive(Clone, Copy, Debug, PartialEq, Eq)]
pub enum LruStatus {
    Removed,
    Rotate,
    Skip,
    Stop,
}
