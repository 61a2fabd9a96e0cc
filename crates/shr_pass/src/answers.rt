// SPDX-License-Identifier: GPL-2.0-only
//! What the calls answer.

use shr_base::replies::Spent;
use shr_base::walks::PassRecord;

/// How many objects can be freed, with the version of the count word that showed it.
///
/// Linux: what `count_objects` of `struct shrinker` returns: `SHRINK_EMPTY`, 0, or a number.
#[derive(Clone, Copy, Debug, PartialEq, Eq)]
pub enum Count {
    /// There is no object.
    Empty { version: u32 },
    /// There are `len` objects, and this time they are left alone.
    Skip { len: u32, version: u32 },
    /// There are `len` objects to free.
    Many { len: u32, version: u32 },
}

/// What a scan did. The last three end the pass.
///
/// Linux: what `scan_objects` of `struct shrinker` returns, of which only the number and
/// `SHRINK_STOP` are the kernel's.
#[derive(Clone, Copy, Debug, PartialEq, Eq)]
pub enum ScanAnswer {
    /// This many objects were freed, at most as many as were asked.
    Freed { objects: u32 },
    /// The list was closed. It counts as an ask that freed nothing.
    Closed,
    /// No progress can be made now.
    Stop,
    /// There was no memory.
    NoRoom,
    /// A counter of stated size is used up.
    Worn { spent: Spent },
}

/// A scan that was answered `Freed`: how many objects were asked for, and how many were freed.
///
/// Linux: `nr_to_scan` of `struct shrink_control`, and what `scan_objects` returned.
#[derive(Clone, Copy, Debug, PartialEq, Eq)]
pub struct ScanSeen {
    pub asked: u32,
    pub freed: u32,
}

/// What came of a pass. Only `Ran` scanned and touched the deferred word.
///
/// Linux: what `do_shrink_slab` in mm/shrinker.c returns: `SHRINK_EMPTY`, 0, or how many were
/// freed.
#[derive(Clone, Copy, Debug, PartialEq, Eq)]
pub enum PassAnswer {
    Empty { version: u32 },
    Skip { len: u32, version: u32 },
    Ran { pass: PassRecord },
}
