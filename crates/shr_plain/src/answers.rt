// SPDX-License-Identifier: GPL-2.0-only
//! What the calls answer.

use shr_base::replies::Spent;

/// What a release is answered.
#[derive(Clone, Copy, Debug, PartialEq, Eq)]
pub enum ReleaseAnswer {
    /// With these units more than 20,000 would be free: after so many entries so many were.
    Full { entries: u32, free: u32 },
    /// The journal has no room for another entry.
    Worn { spent: Spent },
    /// There was no memory for the entry.
    Memory,
    /// The entry with this number released them.
    Released { entry: u32 },
}

/// What a grab is answered.
#[derive(Clone, Copy, Debug, PartialEq, Eq)]
pub enum GrabAnswer {
    /// The journal has no room for another entry.
    Worn { spent: Spent },
    /// There was no memory for the entry.
    Memory,
    /// The entry with this number took a unit.
    Grabbed { entry: u32 },
    /// The entry with this number found none free.
    Bare { entry: u32 },
}
