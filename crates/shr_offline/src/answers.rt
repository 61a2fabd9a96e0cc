// SPDX-License-Identifier: GPL-2.0-only
//! What taking a group offline answers.

use shr_base::replies::Spent;

/// What came of taking a group offline. Our own: the kernel's call returns nothing.
#[derive(Clone, Copy, Debug, PartialEq, Eq)]
pub enum OfflineAnswer {
    /// It is offline by this entry of the journal of the tree. `moved` objects of its own lists
    /// went to its parent's, and `deferred` is the deferred work that went with them, in objects,
    /// modulo 2^64.
    Done {
        entry: u32,
        moved: u64,
        deferred: u64,
    },
    /// It was offline by this entry before, or another worker has ended it meanwhile.
    AlreadyDone {
        entry: u32,
    },
    /// The root isn't taken offline.
    Root,
    /// This group, the command's, is later, and nobody has made it.
    NotMade {
        group: u16,
    },
    /// This child, the lowest such, is made and isn't offline among the first `entry` entries, all
    /// that there were.
    HasChildren {
        child: u16,
        entry: u32,
    },
    /// A list had no room for the objects or the entry. The group stays offline, and a later call
    /// resumes.
    Worn {
        spent: Spent,
    },
    /// There was no memory. If the group had begun it stays offline, and a later call resumes.
    Memory,
}
