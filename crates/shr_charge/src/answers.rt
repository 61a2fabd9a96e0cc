// SPDX-License-Identifier: GPL-2.0-only
//! What the calls answer.

/// What came of a charge.
///
/// Linux: `page_counter_try_charge` in mm/page_counter.c answers true or false, and the counter
/// that refused.
#[derive(Clone, Copy, Debug, PartialEq, Eq)]
pub enum ChargeAnswer {
    /// The group and each of its ancestors is charged for one object more.
    Charged,
    /// On the way up, this operation of this group was the first that found a usage not below the
    /// limit. The charge was taken back on every level.
    Over {
        group: u16,
        operation: u64,
        usage: u32,
    },
}

/// Whether a group is online. The entry is that of its Begin.
///
/// Linux: `mem_cgroup_online` in include/linux/memcontrol.h.
#[derive(Clone, Copy, Debug, PartialEq, Eq)]
pub enum GroupState {
    Online,
    Offline { entry: u32 },
    /// It is later, and nobody has made it.
    NotMade,
}

/// What came of beginning to take a group offline, in the order of the tests.
///
/// Our own: `mem_cgroup_css_offline` in mm/memcontrol.c answers nothing and cannot fail.
#[derive(Clone, Copy, Debug, PartialEq, Eq)]
pub enum BeginAnswer {
    /// The root isn't taken offline.
    Root,
    /// The group is done already, by this entry.
    AlreadyDone { entry: u32 },
    /// It began before, by this entry, and isn't done.
    Resumed { entry: u32 },
    /// It is later, and nobody has made it.
    NotMade { group: u16 },
    /// This child, the lowest such, is made and isn't done among the first `entry` entries, all
    /// that there were.
    HasChildren { child: u16, entry: u32 },
    /// There was no memory.
    Memory,
    /// It began, by this entry.
    Begun { entry: u32 },
}

/// What came of making a later group, in the order of the tests.
///
/// Our own: `cgroup_mkdir` in kernel/cgroup/cgroup.c answers an error number.
#[derive(Clone, Copy, Debug, PartialEq, Eq)]
pub enum MakeAnswer {
    /// It is made already, by this entry.
    AlreadyMade { entry: u32 },
    /// Its parent, which is this group, is later, and nobody has made it.
    NotMade { group: u16 },
    /// Its parent began to go offline, by this entry.
    Offline { entry: u32 },
    /// There was no memory.
    Memory,
    /// It is made, by this entry.
    Made { entry: u32 },
}

/// What came of finishing to take a group offline.
#[derive(Clone, Copy, Debug, PartialEq, Eq)]
pub enum DoneAnswer {
    /// It is done, by this entry.
    Done { entry: u32 },
    /// It was done already, by this entry.
    AlreadyDone { entry: u32 },
}
