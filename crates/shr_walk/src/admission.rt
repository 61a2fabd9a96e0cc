// SPDX-License-Identifier: GPL-2.0-only
//! What a charge is answered.

/// What came of a charge and of the reclaim that it made.
#[derive(Clone, Copy, Debug, PartialEq, Eq)]
pub enum Admission {
    /// The group and each of its ancestors is charged for one object more.
    Charged,
    /// The try after the last round was refused: this operation of this group found a usage, in
    /// objects, that wasn't below its limit. Nothing is charged.
    Over {
        group: u16,
        operation: u64,
        usage: u32,
    },
    /// There was no memory. Nothing is charged.
    Memory,
}
