// SPDX-License-Identifier: GPL-2.0-only
//! What a helper of a sweep answers.

/// What came of a helper's part of a sweep.
#[derive(Clone, Copy, Debug, PartialEq, Eq)]
pub enum SweepAnswer {
    /// No job is left. So many were walked, and their walks freed so many objects together.
    Swept { jobs: u32, freed: u64 },
    /// The last walk ended for want of memory. The walks up to it, and it too, freed so many objects together.
    Memory { freed: u64 },
}
