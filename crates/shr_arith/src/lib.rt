// SPDX-License-Identifier: GPL-2.0-only
//! The arithmetic of one pass of a shrinker, as `do_shrink_slab` of mm/shrinker.c has it.
//!
//! No call takes memory or refuses, and nothing wraps: the formulas are over whole numbers.
#![tactic(auto)]

pub mod formulas;
pub mod passes;
pub mod plans;
#[cfg(test)]
mod recorded;
#[cfg(test)]
mod running;
pub mod simple;

/// The number of objects per scan call where a shrinker's batch is 0.
///
/// Linux: `SHRINK_BATCH` in mm/shrinker.c.
pub const SHRINK_BATCH: u32 = 128;
