// SPDX-License-Identifier: GPL-2.0-only
//! The deferred words: for each place, how much of the work of earlier passes is still to be done
//! there.
//!
//! Threads share them in one table, each with a seat of its own. Linux: `nr_deferred` of
//! `struct shrinker_info` in mm/shrinker.c.
#![tactic(auto)]

pub mod ending;
pub mod law;
pub mod moving;
pub mod opening;
pub mod sharing;
pub mod table;
pub mod view;

pub use table::{Deferred, DeferredSeat, FirstDeferredSeat};
