// SPDX-License-Identifier: GPL-2.0-only
//! The tables of a run, from their opening to their end.
//!
//! What stands before and after the workers: the tables of a script with the caches that are on registered, a seat more
//! for each worker, the joining of these seats, and what is left of the tables.
#![tactic(auto)]

pub mod ending;
pub mod opening;
pub mod parting;
pub mod tables;
