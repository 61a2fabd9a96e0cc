// SPDX-License-Identifier: GPL-2.0-only
//! The queue of a sweep, and the helpers that work it off.
//!
//! A helper pops each job once and walks it. Behind the jobs stands a mark for each helper that there may be, by which
//! the helper knows that no job is left.
#![tactic(auto)]

pub mod answers;
pub mod helping;
pub mod items;
pub mod jobs;
pub mod law;
pub mod view;
