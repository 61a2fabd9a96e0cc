// SPDX-License-Identifier: GPL-2.0-only
//! How many objects each group is charged for, and which groups were made and went offline.
//!
//! Threads share the usage words, the group words and the journal of the tree in one table, each
//! with a seat of its own.
//!
//! Linux: `struct page_counter` in include/linux/page_counter.h, of which this has the usage and
//! the limit, and the order of `mem_cgroup_css_offline` in mm/memcontrol.c; `cgroup_mkdir` in
//! kernel/cgroup/cgroup.c. The journal is our own.
#![tactic(auto)]

pub mod answers;
pub mod charging;
pub mod ending;
mod law;
pub mod offlining;
pub mod opening;
mod rooms;
mod searching;
pub mod sharing;
pub mod table;
pub mod view;
mod words;

pub use table::{Charge, ChargeSeat, FirstChargeSeat};
