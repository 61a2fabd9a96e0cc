// SPDX-License-Identifier: GPL-2.0-only
//! Plain types, growable lists and texts: what every crate of the runtime stands on.
//!
//! The kernel's words for them: a group is a memory cgroup (`struct mem_cgroup`), a node a NUMA
//! node, an id a shrinker's id, and a place one `struct list_lru_one`.
#![tactic(auto)]

pub mod attempts;
pub mod ends;
pub mod found;
pub mod items;
pub mod journals;
pub mod log;
pub mod memory;
pub mod objects;
mod packed;
pub mod places;
pub mod replies;
pub mod scripts;
pub mod text;
pub mod walks;
