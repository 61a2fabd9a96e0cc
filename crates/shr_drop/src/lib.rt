// SPDX-License-Identifier: GPL-2.0-only
//! Isolation: objects are taken off a cache's list one visit at a time, and between two visits the list's room is given
//! back.
//!
//! Linux: `list_lru_walk_one` in mm/list_lru.c with a callback that drops the lock and answers `LRU_RETRY` or
//! `LRU_REMOVED_RETRY`.
#![tactic(auto)]

pub mod isolating;
pub mod visits;
