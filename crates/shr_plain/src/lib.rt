// SPDX-License-Identifier: GPL-2.0-only
//! Pools of units that know no groups: releasing units, grabbing one, and the walk that reclaims
//! them.
//!
//! Linux: shrinkers without `SHRINKER_MEMCG_AWARE` (include/linux/shrinker.h), which `shrink_slab`
//! in mm/shrinker.c calls for the root alone.
#![tactic(auto)]

pub mod answers;
pub mod ending;
pub mod grabbing;
pub mod law;
pub mod opening;
pub mod releasing;
mod rooms;
pub mod settings;
pub mod sharing;
pub mod slot;
mod steps;
pub mod table;
pub mod units;
pub mod view;
pub mod walking;

pub use table::{FirstPlainSeat, PlainSeat, Pools};
