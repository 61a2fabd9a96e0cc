// SPDX-License-Identifier: GPL-2.0-only
//! One pass of a shrinker over one place: count, take over what was deferred, scan, defer the rest.
//!
//! Linux: `do_shrink_slab` in mm/shrinker.c.
#![tactic(auto)]

pub mod answers;
pub mod pass;
mod scanning;
pub mod shrinker;
