// SPDX-License-Identifier: GPL-2.0-only
//! A tenant's commands on a cache: put, get, del and set_pin, with what they charge.
//!
//! The opening of a command on a cache: the load of its group's word, and finding the cache.
#![tactic(auto)]

mod charges;
pub mod dels;
pub mod gets;
pub mod opening;
pub mod pins;
pub mod puts;
pub mod replies;
