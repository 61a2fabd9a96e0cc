// SPDX-License-Identifier: GPL-2.0-only
//! Registration: register, find and unregister over the journal of the pool.
#![tactic(auto)]

pub mod answers;
mod draining;
pub mod finding;
pub mod registering;
mod retiring;
mod searching;
pub mod unregistering;
