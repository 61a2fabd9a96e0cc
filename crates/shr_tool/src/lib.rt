// SPDX-License-Identifier: GPL-2.0-only
//! The whole program as one call, over sources, sinks and gates.
//!
//! What belongs here: what is read, what is written and why, by the status. How a script is run stands in `shr_run`.
#![tactic(auto)]

pub mod afterwards;
mod auditing;
pub mod laws;
mod reading;
mod refusing;
pub mod status;
mod summary;
pub mod top;
