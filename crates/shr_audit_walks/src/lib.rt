// SPDX-License-Identifier: GPL-2.0-only
//! The law of a report on its walks.
//!
//! Its Scan entries by their passes, the walks that each command had to make, and what the walks of a worker see of
//! what its commands did before.
#![tactic(auto)]

pub mod bits;
mod cited;
mod cleared;
pub mod commands;
mod filled;
pub mod keys;
pub mod later;
pub mod law;
pub mod orders;
pub mod others;
pub mod passes;
mod puts;
mod refusals;
mod round_rows;
mod rounds;
pub mod scan_rows;
pub mod scan_table;
pub mod scan_walks;
pub mod version_table;
pub mod version_walks;
pub mod versions;
