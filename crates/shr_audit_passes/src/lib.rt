// SPDX-License-Identifier: GPL-2.0-only
//! Whether a walk of a report is lawful.
#![tactic(auto)]

pub mod alone;
pub mod commands;
pub mod counts;
pub mod kinds;
pub mod met;
pub mod passes;
pub mod scans;
pub mod seen;
pub mod shape;
pub mod told;
