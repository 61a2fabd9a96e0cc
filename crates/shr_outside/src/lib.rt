// SPDX-License-Identifier: GPL-2.0-only
//! The outside: sources of bytes, sinks of bytes, and the gate before each command.
#![tactic(auto)]

pub mod outside;
mod page;
pub mod paper;
pub mod sinks;
pub mod sources;
pub mod writing;
