// SPDX-License-Identifier: GPL-2.0-only
//! The report of a run: what is left of the tables, and what the workers did.
#![tactic(auto)]

pub mod assembling;
pub mod logs;
mod noting;
mod placing;
