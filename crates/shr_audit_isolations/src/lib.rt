// SPDX-License-Identifier: GPL-2.0-only
//! Whether isolations are lawful.
#![tactic(auto)]

pub mod commands;
pub mod gathered;
pub mod isolations;
pub mod lawful;
pub mod right;
