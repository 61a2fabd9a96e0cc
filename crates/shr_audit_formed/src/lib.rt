// SPDX-License-Identifier: GPL-2.0-only
//! Whether a report is well formed.
#![tactic(auto)]

pub mod formed;
pub mod lists;
pub mod maps;
pub mod parts;
pub mod tables;
pub mod words;
