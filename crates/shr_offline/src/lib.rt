// SPDX-License-Identifier: GPL-2.0-only
//! Taking a group offline: its lists and its deferred work go to its parent.
#![tactic(auto)]

pub mod answers;
mod carrying;
pub mod offlining;
mod splicing;
