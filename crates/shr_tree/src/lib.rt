// SPDX-License-Identifier: GPL-2.0-only
//! The tree of groups (the hierarchy of memory cgroups): parents, limits, and names by path.
#![tactic(auto)]

mod children;
pub mod errors;
pub mod laws;
mod names;
pub mod tree;
