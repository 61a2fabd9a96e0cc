// SPDX-License-Identifier: GPL-2.0-only
//! Whether the charges of a report are lawful.
#![tactic(auto)]

pub mod balance;
pub mod climb;
pub mod history;
pub mod law;
pub mod left;
pub mod nets;
pub mod own;
pub mod puts;
pub mod tree;
pub mod uses;
