// SPDX-License-Identifier: GPL-2.0-only
//! Reading a script by several threads.
#![tactic(auto)]

mod cutting;
mod joining;
mod parts;
pub mod reading;
