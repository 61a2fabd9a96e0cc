// SPDX-License-Identifier: GPL-2.0-only
//! A report's text, printed by several threads.
#![tactic(auto)]

mod crew;
mod cutter;
mod measure;
mod parts;
pub mod printing;
mod section;
mod sections;
mod then;
mod turns;
