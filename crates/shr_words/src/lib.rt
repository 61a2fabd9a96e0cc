// SPDX-License-Identifier: GPL-2.0-only
//! The words of a script's line, and their classes.
#![tactic(auto)]

pub mod bytes;
pub mod cursor;
pub mod groups;
pub mod names;
pub mod paths;
mod runs;
pub mod word;
