// SPDX-License-Identifier: GPL-2.0-only
//! Whether a sweep is lawful.
#![tactic(auto)]

pub mod answers;
pub mod marks;
pub mod sweep;
pub mod walks;
