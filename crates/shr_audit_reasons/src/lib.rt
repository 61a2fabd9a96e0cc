// SPDX-License-Identifier: GPL-2.0-only
//! Whether what a report says has its cause in the report.
//!
//! Passes are exhausted, and find their lists closed, only if the report says why.
#![tactic(auto)]

pub mod attempts;
mod behind;
pub mod cites;
pub mod counted;
pub mod drains;
pub mod passes;
pub mod plain;
pub mod pools;
pub mod registrations;
pub mod spent;
pub mod tree;
pub mod trees;
pub mod walks;
