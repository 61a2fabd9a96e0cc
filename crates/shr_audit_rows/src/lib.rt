// SPDX-License-Identifier: GPL-2.0-only
//! The causes of the replies of a report, row by row.
#![tactic(auto)]

pub mod asked;
pub mod children;
pub mod groups;
pub mod known;
pub mod law;
pub mod named;
pub mod pooled;
pub mod registered;
pub mod rows;
pub mod tried;
pub mod worn;
