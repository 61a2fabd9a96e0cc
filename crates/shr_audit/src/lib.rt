// SPDX-License-Identifier: GPL-2.0-only
//! What bytes say to an auditor: the script and the report that they are, and which law of a report is
//! broken.
#![tactic(auto)]

pub mod asked;
pub mod audit;
pub mod found;
pub mod given;
pub mod laws;
pub mod script;
pub mod verdict;
