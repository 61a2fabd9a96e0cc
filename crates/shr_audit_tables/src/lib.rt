// SPDX-License-Identifier: GPL-2.0-only
//! The laws of a report on its tables, each decided both ways: deferred words, and what lookups met.
#![tactic(auto)]

pub mod deferred;
pub mod draws;
pub mod found;
pub mod idle;
pub mod lookups;
pub mod lookups_law;
pub mod met;
pub mod registrations;
