// SPDX-License-Identifier: GPL-2.0-only
//! A script and its report, by the index: journals replayed, sums by key, and registrations.
//!
//! The journal of a place, the answer to a command, and what each journal leaves; whether what goes up at each key
//! is what goes down there; what each list held after each entry; and the lookups that lie in each registration.
#![tactic(auto)]

pub mod case;
pub mod deferred;
pub mod groups;
mod items;
pub mod journal;
pub mod lists;
pub mod live;
pub mod met;
pub mod moves;
pub mod places;
pub mod replayed;
pub mod serials;
pub mod step;
pub mod steps;
pub mod tags;
pub mod values;
