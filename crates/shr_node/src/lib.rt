// SPDX-License-Identifier: GPL-2.0-only
//! The calls on lists that threads share: each takes the rooms that it needs, acts, stores the
//! counts, sets the bit if a list was filled, and gives the rooms back.
#![tactic(auto)]

pub mod answers;
pub mod draining;
mod rooms;
pub mod scanning;
pub mod splicing;
pub mod tenants;
