// SPDX-License-Identifier: GPL-2.0-only
//! One worker's run: an answer for each of its commands, in order.
#![tactic(auto)]

pub mod commands;
pub mod making;
pub mod pools;
pub mod reclaims;
pub mod registrations;
pub mod replies;
pub mod running;
pub mod tasks;
pub mod tenants;
mod uncharging;
