// SPDX-License-Identifier: GPL-2.0-only
//! Whether what a report says of pools of units is lawful, and which of their walks its commands owe.
#![tactic(auto)]

mod cites;
mod deferred;
pub mod due;
mod entries;
pub mod journals;
mod lows;
mod passes;
mod places;
pub mod pools;
mod replies;
mod rising;
mod stock;
mod versions;
mod walks;
