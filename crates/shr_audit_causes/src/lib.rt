// SPDX-License-Identifier: GPL-2.0-only
//! Whether the law on causes holds of a report: the answers to `offline` and to `unregister` included.
#![tactic(auto)]

mod above;
pub mod began;
mod carried;
pub mod ended;
pub mod law;
mod moved;
mod offline_rows;
pub mod offlines;
pub mod placed;
mod spliced;
pub mod sums;
pub mod unregister_rows;
pub mod unregisters;
