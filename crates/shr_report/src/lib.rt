// SPDX-License-Identifier: GPL-2.0-only
//! How a report is printed, and that its text determines it.
#![tactic(auto)]

mod answers;
pub mod between;
mod counters;
mod entries;
mod lines;
mod logs;
mod piece;
mod plain;
pub mod printers;
pub mod text;
pub mod text_law;
mod units;
mod unplaced;
pub mod uses;
mod walks;
pub mod workers;
