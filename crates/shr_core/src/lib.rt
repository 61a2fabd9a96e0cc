// SPDX-License-Identifier: GPL-2.0-only
//! The core table: the words and rooms that the threads of a run share, under one rule.
#![tactic(auto)]

pub mod again;
pub mod counts;
mod ending;
pub mod lookups;
pub mod opening;
pub mod pool;
pub mod rooms;
pub mod seat;
pub mod setting;
pub mod slot;
mod steps;
pub mod table;
pub mod view;
mod words;
