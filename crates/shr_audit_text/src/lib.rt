// SPDX-License-Identifier: GPL-2.0-only
//! Words, numbers and lines of a report's text, read back, and the draft that takes one line after another.
#![tactic(auto)]

pub mod draft;
pub mod entries;
pub mod finish;
pub mod items;
pub mod kinds;
pub mod lines;
pub mod lists;
pub mod parts;
pub mod pools;
pub mod reading;
pub mod replies;
pub mod said;
pub mod spent;
pub mod tables;
pub mod walks;
pub mod words;
