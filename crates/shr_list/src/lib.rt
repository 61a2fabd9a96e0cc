// SPDX-License-Identifier: GPL-2.0-only
//! One list of objects with its journal (the kernel's `struct list_lru_one`).
#![tactic(auto)]

pub mod answers;
mod contents;
pub mod list;
pub mod queue;
