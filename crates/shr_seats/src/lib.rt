// SPDX-License-Identifier: GPL-2.0-only
//! What the tables of words and rooms share: how their seats are split and joined, and how a step
//! tells its caller what it did.
//!
//! A table is an `atomic_table` under a rule. A thread steps on it with a seat, whose view is what
//! the thread did and saw there. Each table's view has a `Standing` for its place among the seats.
//!
//! A table of rooms has a journal under a lock and a count word beside it in each room. A room has eight
//! words, of which two are used, so that two rooms stand 64 bytes apart. The rule serves journals of any
//! entries, rooms that hold more than their journal, and views that have more than what they did and saw
//! in the rooms.
//!
//! A room with its lock and its count word is what `struct list_lru_one` is under its lock, with
//! `nr_items` (include/linux/list_lru.h).
#![tactic(auto)]

pub mod rows;
pub mod shape;
pub mod telling;
