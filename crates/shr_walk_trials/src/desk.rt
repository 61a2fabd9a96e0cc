// SPDX-License-Identifier: GPL-2.0-only
//! The tables of a script, seats at them, and calls that a seat makes where it may.

pub(crate) mod charges;
pub(crate) mod holding;
pub(crate) mod left;
pub(crate) mod lists;
pub(crate) mod opening;
pub(crate) mod registrations;
pub(crate) mod walks;
pub(crate) mod words;
