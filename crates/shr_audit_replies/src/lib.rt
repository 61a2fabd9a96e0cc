// SPDX-License-Identifier: GPL-2.0-only
//! Whether the replies of a report are lawful for a script, with the values that hits return.
//!
//! Whether answers cite places that are printed twice.
#![tactic(auto)]

pub mod answered;
pub mod cited;
pub mod citing;
pub mod entries;
pub mod heads;
pub mod law;
pub mod lent;
pub mod numbers;
pub mod once;
pub mod rising;
pub mod rows;
pub mod values;
