// SPDX-License-Identifier: GPL-2.0-only
//! Whether the journals, the bag of objects and the bits of a report are lawful for a script.
#![tactic(auto)]

pub mod bag;
pub mod bags;
pub mod begun;
pub mod bits;
pub mod done;
mod gone;
pub mod law;
pub mod left;
mod noted;
pub mod paired;
mod phases;
pub mod places;
pub mod standing;
pub mod words;
