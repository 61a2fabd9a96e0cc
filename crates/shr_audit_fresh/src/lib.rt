// SPDX-License-Identifier: GPL-2.0-only
//! Whether what the answers of a worker knew isn't older than what it had known before.
#![tactic(auto)]

mod firsts;
mod floors;
pub mod law;
mod made;
mod onset;
mod own;
mod refused;
mod rising;
mod shown;
mod started;
mod told;
