// SPDX-License-Identifier: GPL-2.0-only
//! Callers of the parts, as `docs/LIBRARY.md` describes them: what a program of one's own may copy.
#![tactic(auto)]

pub mod bounded;
pub mod recent;
pub mod spares;
#[cfg(test)]
mod tests;
