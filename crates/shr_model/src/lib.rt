// SPDX-License-Identifier: GPL-2.0-only
//! The model: the definitions that more than one crate must believe, and their laws. There is
//! nothing to run.
//!
//! What a reader must believe stands in `specs`; what the prover needs of it in `proofs`.
//! `docs/BELIEVE.md` has the definitions in plain words.
#![tactic(auto)]
