// SPDX-License-Identifier: GPL-2.0-only
//! The laws of a report, proved of what each step of a run did. There is nothing to run.
//!
//! The law on pools of units, proved of what the workers of a run did at them. There is nothing to
//! run.
#![tactic(auto)]
