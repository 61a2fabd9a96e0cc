// SPDX-License-Identifier: GPL-2.0-only
//! What a report says and when it is lawful: definitions, with nothing to run. It has the type of a
//! report, too. `docs/BELIEVE.md` lists the definitions by what they say.
#![tactic(auto)]

pub mod report;
