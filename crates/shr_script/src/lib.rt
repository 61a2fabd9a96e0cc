// SPDX-License-Identifier: GPL-2.0-only
//! The grammar of scripts: reading one, with the line and the code of the first fault.
#![tactic(auto)]

mod commands;
mod draft;
mod kind;
pub mod laws;
mod line;
mod lines;
pub mod read;
mod rules;
mod said;
mod stopped;
mod words;
