// SPDX-License-Identifier: GPL-2.0-only
//! Scripts made from a number, to try the program at length, and the words of the command line.
#![tactic(auto)]

mod command_line;
pub mod drawing;
pub mod form;
pub mod generating;
pub mod laws;
