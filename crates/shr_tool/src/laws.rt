// SPDX-License-Identifier: GPL-2.0-only
//! Laws of inputs, as the clauses of functions that do nothing.

ghost use Rattle.shr_tool.specs.Audit.{IsOneSplit};

/// Bytes are one script with one report behind it.
pub fn one_split()
    ensures { IsOneSplit }
{}
