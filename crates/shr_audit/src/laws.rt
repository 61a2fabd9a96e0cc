// SPDX-License-Identifier: GPL-2.0-only
//! Laws of verdicts, as the clauses of functions that do nothing.

ghost use Rattle.shr_audit.specs.Verdict.{IsOneVerdict};

/// No two verdicts hold of the same bytes.
pub fn one_verdict()
    ensures { IsOneVerdict }
{}
