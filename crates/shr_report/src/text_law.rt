// SPDX-License-Identifier: GPL-2.0-only
//! The law of the text.

ghost use Rattle.shr_report.specs.Same.{HasOneText};

/// No two well formed reports have one text: what was written determines the report.
pub fn one_text()
    ensures { HasOneText }
{}
