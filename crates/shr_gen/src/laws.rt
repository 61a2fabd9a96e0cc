// SPDX-License-Identifier: GPL-2.0-only
//! Laws of forms, as the clauses of functions that do nothing.

ghost use Rattle.shr_gen.specs.Forms.{IsOneForm};

/// No words are read in two ways: as two forms, or as one and as none.
pub fn one_form()
    ensures { IsOneForm }
{}
