// SPDX-License-Identifier: GPL-2.0-only
//! Laws of scripts, their spellings and their faults, as the clauses of functions that do nothing.

ghost use Rattle.std.specs.Prelude.{◌≡◌, ℕ, List, ◌⊎◌};
ghost use Rattle.shr_base.specs.declared.scripts.Code.{Code};
ghost use Rattle.shr_script.specs.Content.{Content, IsValid, spell};
ghost use Rattle.shr_script.specs.Spelling.{IsSpelling};
ghost use Rattle.shr_script.specs.Faults.{Fault, IsFault};
ghost use Rattle.shr_script.specs.Read.{Refuted};
ghost use Rattle.shr_script.specs.Bounds.{ValidIsWithin};

/// No two valid scripts are spelled alike.
pub fn one_spelling()
    ensures { (s t : Content) → IsValid s → IsValid t → spell s ≡ spell t → s ≡ t }
{}

/// Bytes have one fault at most.
pub fn one_fault()
    ensures { (bytes : List ℕ) (line other : ℕ) (code another : Code) → IsFault bytes line code
        → IsFault bytes other another → (line ≡ other) × (code ≡ another) }
{}

/// The spelling of a valid script has no fault.
pub fn no_fault()
    ensures { (bytes : List ℕ) (t : Content) (line : ℕ) (code : Code) → IsSpelling bytes t
        → IsFault bytes line code → Refuted }
{}

/// Bytes are the spelling of a valid script, or they have a fault.
pub fn spelling_or_fault()
    ensures { (bytes : List ℕ) → ((t : Content) × IsSpelling bytes t)
        ⊎ ((f : Fault) × IsFault bytes f.0 f.1) }
{}

/// A valid script is within its bounds: its sizes, its numbers and words, the tree of its groups,
/// and what each command names.
pub fn bounds()
    ensures { ValidIsWithin }
{}
