// SPDX-License-Identifier: GPL-2.0-only
//! The verdict on a script and a report as bytes.

ghost use Rattle.std.specs.Prelude.{IfOk};
ghost use Rattle.shr_audit.specs.Verdict.{HoldsOf};

use crate::asked::first_broken;
use crate::given::{Given, read_given};
use crate::verdict::Verdict;
use shr_base::memory::Memory;
use std::alloc::Global;

/// The verdict on bytes that are given as a script and as a report: of any two byte strings the one
/// that holds of them. Want of memory alone is an error.
pub fn audit(alloc: Global, script: &[u8], report: &[u8]) -> Result<Verdict, Memory>
    ensures { IfOk result (λ verdict. HoldsOf script.now report.now verdict) }
{
    match read_given(alloc, script, report)? {
        Given::Both {
            script: said,
            report: told,
        } => match first_broken(alloc, &said, &told)? {
            Some(clause) => Ok(Verdict::Unlawful { clause }),
            None => Ok(Verdict::Lawful),
        },
        Given::Bad { verdict } => Ok(verdict),
    }
}
