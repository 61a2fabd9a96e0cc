// SPDX-License-Identifier: GPL-2.0-only
//! What bytes that are given as a script and as a report are.

ghost use Rattle.std.specs.Prelude.{IfOk};
ghost use Rattle.shr_audit.specs.Given.{IsGiven};

use crate::found::report_of;
use crate::script::script_of;
use crate::verdict::Verdict;
use shr_base::memory::Memory;
use shr_base::scripts::Script;
use shr_laws::report::Report;
use shr_script::read::ReadError;
use std::alloc::Global;

/// What bytes that are given as a script and as a report are.
#[derive(Drop)]
pub enum Given {
    /// A valid script and a report.
    Both { script: Script, report: Report },
    /// Not both: the verdict is `BadScript` or `BadReport`.
    Bad { verdict: Verdict },
}

/// The script and the report that bytes are, or the verdict that they aren't. Want of memory alone is
/// an error.
pub fn read_given(alloc: Global, script: &[u8], report: &[u8]) -> Result<Given, Memory>
    ensures { IfOk result (λ given. IsGiven script.now report.now given) }
{
    match script_of(alloc, script) {
        Ok(script) => match report_of(alloc, report)? {
            Some(report) => Ok(Given::Both { script, report }),
            None => Ok(Given::Bad {
                verdict: Verdict::BadReport,
            }),
        },
        Err(ReadError::Fault { line, code }) => Ok(Given::Bad {
            verdict: Verdict::BadScript { line, code },
        }),
        Err(ReadError::Memory) => Err(Memory),
    }
}
