// SPDX-License-Identifier: GPL-2.0-only
//! The law on replies.

ghost use Rattle.std.specs.Prelude.{IfOk};
ghost use Rattle.std.specs.Bool.{Decides};
ghost use Rattle.shr_audit_case.specs.Lists.{IsCaseOf};
ghost use Rattle.shr_laws.specs.Replies.{AreRepliesLawful};

use crate::law::are_replies_lawful_but_values;
use crate::lent::are_values_lent;
use shr_audit_case::case::Case;
use shr_base::memory::Memory;
use shr_base::scripts::Script;
use shr_laws::report::Report;
use std::alloc::Global;

/// Whether the replies of a report are lawful for a script, with the values that hits lend. The
/// case is that of the two. `Memory` is want of memory alone.
pub fn are_replies_lawful(
    alloc: Global,
    script: &Script,
    report: &Report,
    case: &Case,
) -> Result<bool, Memory>
    requires { IsCaseOf script.now report.now case.now }
    ensures { IfOk result (λ b. Decides b (AreRepliesLawful script.now report.now)) }
{
    let lawful = are_replies_lawful_but_values(alloc, script, report)?;
    if !lawful {
        return Ok(false);
    }
    let lent = are_values_lent(script, report, case);
    Ok(lent)
}
