// SPDX-License-Identifier: GPL-2.0-only
//! Whether each answer to an `offline` that was done has its cause in the report.

ghost use Rattle.std.specs.Prelude.{IfOk};
ghost use Rattle.std.specs.Bool.{Decides};
ghost use Rattle.shr_audit_case.specs.Places.{AreInOrder};
ghost use Rattle.shr_model.specs.Trees.{IsTree};
ghost use Rattle.shr_laws.specs.Parts.{EachAnswer, parents_of};
ghost use Rattle.shr_audit_causes.specs.OfflineRows.{HasOfflineCause};

use crate::offline_rows::{are_caused, noted};
use shr_base::memory::Memory;
use shr_base::scripts::Script;
use shr_laws::report::Report;
use std::alloc::Global;

/// Whether each answer to an `offline` that was done has its cause in the report: its Done, what it
/// carried, and the objects that were moved from its group. `Memory` is want of memory alone.
pub fn are_offlines_caused(alloc: Global, script: &Script, report: &Report) -> Result<bool, Memory>
    requires tree { IsTree (parents_of script.now) }
    requires order { AreInOrder report.now.places.items }
    ensures { IfOk result (λ b. Decides b (EachAnswer script.now report.now
        (λ by c a. HasOfflineCause script.now report.now by c a.reply))) }
{
    let notes = noted(alloc, script, report)?;
    let all = are_caused(alloc, script, report, &notes)?;
    Ok(all)
}
