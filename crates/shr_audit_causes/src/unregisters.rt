// SPDX-License-Identifier: GPL-2.0-only
//! The answers to an `unregister` that drained, with the lists that it drained.

ghost use Rattle.std.specs.Prelude.{IfOk};
ghost use Rattle.std.specs.Bool.{Decides};
ghost use Rattle.shr_audit_rows.specs.Rows.{AreFew};
ghost use Rattle.shr_audit_reasons.specs.Counted.{IsCountOf};
ghost use Rattle.shr_audit_case.specs.Places.{AreInOrder};
ghost use Rattle.shr_laws.specs.Parts.{EachAnswer};
ghost use Rattle.shr_audit_causes.specs.UnregisterRows.{HasUnregisterCause};

use crate::ended::Notes;
use crate::placed::are_drains_placed;
use crate::unregister_rows::are_caused;
use shr_audit_reasons::counted::Counted;
use shr_base::memory::Memory;
use shr_base::scripts::Script;
use shr_laws::report::Report;
use std::alloc::Global;

/// Whether each answer to an `unregister` that drained has its cause in the report: its entry, where
/// its registration began, what its command drained and of which id, whether the id is idle
/// afterwards, and why it stopped half way. `Memory` is want of memory alone.
pub fn are_unregisters_caused(
    alloc: Global,
    script: &Script,
    report: &Report,
    counted: &Counted,
) -> Result<bool, Memory>
    requires few { AreFew script.now.workers.items }
    requires order { AreInOrder report.now.places.items }
    requires counted { IsCountOf script.now report.now counted.now }
    ensures { IfOk result (λ b. Decides b (EachAnswer script.now report.now
        (λ by c a. HasUnregisterCause script.now report.now by c a.reply))) }
{
    let notes = Notes::of(alloc, report)?;
    if !are_caused(script, report, counted, &notes) {
        return Ok(false);
    }
    let placed = are_drains_placed(script, report);
    Ok(placed)
}
