// SPDX-License-Identifier: GPL-2.0-only
//! The report of a script's run.

ghost use Rattle.std.specs.Prelude.{◌≡◌, ◌+◌, IfOk};
ghost use Rattle.shr_laws.specs.Faithful.{IsFaithful};
ghost use Rattle.shr_laws.specs.Lawful.{IsLawful};
ghost use Rattle.shr_laws.specs.Puts.{AreFreePutsAdded};
ghost use Rattle.shr_laws.specs.PutSums.{DoPutsAddUp};
ghost use Rattle.shr_laws.specs.WellFormed.{IsWellFormed};
ghost use Rattle.shr_script.specs.Content.{content_of, IsValid};
ghost use Rattle.shr_run.specs.Made.{IsReportOfRun};

use crate::running::{Ran, run};
use shr_assemble::assembling::assemble;
use shr_base::memory::Memory;
use shr_base::scripts::Script;
use shr_laws::report::Report;
use shr_outside::outside::Gate;
use std::alloc::Global;
use std::sync::Wait;
use std::thread::Threads;

/// Runs a valid script, its workers on threads, and reports it. Whatever the order of their
/// steps, the report is lawful and faithful, what was added was freed or is listed, and each put
/// that nothing is in the way of was added, but where there was no memory or a counter was used
/// up. `Memory` comes for want of memory. It waits as the workers do.
pub fn run_and_report<R: Threads + Wait + Sync, G: Gate + Sync>(
    rt: &R,
    alloc: Global,
    script: Script,
    gate: &G,
) -> Result<Report, Memory>
    requires { IsValid (content_of script) }
    ensures made { IfOk result (IsReportOfRun script) }
    ensures lawful { IfOk result (IsLawful script) }
    ensures faithful { IfOk result (IsFaithful script) }
    ensures sums { IfOk result (λ r. r.freed + r.listed ≡ r.added) }
    ensures puts { IfOk result (λ r. AreFreePutsAdded script r) }
    ensures add_up { IfOk result (λ r. DoPutsAddUp script r) }
    ensures well_formed { IfOk result IsWellFormed }
{
    let Ran { ends, logs } = run(rt, alloc, script, gate)?;
    assemble(alloc, ends, logs)
}
