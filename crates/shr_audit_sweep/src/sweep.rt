// SPDX-License-Identifier: GPL-2.0-only
//! The law on sweeps.

ghost use Rattle.std.specs.Prelude.{◌≤◌, length, IfOk};
ghost use Rattle.std.specs.Bool.{Decides};
ghost use Rattle.shr_laws.specs.Parts.{parents_of};
ghost use Rattle.shr_laws.specs.Swept.{IsSweepLawful, IsSweepRight};
ghost use Rattle.shr_laws.specs.WellFormed.{IsWellFormed};

use crate::answers::{are_answered, are_swept_out};
use crate::marks::are_walked;
use shr_base::memory::Memory;
use shr_base::scripts::{Script, Sweep};
use shr_laws::report::Report;
use std::alloc::Global;

// Whether the sweep of a script is right.
fn is_right(alloc: Global, script: &Script, report: &Report, sweep: Sweep) -> Result<bool, Memory>
    requires well { IsWellFormed report.now }
    requires few { length (parents_of script.now) ≤ 65536 }
    ensures { IfOk result (λ b. Decides b (IsSweepRight script.now report.now sweep)) }
{
    if !are_answered(script, report, sweep) {
        return Ok(false);
    }
    let whole = are_swept_out(script, report);
    let walked = are_walked(alloc, script, report, whole)?;
    Ok(walked)
}

/// Whether the law on sweeps holds: in a script with a sweep each worker has its last answer, which
/// tells its walks, no group is walked twice on a node, and each is walked once if every worker says
/// that no job was left. It keeps a byte for each group on each node; want of that memory alone is
/// an error.
pub fn is_sweep_lawful(alloc: Global, script: &Script, report: &Report) -> Result<bool, Memory>
    requires well { IsWellFormed report.now }
    requires few { length (parents_of script.now) ≤ 65536 }
    ensures { IfOk result (λ b. Decides b (IsSweepLawful script.now report.now)) }
{
    match script.sweep {
        Some(sweep) => {
            let right = is_right(alloc, script, report, sweep)?;
            Ok(right)
        }
        None => Ok(true),
    }
}
