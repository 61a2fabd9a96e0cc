// SPDX-License-Identifier: GPL-2.0-only
//! The versions that the walks of each worker of a report read.

ghost use Rattle.std.specs.Prelude.{◌≡◌, ℕ, flat_map, IfOk};
ghost use Rattle.std.specs.Bool.{Decides};
ghost use Rattle.shr_base.specs.declared.places.Place.{Place};
ghost use Rattle.shr_model.specs.Walks.{versions_at};
ghost use Rattle.shr_laws.specs.Parts.{walks_of};
ghost use Rattle.shr_laws.specs.WellFormed.{AreNotFalling};

use crate::version_walks::walks_never_fall;
use shr_base::memory::Memory;
use shr_laws::report::Report;
use std::alloc::Global;

/// Whether the counts of each worker at each place have versions that never fall.
pub fn versions_never_fall(alloc: Global, report: &Report) -> Result<bool, Memory>
    ensures { IfOk result (λ b. Decides b ((worker : ℕ) (place : Place)
        → AreNotFalling (flat_map (versions_at place) (walks_of report.now worker)))) }
{
    let parts = report.workers.as_slice();
    for worker in 0..parts.len() {
        let part = &parts[worker];
        if !walks_never_fall(alloc, part.walks.as_slice())? {
            return Ok(false);
        }
    }
    Ok(true)
}
