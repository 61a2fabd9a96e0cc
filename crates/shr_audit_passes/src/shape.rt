// SPDX-License-Identifier: GPL-2.0-only
//! What the walks of a report show by themselves.

ghost use Rattle.std.specs.Prelude.{◌≡◌, IfOk};
ghost use Rattle.std.specs.Bool.{Decides};
ghost use Rattle.shr_audit_formed.specs.Each.{EachItem};
ghost use Rattle.shr_laws.specs.Parts.{EachWalk};
ghost use Rattle.shr_audit_passes.specs.Fields.{IsShaped};

use crate::alone::{
    are_placed, is_bare_offline, is_cut_begun, is_freed_told, is_mapped, is_of_root, is_room_last,
};
use shr_base::memory::Memory;
use shr_base::scripts::Script;
use shr_base::walks::WalkRecord;
use shr_laws::report::Report;
use std::alloc::Global;

/// Whether a walk shows by itself what a lawful one shows.
pub fn is_shaped(alloc: Global, script: &Script, walk: &WalkRecord) -> Result<bool, Memory>
    ensures { IfOk result (λ b. Decides b (IsShaped script.now walk.now)) }
{
    if !is_bare_offline(walk) {
        return Ok(false);
    }
    if !is_of_root(script.ids, walk) {
        return Ok(false);
    }
    if !is_room_last(walk) {
        return Ok(false);
    }
    if !are_placed(walk.group, walk.attempts()) {
        return Ok(false);
    }
    if !is_freed_told(walk) {
        return Ok(false);
    }
    if !is_mapped(alloc, script.ids, walk)? {
        return Ok(false);
    }
    let begun = is_cut_begun(alloc, script, walk)?;
    Ok(begun)
}

// Whether each of these walks shows it.
fn are_shaped(alloc: Global, script: &Script, walks: &[WalkRecord]) -> Result<bool, Memory>
    ensures { IfOk result (λ b. Decides b (EachItem (IsShaped script.now) walks.now)) }
{
    for walk in walks {
        if !is_shaped(alloc, script, walk)? {
            return Ok(false);
        }
    }
    Ok(true)
}

/// Whether each walk of a report shows by itself what a lawful one shows.
pub fn walks_are_shaped(alloc: Global, script: &Script, report: &Report) -> Result<bool, Memory>
    ensures { IfOk result (λ b. Decides b (EachWalk report.now
        (λ worker n w. IsShaped script.now w))) }
{
    let parts = report.workers.as_slice();
    for worker in 0..parts.len() {
        if !are_shaped(alloc, script, parts[worker].walks.as_slice())? {
            return Ok(false);
        }
    }
    Ok(true)
}
