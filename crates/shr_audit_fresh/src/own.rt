// SPDX-License-Identifier: GPL-2.0-only
//! What a worker's answers speak of is above what the worker made, or was shown, before.

ghost use Rattle.std.specs.Prelude.{◌≡◌, ℕ, ◌<◌, length, IfOk};
ghost use Rattle.std.specs.Bool.{Decides};
ghost use Rattle.shr_base.specs.declared.replies.Answered.{Answered};
ghost use Rattle.shr_laws.specs.Freshness.{of_answer, pool_seen, tree_seen};
ghost use Rattle.shr_laws.specs.Parts.{serial_of};
ghost use Rattle.shr_audit_fresh.specs.Floors.{Reaches};
ghost use Rattle.shr_audit_fresh.specs.Worker.{IsOwnBelow, IsShownBelow};

use crate::floors::{floor_with, higher, reaches, walk_floors};
use crate::told::{cited_by, made_by, pool_found, pool_told, tree_seen};
use shr_audit_replies::numbers::{answer_of, count_answers};
use shr_base::memory::Memory;
use shr_base::replies::Answered;
use shr_laws::report::Report;
use std::alloc::Global;

/// Whether what an answer says of the journal of registrations is at least the floor.
pub(crate) fn pool_reaches(floor: u64, answer: &Answered) -> bool
    ensures { Decides result (Reaches floor (pool_seen answer.now)) }
{
    if !reaches(floor, pool_found(answer)) {
        return false;
    }
    let told = reaches(floor, pool_told(&answer.reply));
    told
}

// The same of the answer with this number.
fn pool_reaches_at(report: &Report, worker: usize, number: usize, floor: u64) -> bool
    ensures { Decides result (Reaches floor
        (of_answer report.now (serial_of worker number) pool_seen)) }
{
    match answer_of(report, worker, number) {
        Some(answer) => pool_reaches(floor, answer),
        None => true,
    }
}

/// Whether what a worker's answers say of the journal of registrations is above what it made before.
pub(crate) fn is_own_below(report: &Report, worker: usize) -> bool
    ensures { Decides result (IsOwnBelow report.now worker) }
{
    let mut floor = 0;
    for number in 0..count_answers(report, worker) {
        if !pool_reaches_at(report, worker, number, floor) {
            return false;
        }
        floor = floor_with(floor, made_by(report, worker, number));
    }
    true
}

/// Whether what they say of the journal of the tree is above what an answer or a walk cited before.
pub(crate) fn is_shown_below(alloc: Global, report: &Report, worker: usize) -> Result<bool, Memory>
    ensures { IfOk result (λ b. Decides b (IsShownBelow report.now worker)) }
{
    let count = count_answers(report, worker);
    let floors = walk_floors(alloc, report, worker, count)?;
    let mut floor = 0;
    for number in 0..count {
        if !reaches(floor, tree_seen(report, worker, number)) {
            return Ok(false);
        }
        let cited = floor_with(floor, cited_by(report, worker, number));
        floor = higher(cited, floors[number]);
    }
    Ok(true)
}
