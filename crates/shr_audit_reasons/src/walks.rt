// SPDX-License-Identifier: GPL-2.0-only
//! Walks that found their groups offline.

ghost use Rattle.std.specs.Bool.{Decides};
ghost use Rattle.shr_audit_formed.specs.Each.{EachItem};
ghost use Rattle.shr_laws.specs.Parts.{EachWalk};
ghost use Rattle.shr_audit_reasons.specs.Walks.{CitesBegin};

use crate::tree::is_begin_of;
use shr_base::ends::WorkerPart;
use shr_base::walks::{WalkAnswer, WalkRecord};
use shr_laws::report::Report;

// Whether a walk that found its group offline cites its Begin.
fn walk_begins(report: &Report, walk: &WalkRecord) -> bool
    ensures { Decides result (CitesBegin report.now walk.now) }
{
    match walk.answer() {
        WalkAnswer::Offline { entry } => is_begin_of(report, entry, walk.group),
        _ => true,
    }
}

// Whether each of these walks does.
fn all_begin(report: &Report, walks: &[WalkRecord]) -> bool
    ensures { Decides result (EachItem (λ w. CitesBegin report.now w) walks.now) }
{
    for walk in walks {
        if !walk_begins(report, walk) {
            return false;
        }
    }
    true
}

// Whether each walk of each part does.
fn parts_begin(report: &Report, parts: &[WorkerPart]) -> bool
    ensures { Decides result (EachItem (λ part. EachItem
        (λ w. CitesBegin report.now w) part.walks.items) parts.now) }
{
    for part in parts {
        if !all_begin(report, part.walks.as_slice()) {
            return false;
        }
    }
    true
}

/// Whether each walk that found its group offline cites its Begin.
pub fn walks_begin(report: &Report) -> bool
    ensures { Decides result (EachWalk report.now (λ worker n w. CitesBegin report.now w)) }
{
    let all = parts_begin(report, report.workers.as_slice());
    all
}
