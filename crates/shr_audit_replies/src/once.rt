// SPDX-License-Identifier: GPL-2.0-only
//! Whether answers cite places that are printed twice.

ghost use Rattle.std.specs.Prelude.{◌≡◌, ℕ};
ghost use Rattle.std.specs.Bool.{Decides};
ghost use Rattle.shr_audit_case.specs.Places.{AreInOrder};
ghost use Rattle.shr_laws.specs.Parts.{cited_by};
ghost use Rattle.shr_audit_replies.specs.Once.{AreCitedOnce, IsCitedOnceAt, IsPrintedOnce};

use crate::numbers::{answer_of, count_answers};
use shr_audit_case::places::index_of;
use shr_base::ends::PlaceEnd;
use shr_base::places::{At, Place};
use shr_base::replies::Reply;
use shr_laws::report::Report;

// The entry that a reply cites.
fn cited_by(reply: &Reply) -> Option<At>
    ensures { result ≡ cited_by reply.now }
{
    match reply {
        Reply::Added { at } => Some(*at),
        Reply::Exists { at } => Some(*at),
        Reply::Hit { at, .. } => Some(*at),
        Reply::Miss { at } => Some(*at),
        Reply::Dropped { at } => Some(*at),
        Reply::Pinned { at } => Some(*at),
        Reply::Done { at } => Some(*at),
        _ => None,
    }
}

// Whether two are one place.
fn is_same(p: Place, q: Place) -> bool
    ensures { Decides result (p ≡ q) }
{
    p == q
}

// Whether a place is printed once at most.
fn is_printed_once(ends: &[PlaceEnd], place: Place) -> bool
    requires { AreInOrder ends.now }
    ensures { Decides result (IsPrintedOnce ends.now place) }
{
    let Some(k) = index_of(ends, place) else {
        return true;
    };
    if k + 1 >= ends.len() {
        return true;
    }
    let again = is_same(ends[k + 1].place, place);
    !again
}

// Whether the answer with this number cites no place that is printed twice.
fn is_cited_once_at(report: &Report, worker: usize, number: usize) -> bool
    requires { AreInOrder report.now.places.items }
    ensures { Decides result (IsCitedOnceAt report.now worker number) }
{
    let Some(answer) = answer_of(report, worker, number) else {
        return true;
    };
    let Some(at) = cited_by(&answer.reply) else {
        return true;
    };
    is_printed_once(report.places.as_slice(), at.place)
}

// Whether no answer of a worker does.
fn is_worker_once(report: &Report, worker: usize) -> bool
    requires { AreInOrder report.now.places.items }
    ensures { Decides result ((k : ℕ) → IsCitedOnceAt report.now worker k) }
{
    for number in 0..count_answers(report, worker) {
        if !is_cited_once_at(report, worker, number) {
            return false;
        }
    }
    true
}

/// Whether no answer cites a place that is printed twice.
pub fn are_cited_once(report: &Report) -> bool
    requires { AreInOrder report.now.places.items }
    ensures { Decides result (AreCitedOnce report.now) }
{
    for worker in 0..report.workers.len() {
        if !is_worker_once(report, worker) {
            return false;
        }
    }
    true
}
