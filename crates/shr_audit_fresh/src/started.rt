// SPDX-License-Identifier: GPL-2.0-only
//! A worker is shown the Begin of a group only where an `offline` may have begun it.

ghost use Rattle.std.specs.Prelude.{◌≡◌, ℕ, true, option_to_list};
ghost use Rattle.std.specs.Bool.{Decides};
ghost use Rattle.std.specs.List.{list_any};
ghost use Rattle.shr_audit_reasons.specs.declared.cites.What.TheVariants as say;
ghost use Rattle.shr_audit_reasons.specs.Cites.{AreCited, cited_in};
ghost use Rattle.shr_audit_formed.specs.Each.{EachItem};
ghost use Rattle.shr_laws.specs.Freshness.{is_begin_at};
ghost use Rattle.shr_laws.specs.Parts.{walks_of};
ghost use Rattle.shr_laws.specs.WellFormed.{IsTreeNumbered};
ghost use Rattle.shr_audit_fresh.specs.Started.{AreAnswersStarted, IsEntryStarted, IsWalkStarted, may_show};
ghost use Rattle.shr_audit_fresh.specs.Worker.{IsBeginStarted};

use crate::shown::begin_at;
use crate::told::{cited_by, walk_cited, walks_of};
use shr_audit_reasons::cites::{Cited, cited_at};
use shr_audit_replies::numbers::count_answers;
use shr_base::scripts::Script;
use shr_base::walks::WalkRecord;
use shr_laws::report::Report;

// Whether an `offline` of those that are noted is of another worker, or not behind this command.
fn may_show(begun: Cited, worker: usize, command: usize) -> bool
    ensures { result ≡ may_show begun worker command }
{
    match begun {
        Cited::Never => false,
        Cited::Once {
            worker: w,
            command: c,
        } => w != worker || c <= command,
        Cited::Often {
            worker: w,
            command: c,
            others,
        } => others || w != worker || c <= command,
    }
}

// Whether that is so of the group of which an entry is the Begin, if it is one.
fn is_entry_started(
    report: &Report,
    begun: &[Cited],
    worker: usize,
    command: usize,
    entry: Option<u32>,
) -> bool
    ensures { Decides result (IsEntryStarted report.now begun.now worker command
        (option_to_list entry)) }
{
    match begin_at(report, entry) {
        Some(group) => may_show(cited_at(begun, group as usize), worker, command),
        None => true,
    }
}

// Whether it is so of what each answer of a worker cites.
fn are_answers_started(report: &Report, begun: &[Cited], worker: usize) -> bool
    ensures { Decides result (AreAnswersStarted report.now begun.now worker) }
{
    for number in 0..count_answers(report, worker) {
        let cited = cited_by(report, worker, number);
        if !is_entry_started(report, begun, worker, number, cited) {
            return false;
        }
    }
    true
}

// Whether it is so of what a walk cites, if it is of this worker.
fn is_walk_started(report: &Report, begun: &[Cited], worker: usize, walk: &WalkRecord) -> bool
    ensures { Decides result (IsWalkStarted report.now begun.now worker walk.now) }
{
    let by = walk.by.worker as usize;
    if by != worker {
        return true;
    }
    let cited = walk_cited(&walk.answer());
    is_entry_started(report, begun, worker, walk.by.command as usize, cited)
}

// Whether it is so of what each of these walks cites.
fn are_walks_started(report: &Report, begun: &[Cited], worker: usize, walks: &[WalkRecord]) -> bool
    ensures { Decides result (EachItem (λ w. IsWalkStarted report.now begun.now worker w)
        walks.now) }
{
    for walk in walks {
        if !is_walk_started(report, begun, worker, walk) {
            return false;
        }
    }
    true
}

/// Whether no Begin is shown to a worker before somebody may have begun.
pub(crate) fn is_begin_started(
    script: &Script,
    report: &Report,
    begun: &[Cited],
    worker: usize,
) -> bool
    requires begun { AreCited script.now report.now say.Begun 65536 begun.now }
    requires numbered { EachItem IsTreeNumbered report.now.tree.items }
    ensures { Decides result (IsBeginStarted script.now report.now worker) }
{
    if !are_answers_started(report, begun, worker) {
        return false;
    }
    let all = are_walks_started(report, begun, worker, walks_of(report, worker));
    all
}
