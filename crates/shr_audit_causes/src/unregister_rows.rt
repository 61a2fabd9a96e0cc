// SPDX-License-Identifier: GPL-2.0-only
//! The answers to an `unregister` that drained, against what they came from.

ghost use Rattle.std.specs.Prelude.{ℕ, ◌<◌, length};
ghost use Rattle.std.specs.Bool.{Decides};
ghost use Rattle.shr_audit_rows.specs.Rows.{AreFew};
ghost use Rattle.shr_audit_reasons.specs.Counted.{IsCountOf};
ghost use Rattle.shr_audit_case.specs.Places.{AreInOrder};
ghost use Rattle.shr_audit_causes.specs.Ended.{AreNotes};
ghost use Rattle.shr_audit_causes.specs.UnregisterRows.{HasEnd, HasHalfReason, IsUnregisterCausedAt};

use crate::ended::{Ended, Notes, is_ended_so, is_why};
use shr_audit_reasons::counted::Counted;
use shr_audit_replies::numbers::{answer_of, command_of, count_answers};
use shr_audit_rows::named::decl_named;
use shr_base::places::Serial;
use shr_base::replies::Reply;
use shr_base::scripts::{Command, Script};
use shr_laws::report::Report;

// Whether an answer, if it is that of an `unregister` that drained, is right of its entry, of where
// its registration began, of its objects, and of whether its id is idle afterwards.
fn has_end(report: &Report, notes: &Notes, by: Serial, command: &Command, reply: &Reply) -> bool
    requires { AreNotes report.now notes.now }
    ensures { Decides result (HasEnd report.now by command.now reply.now) }
{
    let decl = decl_named(command);
    match reply {
        Reply::Freed {
            id,
            entry,
            from,
            to,
            objects,
        } => {
            let ended = Ended {
                id: *id,
                entry: *entry,
                from: *from,
                to: *to,
                objects: *objects,
            };
            is_ended_so(report, notes, by, decl, ended, true)
        }
        Reply::Half {
            id,
            entry,
            from,
            to,
            objects,
            ..
        } => {
            let ended = Ended {
                id: *id,
                entry: *entry,
                from: *from,
                to: *to,
                objects: *objects,
            };
            is_ended_so(report, notes, by, decl, ended, false)
        }
        _ => true,
    }
}

// Whether an `unregister` that stopped half way had a reason.
fn has_reason(
    script: &Script,
    report: &Report,
    counted: &Counted,
    worker: usize,
    reply: &Reply,
) -> bool
    requires order { AreInOrder report.now.places.items }
    requires counted { IsCountOf script.now report.now counted.now }
    requires there { worker < length report.now.workers.items }
    ensures { Decides result (HasHalfReason script.now report.now worker reply.now) }
{
    match reply {
        Reply::Half { why, .. } => is_why(script, report, counted, worker, *why),
        _ => true,
    }
}

// Whether the answer with this number has its cause, but for which places its command drained.
fn is_caused_at(
    script: &Script,
    report: &Report,
    counted: &Counted,
    notes: &Notes,
    worker: usize,
    number: usize,
) -> bool
    requires few { AreFew script.now.workers.items }
    requires order { AreInOrder report.now.places.items }
    requires counted { IsCountOf script.now report.now counted.now }
    requires notes { AreNotes report.now notes.now }
    ensures { Decides result (IsUnregisterCausedAt script.now report.now worker number) }
{
    let Some(command) = command_of(script, worker, number) else {
        return true;
    };
    let Some(answer) = answer_of(report, worker, number) else {
        return true;
    };
    let by = Serial {
        worker: worker as u16,
        command: number as u32,
    };
    if !has_end(report, notes, by, command, &answer.reply) {
        return false;
    }
    has_reason(script, report, counted, worker, &answer.reply)
}

// Whether each answer of a worker has.
fn is_worker_caused(
    script: &Script,
    report: &Report,
    counted: &Counted,
    notes: &Notes,
    worker: usize,
) -> bool
    requires few { AreFew script.now.workers.items }
    requires order { AreInOrder report.now.places.items }
    requires counted { IsCountOf script.now report.now counted.now }
    requires notes { AreNotes report.now notes.now }
    ensures { Decides result ((k : ℕ) → IsUnregisterCausedAt script.now report.now worker k) }
{
    for number in 0..count_answers(report, worker) {
        if !is_caused_at(script, report, counted, notes, worker, number) {
            return false;
        }
    }
    true
}

/// Whether each answer has.
pub fn are_caused(script: &Script, report: &Report, counted: &Counted, notes: &Notes) -> bool
    requires few { AreFew script.now.workers.items }
    requires order { AreInOrder report.now.places.items }
    requires counted { IsCountOf script.now report.now counted.now }
    requires notes { AreNotes report.now notes.now }
    ensures { Decides result ((worker k : ℕ) → IsUnregisterCausedAt script.now report.now worker
        k) }
{
    for worker in 0..report.workers.len() {
        if !is_worker_caused(script, report, counted, notes, worker) {
            return false;
        }
    }
    true
}
