// SPDX-License-Identifier: GPL-2.0-only
//! What a worker's answers say of the journal of registrations isn't below the number of the caches
//! that are `on`.

ghost use Rattle.std.specs.Prelude.{◌≡◌, length};
ghost use Rattle.std.specs.Bool.{Decides};
ghost use Rattle.shr_laws.specs.Parts.{decls_on};
ghost use Rattle.shr_audit_fresh.specs.Worker.{IsOnSeen, IsOnSeenAt};

use crate::own::pool_reaches;
use shr_audit_replies::numbers::{answer_of, count_answers, count_commands};
use shr_base::scripts::Script;
use shr_laws::report::Report;

// Whether that is so of the answer with this number, if the script has its command.
fn is_on_seen_at(script: &Script, report: &Report, worker: usize, number: usize, on: usize) -> bool
    requires { on ≡ length (decls_on script.now) }
    ensures { Decides result (IsOnSeenAt script.now report.now worker number) }
{
    if number >= count_commands(script, worker) {
        return true;
    }
    match answer_of(report, worker, number) {
        Some(answer) => pool_reaches(on as u64, answer),
        None => true,
    }
}

/// Whether it is so of each answer of a worker to a command of the script.
pub(crate) fn is_on_seen(script: &Script, report: &Report, worker: usize, on: usize) -> bool
    requires { on ≡ length (decls_on script.now) }
    ensures { Decides result (IsOnSeen script.now report.now worker) }
{
    for number in 0..count_answers(report, worker) {
        if !is_on_seen_at(script, report, worker, number, on) {
            return false;
        }
    }
    true
}
