// SPDX-License-Identifier: GPL-2.0-only
//! Freshness, field by field and worker by worker.

ghost use Rattle.std.specs.Prelude.{◌≡◌, length, IfOk};
ghost use Rattle.std.specs.Bool.{Decides};
ghost use Rattle.shr_audit_reasons.specs.declared.cites.What.TheVariants as say;
ghost use Rattle.shr_audit_reasons.specs.Cites.{AreCited};
ghost use Rattle.shr_audit_formed.specs.Each.{EachItem};
ghost use Rattle.shr_laws.specs.Freshness.{IsFresh};
ghost use Rattle.shr_laws.specs.Parts.{answers_of, decls_on};
ghost use Rattle.shr_laws.specs.WellFormed.{IsTreeNumbered};
ghost use Rattle.shr_audit_fresh.specs.Worker.{AreNumbersFresh, IsWorkerFresh};

use crate::made::stays_made;
use crate::onset::is_on_seen;
use crate::own::{is_own_below, is_shown_below};
use crate::refused::is_refused;
use crate::rising::{is_pool_rising, is_tree_rising};
use crate::started::is_begin_started;
use shr_audit_formed::tables::tree_fits;
use shr_audit_reasons::cites::{Cited, What, note_answers};
use shr_audit_reasons::registrations::count_on;
use shr_base::memory::Memory;
use shr_base::replies::Answered;
use shr_base::scripts::Script;
use shr_laws::report::Report;
use std::alloc::Global;

// The answers of a worker, none past the last part.
fn answers_of(report: &Report, worker: usize) -> &[Answered]
    ensures { result.now ≡ answers_of report.now worker }
{
    match report.workers.get(worker) {
        Some(part) => part.answers.as_slice(),
        None => &[],
    }
}

// Whether the numbers of entries that a worker's answers speak of are as what it knew before asks.
fn are_numbers_fresh(
    alloc: Global,
    script: &Script,
    report: &Report,
    on: usize,
    worker: usize,
) -> Result<bool, Memory>
    requires { on ≡ length (decls_on script.now) }
    ensures { IfOk result (λ b. Decides b (AreNumbersFresh script.now report.now worker)) }
{
    let answers = answers_of(report, worker);
    if !is_pool_rising(answers) {
        return Ok(false);
    }
    if !is_own_below(report, worker) {
        return Ok(false);
    }
    if !is_on_seen(script, report, worker, on) {
        return Ok(false);
    }
    if !is_tree_rising(answers) {
        return Ok(false);
    }
    let shown = is_shown_below(alloc, report, worker)?;
    Ok(shown)
}

// Whether no answer and no walk of a worker knew less than it had known before.
fn is_worker_fresh(
    alloc: Global,
    script: &Script,
    report: &Report,
    begun: &[Cited],
    on: usize,
    worker: usize,
) -> Result<bool, Memory>
    requires on { on ≡ length (decls_on script.now) }
    requires begun { AreCited script.now report.now say.Begun 65536 begun.now }
    requires numbered { EachItem IsTreeNumbered report.now.tree.items }
    ensures { IfOk result (λ b. Decides b (IsWorkerFresh script.now report.now worker)) }
{
    if !are_numbers_fresh(alloc, script, report, on, worker)? {
        return Ok(false);
    }
    if !is_refused(alloc, script, report, worker)? {
        return Ok(false);
    }
    if !is_begin_started(script, report, begun, worker) {
        return Ok(false);
    }
    let made = stays_made(alloc, script, report, worker)?;
    Ok(made)
}

/// Whether no answer and no walk of a report knew less than its worker had known before. It goes
/// through each worker's answers a few times, with what it knows by group and by command. `Memory`
/// is want of memory alone.
pub fn is_fresh(alloc: Global, script: &Script, report: &Report) -> Result<bool, Memory>
    ensures { IfOk result (λ b. Decides b (IsFresh script.now report.now)) }
{
    tree_fits(report.tree.as_slice());
    let begun = note_answers(alloc, script, report, What::Begun, 65536)?;
    let table = begun.as_slice();
    let on = count_on(script);
    for worker in 0..report.workers.len() {
        if !is_worker_fresh(alloc, script, report, table, on, worker)? {
            return Ok(false);
        }
    }
    Ok(true)
}
