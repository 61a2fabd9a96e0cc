// SPDX-License-Identifier: GPL-2.0-only
//! How much each command of a worker carried.

ghost use Rattle.std.specs.Prelude.{◌≡◌, ◌∷◌, [], ◌++◌, List, length, replicate, IfOk};
ghost use Rattle.shr_base.specs.declared.walks.Carry.{Carry};
ghost use Rattle.shr_laws.specs.Parts.{carries_of};
ghost use Rattle.shr_audit_causes.specs.Carried.{HasCarriedSums, IsCarriedOf};

use shr_audit_replies::numbers::count_answers;
use shr_base::memory::Memory;
use shr_base::walks::Carry;
use shr_laws::report::Report;
use std::alloc::Global;

// Nothing for each of so many commands.
fn nothing(alloc: Global, count: usize) -> Result<Vec<u64>, Memory>
    ensures { IfOk result (λ v. v.items ≡ replicate count 0) }
{
    Ok(vec![in alloc; 0; count]?)
}

// The carries of a worker, none past the last part.
fn carries_of(report: &Report, worker: usize) -> &[Carry]
    ensures { result.now ≡ carries_of report.now worker }
{
    match report.workers.get(worker) {
        Some(part) => part.carries.as_slice(),
        None => &[],
    }
}

// Notes a carry of a worker.
fn note(carried: &mut Vec<u64>, worker: usize, carry: &Carry)
    ensures count { length carried.new.items ≡ length carried.old.items }
    ensures noted { (before : List Carry) → HasCarriedSums worker before carried.old.items
        → HasCarriedSums worker (before ++ carry.now ∷ []) carried.new.items }
{
    let by = carry.by.worker as usize;
    if by != worker {
        return;
    }
    let command = carry.by.command as usize;
    if command < carried.len() {
        let amount = carried[command].wrapping_add(carry.amount);
        carried[command] = amount;
    }
}

/// How much each command of a worker that has an answer carried, modulo 2^64.
pub(crate) fn carried_of(alloc: Global, report: &Report, worker: usize) -> Result<Vec<u64>, Memory>
    ensures { IfOk result (λ carried. IsCarriedOf report.now worker carried.items) }
{
    let count = count_answers(report, worker);
    let mut carried = nothing(alloc, count)?;
    for carry in carries_of(report, worker) {
        note(&mut carried, worker, carry);
    }
    Ok(carried)
}
