// SPDX-License-Identifier: GPL-2.0-only
//! The passes of a report by their keys.

ghost use Rattle.std.specs.Prelude.{◌≡◌, ◌≤◌, ◌^◌, ◌++◌, length, Contains, IfOk, OnOk};
ghost use Rattle.std.specs.Bool.{Decides};
ghost use Rattle.std.specs.List.Sorted.{IsNonDecreasing, IsPermutation};
ghost use Rattle.shr_laws.specs.declared.report.Report.{Report};
ghost use Rattle.shr_audit_walks.specs.Keys.{key_of};
ghost use Rattle.shr_audit_walks.specs.Passes.{ArePassesOf, keys_at, keys_in, keys_of_part, keys_of_report};

use crate::keys::key_of;
use shr_audit_passes::alone::pass_of;
use shr_base::attempts::Attempt;
use shr_base::memory::Memory;
use shr_base::places::Place;
use shr_base::walks::WalkRecord;
use shr_laws::report::Report;
use std::alloc::Global;

/// The passes of a report, by their keys in order.
#[derive(Drop)]
pub struct Passes {
    keys: Vec<u128>,
}

// Notes the pass of an attempt, if one ran.
fn note_attempt(
    keys: &mut Vec<u128>,
    worker: u16,
    n: usize,
    walk: &WalkRecord,
    attempt: &Attempt,
) -> Result<(), Memory>
    ensures { OnOk result (keys.new.items ≡ keys.old.items
        ++ keys_at worker n walk.now attempt.now) }
{
    if let Some(_pass) = pass_of(&attempt.outcome()) {
        let place = Place {
            id: attempt.id,
            node: walk.node,
            group: walk.group,
        };
        keys.push(key_of(worker, n as u64, place))?;
    }
    Ok(())
}

// Notes the passes of a walk.
fn note_walk(keys: &mut Vec<u128>, worker: u16, n: usize, walk: &WalkRecord) -> Result<(), Memory>
    ensures { OnOk result (keys.new.items ≡ keys.old.items ++ keys_in worker n walk.now) }
{
    for attempt in walk.attempts() {
        note_attempt(keys, worker, n, walk, attempt)?;
    }
    Ok(())
}

// Notes the passes of the walks of a worker.
fn note_part(keys: &mut Vec<u128>, worker: u16, walks: &[WalkRecord]) -> Result<(), Memory>
    ensures { OnOk result (keys.new.items ≡ keys.old.items ++ keys_of_part worker walks.now) }
{
    for n in 0..walks.len() {
        note_walk(keys, worker, n, &walks[n])?;
    }
    Ok(())
}

// The keys of all passes of a report, worker by worker.
fn keys_of(alloc: Global, report: &Report) -> Result<Vec<u128>, Memory>
    requires { length report.now.workers.items ≤ 2 ^ 16 }
    ensures { IfOk result (λ keys. keys.items ≡ keys_of_report report.now) }
{
    let parts = report.workers.as_slice();
    let mut keys = Vec::new(alloc);
    for worker in 0..parts.len() {
        note_part(&mut keys, worker as u16, parts[worker].walks.as_slice())?;
    }
    Ok(keys)
}

impl Passes {
    /// Those of a report of at most 65536 workers.
    pub fn of(alloc: Global, report: &Report) -> Result<Passes, Memory>
        requires few { length report.now.workers.items ≤ 2 ^ 16 }
        ensures { IfOk result (ArePassesOf report.now) }
    {
        let mut keys = keys_of(alloc, report)?;
        keys.sort_unstable();
        Ok(Passes { keys })
    }

    /// Whether the walk with this number of a worker made a pass at a place.
    pub fn has(&self, worker: u16, walk: u64, place: Place) -> bool
        ensures { (r : Report) → ArePassesOf r self.now
            → Decides result (Contains (keys_of_report r) (key_of worker walk place)) }
    {
        let key = key_of(worker, walk, place);
        self.keys.binary_search(&key).is_ok()
    }
}
