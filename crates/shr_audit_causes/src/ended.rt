// SPDX-License-Identifier: GPL-2.0-only
//! What an `unregister` that drained says of its entry and its objects.

ghost use Rattle.std.specs.Prelude.{◌≡◌, ◌<◌, length, slice_get, Some, IfOk};
ghost use Rattle.std.specs.Bool.{Decides};
ghost use Rattle.std.specs.Option.{IsSomeAnd};
ghost use Rattle.shr_base.specs.declared.journals.PoolEntry.TheVariants.{Unregistered};
ghost use Rattle.shr_audit_reasons.specs.Counted.{IsCountOf};
ghost use Rattle.shr_audit_case.specs.Places.{AreInOrder};
ghost use Rattle.shr_laws.specs.Causes.{IsWhy};
ghost use Rattle.shr_audit_causes.specs.Ended.{AreNotes, IsEnd, IsEndedSo};

use crate::began::Began;
use crate::sums::{drained_in, sums_of};
use shr_audit_reasons::counted::Counted;
use shr_audit_reasons::spent::is_spent;
use shr_base::journals::PoolEntry;
use shr_base::memory::Memory;
use shr_base::places::Serial;
use shr_base::replies::HalfWhy;
use shr_base::scripts::Script;
use shr_laws::report::Report;
use std::alloc::Global;
use std::collections::BTreeMap;

/// What its answer says.
#[derive(Clone, Copy, Debug, PartialEq, Eq)]
pub struct Ended {
    pub id: u16,
    pub entry: u32,
    pub from: u32,
    pub to: u32,
    pub objects: u32,
}

/// What is noted once of a report: where registrations began, and how many objects each command
/// drained.
#[derive(Drop)]
pub struct Notes {
    pub began: Began,
    pub drained: BTreeMap<u64, u64>,
}

impl Notes {
    /// Notes it.
    pub fn of(alloc: Global, report: &Report) -> Result<Notes, Memory>
        requires { AreInOrder report.now.places.items }
        ensures { IfOk result (λ n. AreNotes report.now n) }
    {
        let began = Began::of(alloc, report)?;
        let drained = sums_of(alloc, report)?;
        Ok(Notes { began, drained })
    }
}

// Whether an entry unregistered a declaration and its id with this number.
fn is_made(report: &Report, decl: u8, ended: Ended) -> bool
    ensures { Decides result (slice_get report.now.pool.items ended.entry
        ≡ Some (Unregistered decl ended.id ended.to)) }
{
    match report.pool.get(ended.entry as usize) {
        Some(
            PoolEntry::Unregistered {
                decl: named,
                id: of,
                to,
            },
        ) => *named == decl && *of == ended.id && *to == ended.to,
        _ => false,
    }
}

// Whether a command made its entry, its registration began there, and it drained so many objects.
fn is_end(report: &Report, notes: &Notes, by: Serial, decl: u8, ended: Ended) -> bool
    requires { AreNotes report.now notes.now }
    ensures { Decides result (IsEnd report.now by decl ended) }
{
    if !is_made(report, decl, ended) {
        return false;
    }
    let from = notes.began.froms[ended.entry as usize];
    if from != ended.from {
        return false;
    }
    let drained = drained_in(&notes.drained, by);
    drained == ended.objects as u64
}

/// Whether a command of a declaration ended so, with its id idle afterwards or not.
pub fn is_ended_so(
    report: &Report,
    notes: &Notes,
    by: Serial,
    decl: Option<u8>,
    ended: Ended,
    idle: bool,
) -> bool
    requires { AreNotes report.now notes.now }
    ensures { Decides result (IsSomeAnd decl (λ d. IsEndedSo report.now by d ended idle)) }
{
    let Some(decl) = decl else {
        return false;
    };
    if notes.began.became_idle(report, ended.id, ended.entry) != idle {
        return false;
    }
    is_end(report, notes, by, decl, ended)
}

/// Whether a worker had a reason to stop half way.
pub fn is_why(
    script: &Script,
    report: &Report,
    counted: &Counted,
    worker: usize,
    why: HalfWhy,
) -> bool
    requires order { AreInOrder report.now.places.items }
    requires counted { IsCountOf script.now report.now counted.now }
    requires there { worker < length report.now.workers.items }
    ensures { Decides result (IsWhy script.now report.now worker why) }
{
    match why {
        HalfWhy::Memory => true,
        HalfWhy::Worn { spent } => is_spent(script, report, counted, worker, spent),
    }
}
