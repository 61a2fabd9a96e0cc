// SPDX-License-Identifier: GPL-2.0-only
//! The later entries of the journal of registrations, and the answers that made them.

ghost use Rattle.std.specs.Prelude.{◌≡◌, ℕ, ◌<◌, ◌≤◌, Some, length, slice_get, IfOk};
ghost use Rattle.std.specs.Bool.{Decides};
ghost use Rattle.shr_base.specs.declared.journals.PoolEntry.{PoolEntry};
ghost use Rattle.shr_laws.specs.Parts.{decls_on};
ghost use Rattle.shr_audit_reasons.specs.Registrations.{AreMade, AreRegistrationsCaused, IsEntryCited, IsFreedBehind};

use crate::behind::behinds_of;
use crate::cites::{Cited, What, cited_at, note_answers};
use crate::trees::is_cited;
use shr_base::journals::PoolEntry;
use shr_base::memory::Memory;
use shr_base::scripts::Script;
use shr_laws::report::Report;
use std::alloc::Global;

/// How many caches of a script are `on`.
pub fn count_on(script: &Script) -> usize
    ensures { result ≡ length (decls_on script.now) }
{
    let mut on = 0;
    for cache in script.caches.as_slice() {
        if cache.on {
            on += 1;
        }
    }
    on
}

/// What was noted of the journal of registrations: which answers registered, unregistered and freed by
/// its entries, and where the entry of an id before each of them is.
#[derive(Drop)]
pub struct Made {
    pub registered: Vec<Cited>,
    pub unregistered: Vec<Cited>,
    pub freed: Vec<Cited>,
    pub behinds: Vec<usize>,
}

// Whether an answer freed the id by the entry before this one, behind which this number is.
fn is_freed_behind(made: &Made, behind: usize) -> bool
    ensures { Decides result (IsFreedBehind made.now.freed.items behind) }
{
    behind > 0 && is_cited(cited_at(made.freed.as_slice(), behind - 1))
}

// Whether an answer was noted that made an entry.
fn is_entry_cited(made: &Made, n: usize, entry: &PoolEntry) -> bool
    requires { n < length made.now.behinds.items }
    ensures { Decides result (IsEntryCited made.now n entry.now) }
{
    match entry {
        PoolEntry::Registered { .. } => is_cited(cited_at(made.registered.as_slice(), n)),
        PoolEntry::Unregistered { .. } => is_cited(cited_at(made.unregistered.as_slice(), n)),
        PoolEntry::Idle { .. } => is_freed_behind(made, made.behinds[n]),
    }
}

// Whether that is so of each entry from a number on.
fn are_entries_cited(made: &Made, from: usize, pool: &[PoolEntry]) -> bool
    requires { length made.now.behinds.items ≡ length pool.now }
    ensures { Decides result ((n : ℕ) (e : PoolEntry) → from ≤ n → slice_get pool.now n ≡ Some e
        → IsEntryCited made.now n e) }
{
    for n in from..pool.len() {
        if !is_entry_cited(made, n, &pool[n]) {
            return false;
        }
    }
    true
}

// What is noted of a report.
fn made_of(alloc: Global, script: &Script, report: &Report) -> Result<Made, Memory>
    ensures { IfOk result (λ made. AreMade script.now report.now made) }
{
    let size = report.pool.len();
    Ok(Made {
        registered: note_answers(alloc, script, report, What::Registered, size)?,
        unregistered: note_answers(alloc, script, report, What::Unregistered, size)?,
        freed: note_answers(alloc, script, report, What::Freed, size)?,
        behinds: behinds_of(alloc, report.pool.as_slice())?,
    })
}

/// Whether each entry of the journal of registrations behind those of the caches that are `on` was
/// made by an answer: it registered an id, or freed it, or left it half way; the Idle of a freed id
/// is its next entry. `Memory` is want of memory alone.
pub fn are_registrations_caused(
    alloc: Global,
    script: &Script,
    report: &Report,
) -> Result<bool, Memory>
    ensures { IfOk result (λ b. Decides b (AreRegistrationsCaused script.now report.now)) }
{
    let made = made_of(alloc, script, report)?;
    let from = count_on(script);
    let all = are_entries_cited(&made, from, report.pool.as_slice());
    Ok(all)
}
