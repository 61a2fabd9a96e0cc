// SPDX-License-Identifier: GPL-2.0-only
//! Whether each isolation is lawful, and ended for a reason that the report has.

ghost use Rattle.std.specs.Prelude.{◌≡◌, ◌<◌, length, option_copied};
ghost use Rattle.std.specs.Bool.{Decides};
ghost use Rattle.shr_audit_formed.specs.Each.{EachItem};
ghost use Rattle.shr_model.specs.Commands.{decl_named};
ghost use Rattle.shr_laws.specs.Isolated.{cache_named};
ghost use Rattle.shr_audit_case.specs.Places.{AreInOrder};
ghost use Rattle.shr_audit_reasons.specs.Counted.{IsCountOf};
ghost use Rattle.shr_audit_isolations.specs.Gathered.{told_of};
ghost use Rattle.shr_audit_isolations.specs.Right.{AreRowsRight, IsEndRight, IsMadeRight, IsToldRight, cache_of_command};

use crate::gathered::Gathered;
use crate::lawful::is_lawful;
use shr_audit_case::serials::command_at;
use shr_audit_reasons::counted::Counted;
use shr_audit_reasons::spent::{is_closed_at, is_spent};
use shr_base::places::Serial;
use shr_base::replies::IsolateEnd;
use shr_base::scripts::{CacheDecl, Command, Script};
use shr_base::walks::Isolation;
use shr_laws::report::Report;

// The declaration that a command names.
fn decl_named(command: &Command) -> Option<u8>
    ensures { result ≡ decl_named command.now }
{
    match *command {
        Command::Put { at, .. } => Some(at.decl),
        Command::On { at, .. } => Some(at.decl),
        Command::Register { decl } => Some(decl),
        Command::Unregister { decl } => Some(decl),
        Command::Isolate { at, .. } => Some(at.decl),
        _ => None,
    }
}

// The cache that a command names.
fn cache_of<'a>(script: &'a Script, command: &Command) -> Option<&'a CacheDecl>
    ensures { option_copied result ≡ cache_of_command script.now command.now }
{
    match decl_named(command) {
        Some(decl) => script.caches.get(decl as usize),
        None => None,
    }
}

// The cache that the command with this serial names.
fn cache_named(script: &Script, by: Serial) -> Option<&CacheDecl>
    ensures { option_copied result ≡ cache_named script.now by }
{
    match command_at(script, by) {
        Some(command) => cache_of(script, command),
        None => None,
    }
}

// Whether an isolation is lawful with the scans that were gathered, for the cache of its command.
fn is_made_right(script: &Script, gathered: &Gathered) -> bool
    ensures { Decides result (IsMadeRight script.now (told_of gathered.now)) }
{
    match cache_named(script, gathered.isolation.by) {
        Some(decl) => is_lawful(decl.policy, gathered.scans.as_slice(), &gathered.isolation),
        None => false,
    }
}

// Whether an isolation of a worker found its list closed only where it is closed, and is worn only
// by a counter that was used up.
fn is_end_right(
    script: &Script,
    report: &Report,
    counted: &Counted,
    worker: usize,
    isolation: &Isolation,
) -> bool
    requires order { AreInOrder report.now.places.items }
    requires counted { IsCountOf script.now report.now counted.now }
    requires there { worker < length report.now.workers.items }
    ensures { Decides result (IsEndRight script.now report.now worker isolation.now) }
{
    match isolation.ending {
        IsolateEnd::Closed => is_closed_at(script, report, counted, isolation.place),
        IsolateEnd::Worn { spent } => is_spent(script, report, counted, worker, spent),
        _ => true,
    }
}

// Both.
fn is_right(
    script: &Script,
    report: &Report,
    counted: &Counted,
    worker: usize,
    gathered: &Gathered,
) -> bool
    requires order { AreInOrder report.now.places.items }
    requires counted { IsCountOf script.now report.now counted.now }
    requires there { worker < length report.now.workers.items }
    ensures { Decides result (IsToldRight script.now report.now worker (told_of gathered.now)) }
{
    is_made_right(script, gathered)
        && is_end_right(script, report, counted, worker, &gathered.isolation)
}

// The same of each isolation of a worker.
fn is_row_right(
    script: &Script,
    report: &Report,
    counted: &Counted,
    worker: usize,
    row: &[Gathered],
) -> bool
    requires order { AreInOrder report.now.places.items }
    requires counted { IsCountOf script.now report.now counted.now }
    requires there { worker < length report.now.workers.items }
    ensures { Decides result (EachItem (λ g. IsToldRight script.now report.now worker (told_of g))
        row.now) }
{
    for gathered in row {
        if !is_right(script, report, counted, worker, gathered) {
            return false;
        }
    }
    true
}

/// The same of all workers.
pub(crate) fn are_rows_right(
    script: &Script,
    report: &Report,
    counted: &Counted,
    table: &[Vec<Gathered>],
) -> bool
    requires order { AreInOrder report.now.places.items }
    requires counted { IsCountOf script.now report.now counted.now }
    requires parts { length table.now ≡ length report.now.workers.items }
    ensures { Decides result (AreRowsRight script.now report.now table.now) }
{
    for worker in 0..table.len() {
        if !is_row_right(script, report, counted, worker, table[worker].as_slice()) {
            return false;
        }
    }
    true
}
