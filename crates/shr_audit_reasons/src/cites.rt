// SPDX-License-Identifier: GPL-2.0-only
//! Which answers speak of an entry of the journals of the tree and of registrations, or of a group.

ghost use Rattle.std.specs.Prelude.{◌≡◌, ℕ, ◌↔◌, IfOk, Some, option_copied, true};
ghost use Rattle.std.specs.Bool.{Decides};
ghost use Rattle.shr_base.specs.declared.scripts.Command.TheVariants.{Offline};
ghost use Rattle.shr_model.specs.Pool.{id_of};
ghost use Rattle.shr_laws.specs.Causes.{MayHaveBegun, is_done_by, is_made_by};
ghost use Rattle.shr_audit_reasons.specs.Cites.{AreCited, CitesNow, IsBegunBy, IsFreedAt, IsNever, IsNextOf, NotesAnswer, NotesWorker, after_cited, cited_in, is_registered_by, is_unregistered_by, noted_at};

use shr_audit_replies::numbers::{answer_of, command_of, count_answers};
use shr_base::journals::PoolEntry;
use shr_base::memory::Memory;
use shr_base::replies::Reply;
use shr_base::scripts::{Command, Script};
use shr_laws::report::Report;
use std::alloc::Global;

/// What an answer may say of an entry or of a group.
#[derive(Clone, Copy, Debug, PartialEq, Eq)]
pub enum What {
    /// The entry is its own Done.
    Done,
    /// The entry is its own Made.
    Made,
    /// It registered by the entry.
    Registered,
    /// It unregistered by the entry.
    Unregistered,
    /// It freed an id, of which the entry is the first from the one on that it cites.
    Freed,
    /// It may have begun the group's offlining.
    Begun,
}

/// Which answers say so: none, one, or more, of which this is the first.
#[derive(Clone, Copy, Debug, PartialEq, Eq)]
pub enum Cited {
    Never,
    Once {
        worker: usize,
        command: usize,
    },
    Often {
        worker: usize,
        command: usize,
        /// Whether another worker has one.
        others: bool,
    },
}

fn own_done(reply: &Reply) -> Option<usize>
    ensures { (n : ℕ) → (is_done_by n reply.now ≡ true) ↔ (result ≡ Some n) }
{
    match reply {
        Reply::OfflineDone { entry, .. } => Some(*entry as usize),
        _ => None,
    }
}

fn own_made(reply: &Reply) -> Option<usize>
    ensures { (n : ℕ) → (is_made_by n reply.now ≡ true) ↔ (result ≡ Some n) }
{
    match reply {
        Reply::Made { entry } => Some(*entry as usize),
        _ => None,
    }
}

fn registered(reply: &Reply) -> Option<usize>
    ensures { (n : ℕ) → (is_registered_by n reply.now ≡ true) ↔ (result ≡ Some n) }
{
    match reply {
        Reply::Registered { entry, .. } => Some(*entry as usize),
        _ => None,
    }
}

fn unregistered(reply: &Reply) -> Option<usize>
    ensures { (n : ℕ) → (is_unregistered_by n reply.now ≡ true) ↔ (result ≡ Some n) }
{
    match reply {
        Reply::Freed { entry, .. } => Some(*entry as usize),
        Reply::Half { entry, .. } => Some(*entry as usize),
        _ => None,
    }
}

/// The id that an entry of the pool is of.
pub(crate) fn id_of(entry: PoolEntry) -> u16
    ensures { result ≡ id_of entry }
{
    match entry {
        PoolEntry::Registered { id, .. } => id,
        PoolEntry::Unregistered { id, .. } => id,
        PoolEntry::Idle { id } => id,
    }
}

// The first entry of an id from a number on.
fn next_of(pool: &[PoolEntry], id: u16, from: usize) -> Option<usize>
    ensures { IsNextOf pool.now id from result }
{
    for n in from..pool.len() {
        if id_of(pool[n]) == id {
            return Some(n);
        }
    }
    None
}

// The same, of a number that an answer cites.
fn first_of(pool: &[PoolEntry], id: u16, entry: u32) -> Option<usize>
    ensures { (n : ℕ) → IsNextOf pool.now id entry (Some n) ↔ (result ≡ Some n) }
{
    let first = next_of(pool, id, entry as usize);
    first
}

// The first entry of the id that an answer freed, from the one on that it cites.
fn freed(report: &Report, reply: &Reply) -> Option<usize>
    ensures { (n : ℕ) → IsFreedAt report.now.pool.items n reply.now ↔ (result ≡ Some n) }
{
    match reply {
        Reply::Freed { id, entry, .. } => first_of(report.pool.as_slice(), *id, *entry),
        _ => None,
    }
}

// Whether an `offline` that was answered so may have begun the group's offlining.
fn may_have_begun(reply: &Reply) -> bool
    ensures { Decides result (MayHaveBegun reply.now) }
{
    match reply {
        Reply::OfflineDone { .. } => true,
        Reply::AlreadyDone { .. } => true,
        Reply::Worn { .. } => true,
        Reply::Memory => true,
        _ => false,
    }
}

// The group that a command takes offline.
fn offlined(command: Option<&Command>) -> Option<usize>
    ensures { (group : ℕ) → (option_copied command.entry ≡ Some (Offline group)) ↔
        (result ≡ Some group) }
{
    match command {
        Some(Command::Offline { group }) => Some(*group as usize),
        _ => None,
    }
}

// The group whose offlining an answer may have begun.
fn begun(command: Option<&Command>, reply: &Reply) -> Option<usize>
    ensures { (group : ℕ) → IsBegunBy (option_copied command.entry) reply.now group ↔
        (result ≡ Some group) }
{
    if !may_have_begun(reply) {
        return None;
    }
    offlined(command)
}

// The entry or the group that an answer says so of.
fn told(report: &Report, what: What, command: Option<&Command>, reply: &Reply) -> Option<usize>
    ensures { (n : ℕ) → CitesNow report.now what (option_copied command.entry) reply.now n ↔
        (result ≡ Some n) }
{
    match what {
        What::Done => own_done(reply),
        What::Made => own_made(reply),
        What::Registered => registered(reply),
        What::Unregistered => unregistered(reply),
        What::Freed => freed(report, reply),
        What::Begun => begun(command, reply),
    }
}

/// What is noted of an entry or a group, nothing past the last.
pub fn cited_at(table: &[Cited], n: usize) -> Cited
    ensures { result ≡ cited_in table.now n }
{
    if n < table.len() {
        table[n]
    } else {
        Cited::Never
    }
}

// One answer more says so.
fn after(cited: Cited, worker: usize, command: usize) -> Cited
    ensures { result ≡ after_cited cited worker command }
{
    match cited {
        Cited::Never => Cited::Once { worker, command },
        Cited::Once {
            worker: w,
            command: c,
        } => Cited::Often {
            worker: w,
            command: c,
            others: w != worker,
        },
        Cited::Often {
            worker: w,
            command: c,
            others,
        } => Cited::Often {
            worker: w,
            command: c,
            others: others || w != worker,
        },
    }
}

// Notes what an answer tells.
fn note(table: &mut Vec<Cited>, told: Option<usize>, worker: usize, command: usize)
    ensures { table.new.items ≡ noted_at told worker command table.old.items }
{
    let Some(n) = told else {
        return;
    };
    if n < table.len() {
        table[n] = after(table[n], worker, command);
    }
}

// Notes what one answer of a worker tells.
fn note_answer(
    script: &Script,
    report: &Report,
    what: What,
    worker: usize,
    number: usize,
    table: &mut Vec<Cited>,
)
    ensures { NotesAnswer script.now report.now what worker number table.old.items table.new.items }
{
    let Some(answer) = answer_of(report, worker, number) else {
        return;
    };
    let cited = told(
        report,
        what,
        command_of(script, worker, number),
        &answer.reply,
    );
    note(table, cited, worker, number);
}

// Notes what each answer of a worker tells.
fn note_worker(script: &Script, report: &Report, what: What, worker: usize, table: &mut Vec<Cited>)
    ensures { NotesWorker script.now report.now what worker table.old.items table.new.items }
{
    for number in 0..count_answers(report, worker) {
        note_answer(script, report, what, worker, number, table);
    }
}

// A table of so many of which no answer says anything.
fn none_cited(alloc: Global, size: usize) -> Result<Vec<Cited>, Memory>
    ensures { IfOk result (λ table. IsNever size table.items) }
{
    let mut table = Vec::new(alloc);
    for _n in 0..size {
        table.push(Cited::Never)?;
    }
    Ok(table)
}

/// Which answers say so, for each entry or group below a number. It goes through the answers once.
pub fn note_answers(
    alloc: Global,
    script: &Script,
    report: &Report,
    what: What,
    size: usize,
) -> Result<Vec<Cited>, Memory>
    ensures { IfOk result (λ table. AreCited script.now report.now what size table.items) }
{
    let mut table = none_cited(alloc, size)?;
    for worker in 0..report.workers.len() {
        note_worker(script, report, what, worker, &mut table);
    }
    Ok(table)
}
