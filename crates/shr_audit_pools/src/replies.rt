// SPDX-License-Identifier: GPL-2.0-only
//! The replies about pools: each cites its entry, or has its cause.

ghost use Rattle.std.specs.Prelude.{◌≡◌, ℕ, Some, slice_get};
ghost use Rattle.std.specs.Bool.{Decides};
ghost use Rattle.shr_base.specs.declared.journals.PlainEntry.TheVariants as plain;
ghost use Rattle.shr_base.specs.declared.scripts.Command.TheVariants as command;
ghost use Rattle.shr_base.specs.declared.scripts.Script.{Script};
ghost use Rattle.shr_laws.specs.Parts.{serial_of, EachAnswer};
ghost use Rattle.shr_laws.specs.Pools.{IsPoolReply};
ghost use Rattle.shr_laws.specs.UnitParts.{pool_place, units_journal};
ghost use Rattle.shr_audit_pools.specs.Cited.{HasRight, IsPartRight};
ghost use Rattle.shr_audit_pools.specs.Places.{AreKept, named_place};
ghost use Rattle.shr_audit_pools.specs.Stock.{AreStocksOf};

use crate::cites::{Cite, entry_at};
use crate::due::commands_of;
use crate::places::{PoolPlace, home_of};
use crate::stock::{Stock, is_free_after};
use shr_base::ends::WorkerPart;
use shr_base::journals::PlainEntry;
use shr_base::replies::{Answered, Reply};
use shr_base::scripts::{Command, Script};
use shr_laws::report::Report;

/// Which answer of a report: of this worker, to its command with this number.
#[derive(Clone, Copy, Debug, PartialEq, Eq)]
pub struct AnswerAt {
    pub worker: usize,
    pub number: usize,
}

// Whether the entry that is cited is the Release of so many units by this command.
fn is_release(report: &Report, cite: Cite, at: AnswerAt, units: u32) -> bool
    requires { AreKept report.now }
    ensures { Decides result (slice_get (units_journal report.now (named_place cite.place))
        cite.entry ≡ Some (plain.Release (serial_of at.worker at.number) units)) }
{
    match entry_at(report, cite) {
        Some(
            PlainEntry::Release {
                by,
                units: released,
            },
        ) => {
            by.worker as usize == at.worker
                && by.command as usize == at.number
                && *released == units
        }
        _ => false,
    }
}

// Whether it is the Grab of this command, and got a unit or not.
fn is_grab(report: &Report, cite: Cite, at: AnswerAt, got: bool) -> bool
    requires { AreKept report.now }
    ensures { Decides result (slice_get (units_journal report.now (named_place cite.place))
        cite.entry ≡ Some (plain.Grab (serial_of at.worker at.number) got)) }
{
    match entry_at(report, cite) {
        Some(PlainEntry::Grab { by, got: grabbed }) => {
            by.worker as usize == at.worker && by.command as usize == at.number && *grabbed == got
        }
        _ => false,
    }
}

// Whether the reply to a `release` of so many units, which are kept here, cites its entry or has its
// cause.
fn is_release_right(
    report: &Report,
    stocks: &[Stock],
    home: PoolPlace,
    units: u32,
    at: AnswerAt,
    reply: &Reply,
) -> bool
    requires kept { AreKept report.now }
    requires stocks { AreStocksOf report.now.units.items stocks.now }
    ensures { (s : Script) (pool node : ℕ) → named_place home ≡ pool_place s pool node
        → Decides result (IsPoolReply s report.now (serial_of at.worker at.number)
        (command.Release node pool units) reply.now) }
{
    match *reply {
        Reply::Released { pool, node, entry } => {
            let cite = Cite::new(pool, node, entry);
            cite.place == home && is_release(report, cite, at, units)
        }
        Reply::Full {
            pool,
            node,
            entries,
            free,
        } => {
            let place = PoolPlace { pool, node };
            place == home
                && is_free_after(report, stocks, place, entries, free)
                && 20_000 < free as u64 + units as u64
        }
        _ => true,
    }
}

// Whether that to a `grab` does.
fn is_grab_right(report: &Report, home: PoolPlace, at: AnswerAt, reply: &Reply) -> bool
    requires { AreKept report.now }
    ensures { (s : Script) (pool node : ℕ) → named_place home ≡ pool_place s pool node
        → Decides result (IsPoolReply s report.now (serial_of at.worker at.number)
        (command.Grab node pool) reply.now) }
{
    match *reply {
        Reply::Grabbed { pool, node, entry } => {
            let cite = Cite::new(pool, node, entry);
            cite.place == home && is_grab(report, cite, at, true)
        }
        Reply::Bare { pool, node, entry } => {
            let cite = Cite::new(pool, node, entry);
            cite.place == home && is_grab(report, cite, at, false)
        }
        _ => true,
    }
}

// Whether that to any command does.
fn is_pool_reply(
    script: &Script,
    report: &Report,
    stocks: &[Stock],
    at: AnswerAt,
    command: &Command,
    reply: &Reply,
) -> bool
    requires kept { AreKept report.now }
    requires stocks { AreStocksOf report.now.units.items stocks.now }
    ensures { Decides result (IsPoolReply script.now report.now (serial_of at.worker at.number)
        command.now reply.now) }
{
    match *command {
        Command::Release { node, pool, units } => {
            let home = home_of(script, pool, node);
            is_release_right(report, stocks, home, units, at, reply)
        }
        Command::Grab { node, pool } => {
            is_grab_right(report, home_of(script, pool, node), at, reply)
        }
        _ => true,
    }
}

// The same of the answer with this number, where it is to a command.
fn has_right(
    script: &Script,
    report: &Report,
    stocks: &[Stock],
    at: AnswerAt,
    commands: &[Command],
    answer: &Answered,
) -> bool
    requires kept { AreKept report.now }
    requires stocks { AreStocksOf report.now.units.items stocks.now }
    ensures { Decides result (HasRight script.now report.now at.worker commands.now at.number
        answer.now) }
{
    match commands.get(at.number) {
        Some(command) => is_pool_reply(script, report, stocks, at, command, &answer.reply),
        None => true,
    }
}

// The same of each answer of a worker.
fn is_part_right(
    script: &Script,
    report: &Report,
    stocks: &[Stock],
    worker: usize,
    part: &WorkerPart,
) -> bool
    requires kept { AreKept report.now }
    requires stocks { AreStocksOf report.now.units.items stocks.now }
    ensures { Decides result (IsPartRight script.now report.now worker part.now) }
{
    let commands = commands_of(script, worker);
    let answers = part.answers.as_slice();
    for n in 0..answers.len() {
        let at = AnswerAt { worker, number: n };
        if !has_right(script, report, stocks, at, commands, &answers[n]) {
            return false;
        }
    }
    true
}

/// Whether each reply about a pool cites its entry, or has its cause.
pub(crate) fn are_replies_right(script: &Script, report: &Report, stocks: &[Stock]) -> bool
    requires kept { AreKept report.now }
    requires stocks { AreStocksOf report.now.units.items stocks.now }
    ensures { Decides result (EachAnswer script.now report.now (λ by c a.
        IsPoolReply script.now report.now by c a.reply)) }
{
    let parts = report.workers.as_slice();
    for worker in 0..parts.len() {
        if !is_part_right(script, report, stocks, worker, &parts[worker]) {
            return false;
        }
    }
    true
}
