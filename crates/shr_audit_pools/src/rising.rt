// SPDX-License-Identifier: GPL-2.0-only
//! The entries that the replies of a worker cite, one after another.

ghost use Rattle.std.specs.Prelude.{◌≡◌, ◌<◌, option_map, IfOk, IfSome, OnOk};
ghost use Rattle.std.specs.Bool.{Decides};
ghost use Rattle.shr_audit_pools.specs.Cited.{cite_at};
ghost use Rattle.shr_audit_pools.specs.Lows.{AreAllRising, AreCitesRising, IsHigh, IsSmall, NotesUnitsReply, cited_or_next};

use crate::cites::{Cite, cited_by};
use crate::lows::{low_at, no_lows, raise};
use shr_base::ends::WorkerPart;
use shr_base::memory::Memory;
use shr_base::replies::{Answered, Reply};
use shr_laws::report::Report;
use std::alloc::Global;
use std::collections::HashMap;

// The entry that a reply cites, or that it would have been.
fn asked_of(reply: &Reply) -> Option<Cite>
    ensures asked { option_map cite_at result ≡ cited_or_next reply.now }
    ensures small { IfSome result (λ c. c.place.node < 256) }
{
    match *reply {
        Reply::Full {
            pool,
            node,
            entries,
            ..
        } => Some(Cite::new(pool, node, entries)),
        _ => cited_by(reply),
    }
}

// Whether the number of that entry isn't too low.
fn is_high(lows: &HashMap<u64, u64>, reply: &Reply) -> bool
    ensures high { Decides result (IsHigh lows.now reply.now) }
    ensures small { IsSmall reply.now }
{
    match asked_of(reply) {
        Some(cite) => low_at(lows, cite.place) <= cite.entry as u64,
        None => true,
    }
}

/// Notes that later entries are to be above the one that a reply cites.
pub(crate) fn note_reply(lows: &mut HashMap<u64, u64>, reply: &Reply) -> Result<(), Memory>
    ensures { OnOk result (NotesUnitsReply reply.now lows.old lows.new) }
{
    match cited_by(reply) {
        Some(cite) => {
            raise(lows, cite.place, cite.entry as u64 + 1)?;
            Ok(())
        }
        None => Ok(()),
    }
}

// Whether each entry that the replies of a worker cite, or would have made, is above those that
// earlier ones cite there.
fn are_rising(alloc: Global, answers: &[Answered]) -> Result<bool, Memory>
    ensures { IfOk result (λ b. Decides b (AreCitesRising answers.now)) }
{
    let mut lows = no_lows(alloc);
    for k in 0..answers.len() {
        let answer = &answers[k];
        if !is_high(&lows, &answer.reply) {
            return Ok(false);
        }
        note_reply(&mut lows, &answer.reply)?;
    }
    Ok(true)
}

/// The same of all workers.
pub(crate) fn are_all_rising(alloc: Global, report: &Report) -> Result<bool, Memory>
    ensures { IfOk result (λ b. Decides b (AreAllRising report.now.workers.items)) }
{
    let parts = report.workers.as_slice();
    for worker in 0..parts.len() {
        let part: &WorkerPart = &parts[worker];
        if !are_rising(alloc, part.answers.as_slice())? {
            return Ok(false);
        }
    }
    Ok(true)
}
