// SPDX-License-Identifier: GPL-2.0-only
//! The law on pools of units.

ghost use Rattle.std.specs.Prelude.{◌≤◌, length, IfOk};
ghost use Rattle.std.specs.Bool.{Decides};
ghost use Rattle.shr_laws.specs.Numbers.{HasNumbers};
ghost use Rattle.shr_laws.specs.Pools.{ArePoolsLawful};
ghost use Rattle.shr_laws.specs.WellFormed.{IsWellFormed};
ghost use Rattle.shr_audit_pools.specs.Journals.{AreJournalsRight};
ghost use Rattle.shr_audit_pools.specs.Law.{AreCitesRight, AreWalksRight};
ghost use Rattle.shr_audit_pools.specs.Places.{AreKept};
ghost use Rattle.shr_audit_pools.specs.Stock.{AreStocksOf};

use crate::deferred::are_words_right;
use crate::due::{are_walks_due, are_walks_of_commands};
use crate::entries::are_all_entries_right;
use crate::journals::are_journals_right;
use crate::replies::are_replies_right;
use crate::rising::are_all_rising;
use crate::stock::{Stock, stocks_of};
use crate::versions::are_all_versed;
use crate::walks::are_walks_lawful;
use shr_base::memory::Memory;
use shr_base::scripts::Script;
use shr_laws::report::Report;
use std::alloc::Global;

// Whether the fields on replies about pools hold.
fn are_cites_right(
    alloc: Global,
    script: &Script,
    report: &Report,
    stocks: &[Stock],
) -> Result<bool, Memory>
    requires kept { AreKept report.now }
    requires stocks { AreStocksOf report.now.units.items stocks.now }
    ensures { IfOk result (λ b. Decides b (AreCitesRight script.now report.now)) }
{
    if !are_replies_right(script, report, stocks) {
        return Ok(false);
    }
    if !are_all_entries_right(script, report) {
        return Ok(false);
    }
    let rising = are_all_rising(alloc, report)?;
    Ok(rising)
}

// Whether those on walks of the pools hold.
fn are_walks_right(
    alloc: Global,
    script: &Script,
    report: &Report,
    stocks: &[Stock],
) -> Result<bool, Memory>
    requires well { IsWellFormed report.now }
    requires numbers { HasNumbers report.now }
    requires pools { length script.now.pools.items ≤ 256 }
    requires kept { AreKept report.now }
    requires stocks { AreStocksOf report.now.units.items stocks.now }
    ensures { IfOk result (λ b. Decides b (AreWalksRight script.now report.now)) }
{
    if !are_walks_lawful(script, report, stocks) {
        return Ok(false);
    }
    if !are_walks_due(script, report) {
        return Ok(false);
    }
    if !are_walks_of_commands(script, report) {
        return Ok(false);
    }
    if !are_all_versed(alloc, script, report)? {
        return Ok(false);
    }
    let words = are_words_right(alloc, script, report)?;
    Ok(words)
}

// Whether all fields but those on the journals alone hold.
fn are_rest_right(alloc: Global, script: &Script, report: &Report) -> Result<bool, Memory>
    requires well { IsWellFormed report.now }
    requires numbers { HasNumbers report.now }
    requires pools { length script.now.pools.items ≤ 256 }
    requires kept { AreKept report.now }
    ensures { IfOk result (λ b. Decides b
        (AreCitesRight script.now report.now × AreWalksRight script.now report.now)) }
{
    let stocks = stocks_of(alloc, report)?;
    if !are_cites_right(alloc, script, report, stocks.as_slice())? {
        return Ok(false);
    }
    let walks = are_walks_right(alloc, script, report, stocks.as_slice())?;
    Ok(walks)
}

/// Whether the law on pools holds: each journal is of a pool at its home, has the outcomes that
/// follow, and leaves the free units that are printed; each reply about a pool cites its entry or
/// has its cause, and each entry is cited or is of a pass; each walk of the pools is lawful and due
/// to a command; and each deferred word is what the passes left. It wants numbers of their types and
/// a script of no more pools than have numbers. Want of memory alone is an error.
pub fn are_pools_lawful(alloc: Global, script: &Script, report: &Report) -> Result<bool, Memory>
    requires well { IsWellFormed report.now }
    requires numbers { HasNumbers report.now }
    requires pools { length script.now.pools.items ≤ 256 }
    ensures { IfOk result (λ b. Decides b (ArePoolsLawful script.now report.now)) }
{
    if !are_journals_right(script, report) {
        return Ok(false);
    }
    let rest = are_rest_right(alloc, script, report)?;
    Ok(rest)
}
