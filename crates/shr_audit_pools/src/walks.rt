// SPDX-License-Identifier: GPL-2.0-only
//! The walks of the pools, one by one.

ghost use Rattle.std.specs.Prelude.{◌≡◌, ℕ, ◌<◌, ◌≤◌, Some, length, slice_get, sum_by};
ghost use Rattle.std.specs.Bool.{Decides};
ghost use Rattle.shr_base.specs.declared.ends.WorkerPart.{WorkerPart};
ghost use Rattle.shr_base.specs.declared.walks.PlainWalk.{PlainWalk};
ghost use Rattle.shr_model.specs.Places.{is_place};
ghost use Rattle.shr_laws.specs.Pools.{HasTries, IsKind, IsLastTry, IsPlainCount, IsPlainLawful, IsPlainPass, freed_in_try, len_in, plain_told, reclaims_by};
ghost use Rattle.shr_laws.specs.UnitParts.{EachPlain, EachTry, units_journal};
ghost use Rattle.shr_audit_pools.specs.Passes.{IsCutRight, IsRunRight, IsTryRight};
ghost use Rattle.shr_audit_pools.specs.Places.{AreKept, named_place};
ghost use Rattle.shr_audit_pools.specs.Stock.{AreStocksOf};

use crate::passes::is_plain_pass;
use crate::places::{PoolPlace, entries_at, home_of};
use crate::stock::{Stock, is_free_after, reclaims_at};
use crate::versions::version_in;
use shr_base::scripts::{PoolDecl, Script};
use shr_base::walks::{Ending, PassRecord, PlainAnswer, PlainTry, PlainWalk};
use shr_laws::report::Report;

/// Which try of a report: at this pool, which has this place, of this walk of the pools of this
/// worker.
#[derive(Clone, Copy, Debug, PartialEq, Eq)]
pub struct TryAt {
    pub worker: usize,
    pub walk: usize,
    pub pool: usize,
    pub place: PoolPlace,
}

// The units that a try counted.
fn len_in(tried: &PlainTry) -> u32
    ensures { result ≡ len_in tried.now }
{
    match tried {
        PlainTry::Empty { .. } => 0,
        PlainTry::Skip { len, .. } => *len,
        PlainTry::Ran { pass } => pass.len,
    }
}

// Whether a try counted what was free at its place.
fn is_counted(report: &Report, stocks: &[Stock], place: PoolPlace, tried: &PlainTry) -> bool
    requires kept { AreKept report.now }
    requires stocks { AreStocksOf report.now.units.items stocks.now }
    ensures { Decides result (IsPlainCount report.now (named_place place) tried.now) }
{
    is_free_after(report, stocks, place, version_in(tried), len_in(tried))
}

// Whether a pool is skipped up to its floor, and passed above it.
fn is_kind(decl: &PoolDecl, tried: &PlainTry) -> bool
    ensures { Decides result (IsKind decl.now tried.now) }
{
    match tried {
        PlainTry::Empty { .. } => true,
        PlainTry::Skip { len, .. } => 0 < *len && *len <= decl.floor,
        PlainTry::Ran { pass } => decl.floor < pass.len,
    }
}

// Whether a try is the last one of a walk that memory ended.
fn is_last_try(walk: &PlainWalk, pool: usize) -> bool
    requires { pool < length walk.now.tries.items }
    ensures { Decides result (IsLastTry walk.now pool) }
{
    matches!(walk.answer, PlainAnswer::Memory { .. }) && walk.tries.len() == pool + 1
}

// Whether a pass is, if it ended for want of room.
fn is_cut_right(walk: &PlainWalk, pool: usize, pass: &PassRecord) -> bool
    requires { pool < length walk.now.tries.items }
    ensures { Decides result (IsCutRight walk.now pool pass.now) }
{
    if pass.ending != Ending::NoRoom {
        return true;
    }
    is_last_try(walk, pool)
}

// Whether a pass at a place is one of its pool, with the Reclaims of its walk there.
fn is_pass_right(
    report: &Report,
    stocks: &[Stock],
    decl: &PoolDecl,
    priority: u8,
    at: TryAt,
    pass: &PassRecord,
) -> bool
    requires kept { AreKept report.now }
    requires stocks { AreStocksOf report.now.units.items stocks.now }
    requires small { at.worker < 65536 }
    ensures { Decides result (IsPlainPass report.now (named_place at.place) decl.now
        priority pass.now
        (reclaims_by at.worker at.walk (units_journal report.now (named_place at.place)))) }
{
    let entries = entries_at(report, at.place).len();
    let reclaims = reclaims_at(report, stocks, at.place, at.worker, at.walk);
    let right = is_plain_pass(entries, decl, priority, pass, reclaims);
    right
}

// Whether the pass of a try is, if it ran one.
fn is_run_right(
    report: &Report,
    stocks: &[Stock],
    decl: &PoolDecl,
    walk: &PlainWalk,
    at: TryAt,
    tried: &PlainTry,
) -> bool
    requires kept { AreKept report.now }
    requires stocks { AreStocksOf report.now.units.items stocks.now }
    requires small { at.worker < 65536 }
    requires within { at.pool < length walk.now.tries.items }
    ensures { Decides result (IsRunRight report.now at.worker at.walk walk.now at.pool
        (named_place at.place) decl.now tried.now) }
{
    match tried {
        PlainTry::Ran { pass } => {
            is_pass_right(report, stocks, decl, walk.priority, at, pass)
                && is_cut_right(walk, at.pool, pass)
        }
        _ => true,
    }
}

// Whether a try at a place of a pool with this declaration is right.
fn is_try_right(
    report: &Report,
    stocks: &[Stock],
    decl: &PoolDecl,
    walk: &PlainWalk,
    at: TryAt,
    tried: &PlainTry,
) -> bool
    requires kept { AreKept report.now }
    requires stocks { AreStocksOf report.now.units.items stocks.now }
    requires small { at.worker < 65536 }
    requires within { at.pool < length walk.now.tries.items }
    ensures { Decides result (IsTryRight report.now at.worker at.walk walk.now at.pool
        (named_place at.place) decl.now tried.now) }
{
    if !is_counted(report, stocks, at.place, tried) {
        return false;
    }
    if !is_kind(decl, tried) {
        return false;
    }
    is_run_right(report, stocks, decl, walk, at, tried)
}

// Whether each try of a walk is right.
fn are_tries_right(
    script: &Script,
    report: &Report,
    stocks: &[Stock],
    walk: &PlainWalk,
    worker: usize,
    n: usize,
) -> bool
    requires kept { AreKept report.now }
    requires stocks { AreStocksOf report.now.units.items stocks.now }
    requires small { worker < 65536 }
    requires few { length walk.now.tries.items ≤ length script.now.pools.items }
    requires pools { length script.now.pools.items ≤ 256 }
    ensures { Decides result (EachTry script.now walk.now (λ pool place d x.
        IsTryRight report.now worker n walk.now pool place d x)) }
{
    let decls = script.pools.as_slice();
    let tries = walk.tries.as_slice();
    for pool in 0..tries.len() {
        let place = home_of(script, pool as u8, walk.node);
        let at = TryAt {
            worker,
            walk: n,
            pool,
            place,
        };
        if !is_try_right(report, stocks, &decls[pool], walk, at, &tries[pool]) {
            return false;
        }
    }
    true
}

// How many units a try freed.
fn freed_in(tried: &PlainTry) -> u64
    ensures { result ≡ freed_in_try tried.now }
{
    match tried {
        PlainTry::Ran { pass } => pass.freed,
        _ => 0,
    }
}

// Whether the passes of these tries freed so much.
fn have_freed(tries: &[PlainTry], told: u64) -> bool
    ensures { Decides result (told ≡ sum_by freed_in_try tries.now) }
{
    let mut left = told;
    for tried in tries {
        let freed = freed_in(tried);
        if freed > left {
            return false;
        }
        left -= freed;
    }
    left == 0
}

// What a walk of the pools told that it freed.
fn plain_told(answer: PlainAnswer) -> u64
    ensures { result ≡ plain_told answer }
{
    match answer {
        PlainAnswer::Walked { freed } => freed,
        PlainAnswer::Memory { freed } => freed,
    }
}

// Whether a walk has a try for each of so many pools, or for the first of them if memory ended it.
fn has_tries(pools: usize, walk: &PlainWalk) -> bool
    ensures { Decides result (HasTries pools walk.now.answer (length walk.now.tries.items)) }
{
    match walk.answer {
        PlainAnswer::Walked { .. } => walk.tries.len() == pools,
        PlainAnswer::Memory { .. } => walk.tries.len() <= pools,
    }
}

// Whether the walk of the pools of a worker with this number is lawful.
fn is_plain_lawful(
    script: &Script,
    report: &Report,
    stocks: &[Stock],
    worker: usize,
    n: usize,
    walk: &PlainWalk,
) -> bool
    requires kept { AreKept report.now }
    requires stocks { AreStocksOf report.now.units.items stocks.now }
    requires small { worker < 65536 }
    requires pools { length script.now.pools.items ≤ 256 }
    ensures { Decides result (IsPlainLawful script.now report.now worker n walk.now) }
{
    if !has_tries(script.pools.len(), walk) {
        return false;
    }
    if !are_tries_right(script, report, stocks, walk, worker, n) {
        return false;
    }
    let freed = have_freed(walk.tries.as_slice(), plain_told(walk.answer));
    freed
}

// Whether each walk of the pools of a worker is.
fn are_plain_lawful(
    script: &Script,
    report: &Report,
    stocks: &[Stock],
    worker: usize,
    walks: &[PlainWalk],
) -> bool
    requires kept { AreKept report.now }
    requires stocks { AreStocksOf report.now.units.items stocks.now }
    requires small { worker < 65536 }
    requires pools { length script.now.pools.items ≤ 256 }
    ensures { Decides result ((n : ℕ) (w : PlainWalk) → slice_get walks.now n ≡ Some w
        → IsPlainLawful script.now report.now worker n w) }
{
    for n in 0..walks.len() {
        if !is_plain_lawful(script, report, stocks, worker, n, &walks[n]) {
            return false;
        }
    }
    true
}

/// Whether each walk of the pools is lawful.
pub(crate) fn are_walks_lawful(script: &Script, report: &Report, stocks: &[Stock]) -> bool
    requires kept { AreKept report.now }
    requires stocks { AreStocksOf report.now.units.items stocks.now }
    requires small { length report.now.workers.items ≤ 65536 }
    requires pools { length script.now.pools.items ≤ 256 }
    ensures { Decides result (EachPlain report.now (IsPlainLawful script.now report.now)) }
{
    let parts = report.workers.as_slice();
    for worker in 0..parts.len() {
        let part = &parts[worker];
        if !are_plain_lawful(script, report, stocks, worker, part.plain.as_slice()) {
            return false;
        }
    }
    true
}
