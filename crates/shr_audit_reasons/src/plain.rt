// SPDX-License-Identifier: GPL-2.0-only
//! Passes over the pools.

ghost use Rattle.std.specs.Prelude.{◌≡◌, ℕ, Some, slice_get};
ghost use Rattle.std.specs.Bool.{Decides};
ghost use Rattle.shr_base.specs.declared.walks.PlainTry.{PlainTry};
ghost use Rattle.shr_audit_formed.specs.Each.{EachItem};
ghost use Rattle.shr_laws.specs.UnitParts.{pool_place};
ghost use Rattle.shr_audit_reasons.specs.Passes.{AreTriesCaused, IsEndSpent, IsTryCaused, IsTrySpent};

use crate::pools::is_pool_spent;
use shr_base::ends::WorkerPart;
use shr_base::scripts::Script;
use shr_base::walks::{Ending, PlainTry, PlainWalk};
use shr_laws::report::Report;

// Whether a pass of a pool that is worn is so by the pool's journal.
fn is_end_spent(script: &Script, report: &Report, pool: usize, node: u8, ending: Ending) -> bool
    ensures { Decides result (IsEndSpent report.now (pool_place script.now pool node) ending) }
{
    match ending {
        Ending::Worn { spent } => is_pool_spent(script, report, pool, node, spent),
        _ => true,
    }
}

// Whether the pass of a try is.
fn is_try_spent(script: &Script, report: &Report, node: u8, pool: usize, tried: &PlainTry) -> bool
    ensures { Decides result (IsTrySpent report.now (pool_place script.now pool node) tried.now) }
{
    match tried {
        PlainTry::Ran { pass } => is_end_spent(script, report, pool, node, pass.ending),
        _ => true,
    }
}

// Whether that of a try with this number is, where the script has such a pool.
fn is_try_caused(script: &Script, report: &Report, node: u8, pool: usize, tried: &PlainTry) -> bool
    ensures { Decides result (IsTryCaused script.now report.now node pool tried.now) }
{
    match script.pools.get(pool) {
        Some(_decl) => is_try_spent(script, report, node, pool, tried),
        None => true,
    }
}

// Whether that of each try on a node is.
fn are_tries_caused_on(script: &Script, report: &Report, node: u8, tries: &[PlainTry]) -> bool
    ensures { Decides result ((pool : ℕ) (x : PlainTry) → slice_get tries.now pool ≡ Some x
        → IsTryCaused script.now report.now node pool x) }
{
    for pool in 0..tries.len() {
        if !is_try_caused(script, report, node, pool, &tries[pool]) {
            return false;
        }
    }
    true
}

// Whether each pass of these walks is.
fn are_walks_caused(script: &Script, report: &Report, walks: &[PlainWalk]) -> bool
    ensures { Decides result (EachItem (λ w. (pool : ℕ) (x : PlainTry)
        → slice_get w.tries.items pool ≡ Some x
        → IsTryCaused script.now report.now w.node pool x) walks.now) }
{
    for walk in walks {
        if !are_tries_caused_on(script, report, walk.node, walk.tries.as_slice()) {
            return false;
        }
    }
    true
}

// Whether each pass of these parts is.
fn are_parts_caused(script: &Script, report: &Report, parts: &[WorkerPart]) -> bool
    ensures { Decides result (EachItem (λ part. EachItem (λ w. (pool : ℕ) (x : PlainTry)
        → slice_get w.tries.items pool ≡ Some x
        → IsTryCaused script.now report.now w.node pool x) part.plain.items) parts.now) }
{
    for part in parts {
        if !are_walks_caused(script, report, part.plain.as_slice()) {
            return false;
        }
    }
    true
}

/// Whether each pass of a pool is worn only by the pool's journal.
pub fn are_tries_caused(script: &Script, report: &Report) -> bool
    ensures { Decides result (AreTriesCaused script.now report.now) }
{
    let all = are_parts_caused(script, report, report.workers.as_slice());
    all
}
