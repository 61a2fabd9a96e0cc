// SPDX-License-Identifier: GPL-2.0-only
//! The passes of a walk, against the declarations of their caches.

ghost use Rattle.std.specs.Prelude.{◌≡◌, ◌<◌, ◌≤◌, ◌/◌, ◌^◌, ◌-◌, length, sum, take};
ghost use Rattle.std.specs.Bool.{Decides};
ghost use Rattle.shr_model.specs.Pass.{FollowsArithmetic, MadeOf, ask_size, batch_of, delta_of, due, total_of};
ghost use Rattle.shr_laws.specs.LawfulWalk.{IsOutcomeOf, IsPassOf, IsSkipped, IsStopped, cache_asks_due};

use shr_arith::formulas::next_deferred;
use shr_base::scripts::CacheDecl;
use shr_base::walks::{Ending, Outcome, PassRecord, WalkRecord};

/// The asks that are due in a pass: how many, and the size of each.
#[derive(Clone, Copy, Debug, PartialEq, Eq)]
pub struct Due {
    pub count: u64,
    pub size: u64,
}

// A number halved so many times.
fn halved(x: u64, times: u8) -> u64
    ensures value { result ≡ x / 2 ^ times }
    ensures small { result ≤ x }
{
    if times < 64 { x >> times } else { 0 }
}

// The new work of a pass.
fn delta_of(freeable: u32, priority: u8, seeks: u32) -> u64
    ensures value { result ≡ delta_of freeable priority seeks }
    ensures small { result < 2 ^ 34 }
{
    if seeks == 0 {
        (freeable / 2) as u64
    } else {
        halved(freeable as u64, priority) * 4 / seeks as u64
    }
}

// What a pass is to scan.
fn total_of(freeable: u32, nr: u64, priority: u8, seeks: u32) -> u64
    ensures value { result ≡ total_of freeable nr priority seeks }
    ensures small { result < 2 ^ 33 }
{
    halved(nr, priority)
        .saturating_add(delta_of(freeable, priority, seeks))
        .min(2 * freeable as u64)
}

fn batch_of(batch: u32) -> u64
    ensures value { result ≡ batch_of batch }
    ensures small { result < 2 ^ 32 }
    ensures some { 0 < result }
{
    if batch == 0 { 128 } else { batch as u64 }
}

// The asks that are due for a batch of at least 1, to scan so much.
#[tactic(auto, unfolding(shr_model::specs::Pass::due, shr_model::specs::Pass::ask_size))]
fn due_of(batch: u64, freeable: u32, total: u64) -> Due
    requires { 0 < batch }
    ensures count { result.count ≡ due batch freeable total }
    ensures size { result.size ≡ ask_size batch freeable total }
    ensures small { result.size ≤ batch }
{
    if batch <= freeable as u64 {
        Due {
            count: total / batch,
            size: batch,
        }
    } else {
        let count = if freeable as u64 <= total { 1 } else { 0 };
        Due {
            count,
            size: batch.min(total),
        }
    }
}

/// The asks that are due in a pass of a cache, or of a pool, with these seeks and this batch.
pub fn asks_due(priority: u8, seeks: u32, batch: u32, pass: &PassRecord) -> Due
    ensures count { result.count ≡ due (batch_of batch) pass.now.len
        (total_of pass.now.len pass.now.nr priority seeks) }
    ensures size { result.size ≡ ask_size (batch_of batch) pass.now.len
        (total_of pass.now.len pass.now.nr priority seeks) }
    ensures small { result.size < 2 ^ 32 }
{
    let total = total_of(pass.len, pass.nr, priority, seeks);
    due_of(batch_of(batch), pass.len, total)
}

// Whether so many asks were made of those that were due, for this ending.
fn are_made(asks: u32, ending: Ending, due: u64) -> bool
    ensures { Decides result (MadeOf asks ending due) }
{
    match ending {
        Ending::Through => asks as u64 == due,
        Ending::Stop => (asks as u64) < due,
        Ending::NoRoom => (asks as u64) < due,
        Ending::Worn { .. } => (asks as u64) < due,
    }
}

/// Whether the record of a pass follows the arithmetic, of a cache or a pool with these seeks and
/// this batch.
pub fn follows(priority: u8, seeks: u32, batch: u32, pass: &PassRecord) -> bool
    ensures { Decides result (FollowsArithmetic priority seeks batch pass.now) }
{
    let due = asks_due(priority, seeks, batch, pass);
    if !are_made(pass.asks, pass.ending, due.count) {
        return false;
    }
    if pass.scanned != (pass.asks as u64).min(due.count) * due.size {
        return false;
    }
    let delta = delta_of(pass.len, priority, seeks);
    if pass.next != next_deferred(pass.nr, delta, pass.scanned, pass.len) {
        return false;
    }
    pass.closed <= pass.asks
}

// Whether a list of this length is skipped.
fn is_skipped(decl: &CacheDecl, len: u32) -> bool
    ensures { Decides result (IsSkipped decl.now len) }
{
    0 < len && len <= decl.floor
}

// Whether a pass began above the floor, and follows the arithmetic.
fn is_pass_of(priority: u8, decl: &CacheDecl, pass: &PassRecord) -> bool
    ensures { Decides result (IsPassOf priority decl.now pass.now) }
{
    if pass.len <= decl.floor {
        return false;
    }
    let follows = follows(priority, decl.seeks, decl.batch, pass);
    follows
}

/// Whether a held attempt has an outcome of its cache.
pub fn is_outcome_of(priority: u8, decl: &CacheDecl, outcome: &Outcome) -> bool
    ensures { Decides result (IsOutcomeOf priority decl.now outcome.now) }
{
    match *outcome {
        Outcome::Skip { len, .. } => is_skipped(decl, len),
        Outcome::Ran { pass, .. } => is_pass_of(priority, decl, &pass),
        Outcome::RestoredSkip { len, .. } => is_skipped(decl, len),
        Outcome::RestoredRan { pass, .. } => is_pass_of(priority, decl, &pass),
        Outcome::Worn { .. } => true,
        Outcome::Gone { .. } => true,
        Outcome::Empty { .. } => true,
        Outcome::Cleared { .. } => true,
    }
}

/// Whether a pass ended by Stop if and only if an ask was due and this walk can't scan its cache,
/// and then made none.
pub fn is_stopped(walk: &WalkRecord, decl: &CacheDecl, pass: &PassRecord) -> bool
    ensures { Decides result (IsStopped walk.now decl.now pass.now) }
{
    let due = asks_due(walk.priority, decl.seeks, decl.batch, pass);
    let stops = decl.fs && walk.nofs && 0 < due.count;
    if (pass.ending == Ending::Stop) != stops {
        return false;
    }
    pass.ending != Ending::Stop || pass.asks == 0
}
