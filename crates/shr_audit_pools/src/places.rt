// SPDX-License-Identifier: GPL-2.0-only
//! The journals of the pools by their places.

ghost use Rattle.std.specs.Prelude.{◌≡◌, ℕ, ◌<◌, ◌≤◌, length, slice_get, Some, None, IfSome, IfNone};
ghost use Rattle.std.specs.Bool.{Decides};
ghost use Rattle.shr_base.specs.declared.ends.UnitsEnd.{UnitsEnd};
ghost use Rattle.shr_laws.specs.UnitParts.{home_in, pool_place, units_journal};
ghost use Rattle.shr_audit_pools.specs.Places.{AreKept, AreShelved, pool_key, named_place, journal_printed_at, units_key};

use shr_base::ends::UnitsEnd;
use shr_base::journals::PlainEntry;
use shr_base::scripts::Script;
use shr_laws::report::Report;

/// A pool on a node.
#[derive(Clone, Copy, Debug, PartialEq, Eq)]
pub struct PoolPlace {
    pub pool: u8,
    pub node: u8,
}

/// A pool on a node by one number.
pub(crate) fn key_of(place: PoolPlace) -> usize
    ensures key { result ≡ pool_key place.pool place.node }
    ensures node { place.node < 256 }
{
    256 * place.pool as usize + place.node as usize
}

// That of a journal.
fn units_key(units: &UnitsEnd) -> usize
    ensures { result ≡ units_key units.now }
{
    256 * units.pool as usize + units.node as usize
}

// The index of the first journal that doesn't stand before this number.
fn index_from(ends: &[UnitsEnd], key: usize) -> usize
    requires { AreShelved ends.now }
    ensures before { (n : ℕ) (u : UnitsEnd) → n < result → slice_get ends.now n ≡ Some u
        → units_key u < key }
    ensures behind { (n : ℕ) (u : UnitsEnd) → result ≤ n → slice_get ends.now n ≡ Some u
        → key ≤ units_key u }
{
    ends.partition_point(|units| units_key(units) < key)
}

/// The index of the journal of a pool on a node.
pub(crate) fn index_of(ends: &[UnitsEnd], place: PoolPlace) -> Option<usize>
    requires { AreShelved ends.now }
    ensures within { IfSome result (λ k. k < length ends.now) }
    ensures some { IfSome result (λ k. slice_get ends.now k
        ≡ journal_printed_at ends.now (named_place place)) }
    ensures none { IfNone result (journal_printed_at ends.now (named_place place) ≡ None) }
{
    let key = key_of(place);
    let k = index_from(ends, key);
    if k >= ends.len() {
        return None;
    }
    let units = &ends[k];
    if units_key(units) != key {
        return None;
    }
    Some(k)
}

/// The journal of a pool on a node; one that isn't printed is empty.
pub(crate) fn entries_at(report: &Report, place: PoolPlace) -> &[PlainEntry]
    requires { AreKept report.now }
    ensures { result.now ≡ units_journal report.now (named_place place) }
{
    let ends = report.units.as_slice();
    match index_of(ends, place) {
        Some(k) => ends[k].entries.as_slice(),
        None => &[],
    }
}

// The node at which a pool keeps the units of a node.
fn home_in(script: &Script, pool: usize, node: u8) -> u8
    ensures home { result ≡ home_in (slice_get script.now.pools.items pool) node }
    ensures small { result < 256 }
{
    match script.pools.get(pool) {
        Some(decl) => { if decl.flat { 0 } else { node } }
        None => node,
    }
}

/// Where a pool keeps the units of a node.
pub(crate) fn home_of(script: &Script, pool: u8, node: u8) -> PoolPlace
    ensures home { named_place result ≡ pool_place script.now pool node }
    ensures small { result.node < 256 }
{
    PoolPlace {
        pool,
        node: home_in(script, pool as usize, node),
    }
}
