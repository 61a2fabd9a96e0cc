// SPDX-License-Identifier: GPL-2.0-only
//! The tables of a report.

ghost use Rattle.std.specs.Prelude.{◌≡◌, ◌<◌, ◌^◌, true, length};
ghost use Rattle.std.specs.Bool.{Decides};
ghost use Rattle.shr_model.specs.Paths.{is_path};
ghost use Rattle.shr_model.specs.Words.{is_name};
ghost use Rattle.shr_laws.specs.WellFormed.{IsAmountWell, IsBitWord, IsPlaceBefore, IsPlaceUpTo, IsPoolAmountWell, IsPoolNumbered, IsTreeNumbered, IsUseBefore, units_place};
ghost use Rattle.shr_audit_formed.specs.Each.{Adjacent, EachItem};

use crate::words::is_name;
use shr_base::ends::{MapEnd, PlaceAmount, UnitsEnd};
use shr_base::journals::{PoolEntry, TreeEntry, UseStep};
use shr_base::places::Place;
use shr_base::text::Text;
use shr_words::paths::is_path;

// Whether a place stands before another.
fn is_place_before(p: Place, q: Place) -> bool
    ensures { Decides result (IsPlaceBefore p q) }
{
    p.id < q.id || (p.id == q.id && (p.node < q.node || (p.node == q.node && p.group < q.group)))
}

/// Whether a place stands before another, or is the same.
pub fn is_place_up_to(p: Place, q: Place) -> bool
    ensures { Decides result (IsPlaceUpTo p q) }
{
    is_place_before(p, q) || p == q
}

/// Whether each of these is a path.
pub fn are_paths(paths: &[Text]) -> bool
    ensures { Decides result (EachItem (λ p. is_path p ≡ true) paths.now) }
{
    for path in paths {
        if !is_path(path.bytes()) {
            return false;
        }
    }
    true
}

/// Whether each of these is a name.
pub fn are_names(names: &[Text]) -> bool
    ensures { Decides result (EachItem (λ w. is_name w ≡ true) names.now) }
{
    for name in names {
        if !is_name(name.bytes()) {
            return false;
        }
    }
    true
}

// Each of its numbers has the range of its type.
fn pool_entry_fits(entry: PoolEntry)
    ensures { IsPoolNumbered entry }
{
    match entry {
        PoolEntry::Registered { .. } => {}
        PoolEntry::Unregistered { .. } => {}
        PoolEntry::Idle { .. } => {}
    }
}

// The same of an entry of the journal of the tree.
fn tree_entry_fits(entry: TreeEntry)
    ensures { IsTreeNumbered entry }
{
    match entry {
        TreeEntry::Begin { .. } => {}
        TreeEntry::Done { .. } => {}
        TreeEntry::Made { .. } => {}
    }
}

// The same of a number of lookups, and of a word of bits.
fn lookups_fit_one(n: u32)
    ensures { n < 2 ^ 32 }
{}

fn bits_fit_one(map: MapEnd)
    ensures { IsBitWord map.bits }
{}

/// Each number of these registrations has the range of its type, as it was read.
pub fn pool_fits(entries: &[PoolEntry])
    ensures { EachItem (IsPoolNumbered) entries.now }
{
    for entry in entries {
        pool_entry_fits(*entry);
    }
}

/// The same of the journal of the tree.
pub fn tree_fits(entries: &[TreeEntry])
    ensures { EachItem (IsTreeNumbered) entries.now }
{
    for entry in entries {
        tree_entry_fits(*entry);
    }
}

/// The same of the numbers of lookups.
pub fn lookups_fit(lookups: &[u32])
    ensures { EachItem (λ n. n < 2 ^ 32) lookups.now }
{
    for n in lookups {
        lookups_fit_one(*n);
    }
}

/// The same of words of bits.
pub fn bits_fit(maps: &[MapEnd])
    ensures { EachItem (λ m. IsBitWord m.bits) maps.now }
{
    for map in maps {
        bits_fit_one(*map);
    }
}

// Whether a deferred word is as one that is printed.
fn is_amount_well(d: PlaceAmount) -> bool
    ensures { Decides result (IsAmountWell d) }
{
    d.amount != 0
}

// The same of a pool's.
fn is_pool_amount_well(d: PlaceAmount) -> bool
    ensures { Decides result (IsPoolAmountWell d) }
{
    is_amount_well(d) && d.place.group == 0
}

/// Whether each deferred word is as one that is printed.
pub fn amounts_are_well(amounts: &[PlaceAmount]) -> bool
    ensures { Decides result (EachItem (IsAmountWell) amounts.now) }
{
    for d in amounts {
        if !is_amount_well(*d) {
            return false;
        }
    }
    true
}

/// The same of the deferred words of pools.
pub fn pool_amounts_are_well(amounts: &[PlaceAmount]) -> bool
    ensures { Decides result (EachItem (IsPoolAmountWell) amounts.now) }
{
    for d in amounts {
        if !is_pool_amount_well(*d) {
            return false;
        }
    }
    true
}

/// Whether amounts stand by place, each once.
pub fn amounts_rise(amounts: &[PlaceAmount]) -> bool
    ensures { Decides result (Adjacent (λ d e. IsPlaceBefore d.place e.place) amounts.now) }
{
    for i in 1..amounts.len() {
        if !is_place_before(amounts[i - 1].place, amounts[i].place) {
            return false;
        }
    }
    true
}

// Whether a charge stands before another.
fn is_use_before(u: &UseStep, v: &UseStep) -> bool
    ensures { Decides result (IsUseBefore u.now v.now) }
{
    u.group < v.group || (u.group == v.group && u.operation < v.operation)
}

/// Whether charges stand by group and operation.
pub fn uses_stand(uses: &[UseStep]) -> bool
    ensures { Decides result (Adjacent (IsUseBefore) uses.now) }
{
    for i in 1..uses.len() {
        if !is_use_before(&uses[i - 1], &uses[i]) {
            return false;
        }
    }
    true
}

/// Whether each pool on a node has an entry.
pub fn units_are_entered(pools: &[UnitsEnd]) -> bool
    ensures { Decides result (EachItem (λ u. 0 < length u.entries.items) pools.now) }
{
    for pool in pools {
        if pool.entries.len() == 0 {
            return false;
        }
    }
    true
}

// Where a pool on a node stands.
fn place_of_units(units: &UnitsEnd) -> Place
    ensures { result ≡ units_place units.now }
{
    Place {
        id: units.pool as u16,
        node: units.node,
        group: 0,
    }
}

/// Whether pools stand by pool and node.
pub fn units_stand(pools: &[UnitsEnd]) -> bool
    ensures { Decides result (Adjacent (λ u v. IsPlaceUpTo (units_place u)
        (units_place v)) pools.now) }
{
    for i in 1..pools.len() {
        if !is_place_up_to(place_of_units(&pools[i - 1]), place_of_units(&pools[i])) {
            return false;
        }
    }
    true
}
