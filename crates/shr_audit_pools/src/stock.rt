// SPDX-License-Identifier: GPL-2.0-only
//! What is read once of the journals of the pools: how many units are free after each entry, and the
//! Reclaim entries of each walk.

ghost use Rattle.std.specs.Prelude.{◌≡◌, ℕ, ◌<◌, ◌≤◌, ◌++◌, List, length, map, slice_get, Some, option_to_list, IfOk, OnOk};
ghost use Rattle.std.specs.Bool.{Decides};
ghost use Rattle.shr_base.specs.declared.ends.UnitsEnd.{UnitsEnd};
ghost use Rattle.shr_base.specs.declared.journals.PlainEntry.{PlainEntry};
ghost use Rattle.shr_audit_formed.specs.Each.{EachItem};
ghost use Rattle.shr_model.specs.Units.{IsPlainJournal};
ghost use Rattle.shr_laws.specs.Numbers.{IsPlainEntryNumbered};
ghost use Rattle.shr_laws.specs.Pools.{reclaims_by};
ghost use Rattle.shr_laws.specs.UnitParts.{units_journal};
ghost use Rattle.shr_audit_pools.specs.Places.{AreKept, named_place};
ghost use Rattle.shr_audit_pools.specs.Stock.{AreFree, AreReclaims, AreStocksOf, IsFreeAfter, IsStockOf, StandByWalk, all_reclaims, made_of_reclaim, reclaimed_of, walk_key, reclaims_with_key};

use crate::journals::free_after;
use crate::places::{PoolPlace, index_of};
use shr_base::ends::UnitsEnd;
use shr_base::journals::PlainEntry;
use shr_base::memory::Memory;
use shr_laws::report::Report;
use std::alloc::Global;

/// A Reclaim entry with its number, and its walk by one number.
#[derive(Clone, Copy, Debug, PartialEq, Eq)]
pub struct Reclaimed {
    pub key: u64,
    pub number: usize,
    pub asked: u32,
    pub freed: u32,
}

/// What is read once of the journal of a pool on a node: how many units are free after so many
/// entries, and its Reclaim entries by their walks.
#[derive(Drop)]
pub struct Stock {
    pub free: Vec<u32>,
    pub reclaims: Vec<Reclaimed>,
}

// How many units are free after each number of entries.
fn free_counts(alloc: Global, entries: &[PlainEntry]) -> Result<Vec<u32>, Memory>
    requires { IsPlainJournal entries.now }
    ensures { IfOk result (λ free. AreFree entries.now free.items) }
{
    let mut counts = Vec::new(alloc);
    let mut free = 0;
    counts.push(free)?;
    for entry in entries {
        match free_after(free, entry) {
            Some(next) => free = next,
            None => unreachable!(),
        }
        counts.push(free)?;
    }
    Ok(counts)
}

// The entry with this number, if it is a Reclaim.
fn reclaimed_of(number: usize, entry: &PlainEntry) -> Option<Reclaimed>
    ensures { result ≡ reclaimed_of number entry.now }
{
    match *entry {
        PlainEntry::Reclaim {
            worker,
            walk,
            asked,
            freed,
        } => Some(Reclaimed {
            key: 0x1_0000_0000 * worker as u64 + walk as u64,
            number,
            asked,
            freed,
        }),
        _ => None,
    }
}

// Adds the entry with this number, if it is a Reclaim.
fn note_reclaim(
    reclaims: &mut Vec<Reclaimed>,
    number: usize,
    entry: &PlainEntry,
) -> Result<(), Memory>
    ensures { OnOk result (reclaims.new.items
        ≡ reclaims.old.items ++ option_to_list (reclaimed_of number entry.now)) }
{
    if let Some(reclaimed) = reclaimed_of(number, entry) {
        reclaims.push(reclaimed)?;
    }
    Ok(())
}

// The Reclaims of a journal, in order.
fn all_reclaims(alloc: Global, entries: &[PlainEntry]) -> Result<Vec<Reclaimed>, Memory>
    ensures { IfOk result (λ xs. xs.items ≡ all_reclaims entries.now) }
{
    let mut reclaims = Vec::new(alloc);
    for number in 0..entries.len() {
        note_reclaim(&mut reclaims, number, &entries[number])?;
    }
    Ok(reclaims)
}

// The Reclaims of a journal by their walks.
fn reclaims_of(alloc: Global, entries: &[PlainEntry]) -> Result<Vec<Reclaimed>, Memory>
    requires { EachItem IsPlainEntryNumbered entries.now }
    ensures { IfOk result (λ xs. AreReclaims entries.now xs.items) }
{
    let mut reclaims = all_reclaims(alloc, entries)?;
    reclaims.sort_by_key(|reclaimed| reclaimed.key)?;
    Ok(reclaims)
}

fn stock_of(alloc: Global, entries: &[PlainEntry]) -> Result<Stock, Memory>
    requires journal { IsPlainJournal entries.now }
    requires numbered { EachItem IsPlainEntryNumbered entries.now }
    ensures { IfOk result (λ stock. IsStockOf entries.now stock) }
{
    let free = free_counts(alloc, entries)?;
    let reclaims = reclaims_of(alloc, entries)?;
    Ok(Stock { free, reclaims })
}

/// That of each journal.
pub(crate) fn stocks_of(alloc: Global, report: &Report) -> Result<Vec<Stock>, Memory>
    requires { AreKept report.now }
    ensures { IfOk result (λ stocks. AreStocksOf report.now.units.items stocks.items) }
{
    let mut stocks = Vec::new(alloc);
    for units in report.units.as_slice() {
        let stock = stock_of(alloc, units.entries.as_slice())?;
        stocks.push(stock)?;
    }
    Ok(stocks)
}

// Whether so many units are free after so many entries of a journal.
fn is_free_in(stock: &Stock, entries: u32, free: u32) -> bool
    ensures { (es : List PlainEntry) → IsStockOf es stock.now
        → Decides result (IsFreeAfter es entries free) }
{
    let entries = entries as usize;
    entries < stock.free.len() && stock.free[entries] == free
}

/// The same of a pool on a node.
pub(crate) fn is_free_after(
    report: &Report,
    stocks: &[Stock],
    place: PoolPlace,
    entries: u32,
    free: u32,
) -> bool
    requires kept { AreKept report.now }
    requires stocks { AreStocksOf report.now.units.items stocks.now }
    ensures { Decides result (IsFreeAfter (units_journal report.now (named_place place)) entries
        free) }
{
    match index_of(report.units.as_slice(), place) {
        Some(k) => is_free_in(&stocks[k], entries, free),
        None => entries == 0 && free == 0,
    }
}

// The index of the first Reclaim that isn't of a walk before this.
fn first_of(reclaims: &[Reclaimed], key: u64) -> usize
    requires { StandByWalk reclaims.now }
    ensures within { result ≤ length reclaims.now }
    ensures before { (n : ℕ) (x : Reclaimed) → n < result → slice_get reclaims.now n ≡ Some x
        → x.key < key }
    ensures behind { (n : ℕ) (x : Reclaimed) → result ≤ n → slice_get reclaims.now n ≡ Some x
        → key ≤ x.key }
{
    reclaims.partition_point(|reclaimed| reclaimed.key < key)
}

// The index behind the last Reclaim that isn't of a later one.
fn behind_of(reclaims: &[Reclaimed], key: u64) -> usize
    requires { StandByWalk reclaims.now }
    ensures within { result ≤ length reclaims.now }
    ensures before { (n : ℕ) (x : Reclaimed) → n < result → slice_get reclaims.now n ≡ Some x
        → x.key ≤ key }
    ensures behind { (n : ℕ) (x : Reclaimed) → result ≤ n → slice_get reclaims.now n ≡ Some x
        → key < x.key }
{
    reclaims.partition_point(|reclaimed| reclaimed.key <= key)
}

// The Reclaims of a walk.
fn with_key(reclaims: &[Reclaimed], key: u64) -> &[Reclaimed]
    requires { StandByWalk reclaims.now }
    ensures { result.now ≡ reclaims_with_key key reclaims.now }
{
    let low = first_of(reclaims, key);
    let high = behind_of(reclaims, key);
    if low < high {
        &reclaims[low..high]
    } else {
        &[]
    }
}

// Those of a walk of a worker.
fn of_walk(stock: &Stock, worker: usize, walk: usize) -> &[Reclaimed]
    requires small { worker < 65536 }
    requires stand { StandByWalk stock.now.reclaims.items }
    ensures { (es : List PlainEntry) → IsStockOf es stock.now
        → map made_of_reclaim result.now ≡ reclaims_by worker walk es }
{
    if walk >= 0x1_0000_0000 {
        return &[];
    }
    let key = 0x1_0000_0000 * worker as u64 + walk as u64;
    with_key(stock.reclaims.as_slice(), key)
}

/// The same at a pool on a node.
pub(crate) fn reclaims_at<'a>(
    report: &Report,
    stocks: &'a [Stock],
    place: PoolPlace,
    worker: usize,
    walk: usize,
) -> &'a [Reclaimed]
    requires kept { AreKept report.now }
    requires stocks { AreStocksOf report.now.units.items stocks.now }
    requires small { worker < 65536 }
    ensures { map made_of_reclaim result.now
        ≡ reclaims_by worker walk (units_journal report.now (named_place place)) }
{
    match index_of(report.units.as_slice(), place) {
        Some(k) => of_walk(&stocks[k], worker, walk),
        None => &[],
    }
}
