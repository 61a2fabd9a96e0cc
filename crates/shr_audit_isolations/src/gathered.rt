// SPDX-License-Identifier: GPL-2.0-only
//! The Scan entries of each isolation, gathered from the journals.

ghost use Rattle.std.specs.Prelude.{◌≡◌, ℕ, ◌<◌, ◌∷◌, [], length, map, slice_get, option_map, IfOk, IfSome, IfNone, IsTrue};
ghost use Rattle.std.specs.Bool.{Decides};
ghost use Rattle.std.specs.Option.{IsSomeAnd};
ghost use Rattle.shr_audit_formed.specs.Each.{EachItem};
ghost use Rattle.shr_laws.specs.Isolated.{IsOfIsolation};
ghost use Rattle.shr_laws.specs.Parts.{EachEntry};
ghost use Rattle.shr_audit_case.specs.Places.{AreInOrder};
ghost use Rattle.shr_audit_isolations.specs.Gathered.{AreGathered, GainsScans, IsGatheringBegun, IsOfTheirs, IsOfTold, RowGains, TableGains, at_place, begun, journals_to, new_at, pushed, seen_of, told_at, told_of};

use shr_audit_case::places::is_first;
use shr_base::ends::{PlaceEnd, WorkerPart};
use shr_base::journals::Entry;
use shr_base::memory::Memory;
use shr_base::objects::Policy;
use shr_base::places::Place;
use shr_base::walks::Isolation;
use shr_laws::report::Report;
use std::alloc::Global;

/// What stands as walk in the Scan entries of a worker's first isolation: walks have lower numbers.
const FIRST_ISOLATION: u64 = 0x8000_0000_0000_0000;

/// A Scan entry of an isolation.
#[derive(Clone, Copy, Debug, PartialEq, Eq)]
pub struct IsolationScan {
    pub asked: u32,
    pub policy: Policy,
    pub visits: u32,
    pub freed: u32,
    pub stopped: bool,
}

/// An isolation with the Scan entries that name it, in the order of their journal.
#[derive(Drop)]
pub struct Gathered {
    pub isolation: Isolation,
    pub scans: Vec<IsolationScan>,
}

// Whether the two are one place.
fn is_place(p: Place, q: Place) -> bool
    ensures { Decides result (p ≡ q) }
{
    p.id == q.id && p.node == q.node && p.group == q.group
}

// The isolations of a worker, of which nothing is gathered yet.
fn begin_row(alloc: Global, isolations: &[Isolation]) -> Result<Vec<Gathered>, Memory>
    ensures { IfOk result (λ row. map told_of row.items ≡ map begun isolations.now) }
{
    let mut row = Vec::new(alloc);
    for isolation in isolations {
        row.push(Gathered {
            isolation: *isolation,
            scans: Vec::new(alloc),
        })?;
    }
    Ok(row)
}

// Those of all workers.
fn begin_table(alloc: Global, parts: &[WorkerPart]) -> Result<Vec<Vec<Gathered>>, Memory>
    ensures { IfOk result (λ table. IsGatheringBegun parts.now table.items) }
{
    let mut table = Vec::new(alloc);
    for part in parts {
        let row = begin_row(alloc, part.isolations.as_slice())?;
        table.push(row)?;
    }
    Ok(table)
}

// Adds a scan of an isolation, if it stands at the isolation's place.
fn add_scan(gathered: &mut Gathered, place: Place, scan: IsolationScan) -> Result<bool, Memory>
    ensures here { IfOk result (λ b. Decides b (gathered.old.isolation.place ≡ place)) }
    ensures added { IfOk result (λ b. IsTrue b
        → told_of gathered.new ≡ pushed (seen_of scan) (told_of gathered.old)) }
{
    if !is_place(gathered.isolation.place, place) {
        return Ok(false);
    }
    gathered.scans.push(scan)?;
    Ok(true)
}

// Adds a scan of the isolation of a worker with this number, if it has that at the place.
fn add_to_row(
    row: &mut Vec<Gathered>,
    number: usize,
    place: Place,
    scan: IsolationScan,
) -> Result<bool, Memory>
    ensures here { IfOk result (λ b. Decides b (IsSomeAnd
        (option_map told_of (slice_get row.old.items number)) (λ t. t.isolation.place ≡ place))) }
    ensures added { IfOk result (λ b. IsTrue b
        → RowGains number (seen_of scan) row.old.items row.new.items) }
{
    if number >= row.len() {
        return Ok(false);
    }
    let added = add_scan(&mut row[number], place, scan)?;
    Ok(added)
}

// The same of the isolations of all workers.
fn add_to_table(
    table: &mut Vec<Vec<Gathered>>,
    worker: usize,
    number: usize,
    place: Place,
    scan: IsolationScan,
) -> Result<bool, Memory>
    ensures here { IfOk result (λ b. Decides b (IsSomeAnd (told_at table.old.items worker number)
        (λ t. t.isolation.place ≡ place))) }
    ensures added { IfOk result (λ b. IsTrue b
        → TableGains worker number (seen_of scan) table.old.items table.new.items) }
{
    if worker >= table.len() {
        return Ok(false);
    }
    let added = add_to_row(&mut table[worker], number, place, scan)?;
    Ok(added)
}

// Gathers an entry of a place, if it is a Scan of an isolation. Whether it is then of one at this
// place.
fn gather_entry(table: &mut Vec<Vec<Gathered>>, place: Place, entry: &Entry) -> Result<bool, Memory>
    ensures right { IfOk result (λ b. Decides b (IsOfTold table.old.items place entry.now)) }
    ensures gains { IfOk result (λ b. IsTrue b
        → GainsScans (at_place place (entry.now ∷ [])) table.old.items table.new.items) }
{
    match *entry {
        Entry::Scan {
            worker,
            walk,
            asked,
            policy,
            visits,
            freed,
            stopped,
        } => {
            if walk < FIRST_ISOLATION {
                return Ok(true);
            }
            let number = (walk - FIRST_ISOLATION) as usize;
            let scan = IsolationScan {
                asked,
                policy,
                visits,
                freed,
                stopped,
            };
            let added = add_to_table(table, worker as usize, number, place, scan)?;
            Ok(added)
        }
        _ => Ok(true),
    }
}

// Gathers the entries of a place, as long as each Scan of an isolation is of one at this place.
fn gather_entries(
    table: &mut Vec<Vec<Gathered>>,
    place: Place,
    entries: &[Entry],
) -> Result<bool, Memory>
    ensures right { IfOk result (λ b. Decides b (EachItem (IsOfTold table.old.items place)
        entries.now)) }
    ensures gains { IfOk result (λ b. IsTrue b
        → GainsScans (at_place place entries.now) table.old.items table.new.items) }
{
    for entry in entries {
        if !gather_entry(table, place, entry)? {
            return Ok(false);
        }
    }
    Ok(true)
}

// The same of a list, if it is the first one of its place.
fn gather_first(table: &mut Vec<Vec<Gathered>>, ends: &[PlaceEnd], k: usize) -> Result<bool, Memory>
    requires order { AreInOrder ends.now }
    requires there { k < length ends.now }
    ensures right { IfOk result (λ b. Decides b (IsOfTheirs table.old.items ends.now k)) }
    ensures gains { IfOk result (λ b. IsTrue b
        → GainsScans (new_at ends.now k) table.old.items table.new.items) }
{
    if !is_first(ends, k) {
        return Ok(true);
    }
    let end = &ends[k];
    let right = gather_entries(table, end.place, end.entries.as_slice())?;
    Ok(right)
}

// The same of all lists.
fn gather_lists(table: &mut Vec<Vec<Gathered>>, ends: &[PlaceEnd]) -> Result<bool, Memory>
    requires order { AreInOrder ends.now }
    ensures right { IfOk result (λ b. Decides b ((k : ℕ) → k < length ends.now
        → IsOfTheirs table.old.items ends.now k)) }
    ensures gains { IfOk result (λ b. IsTrue b
        → GainsScans (journals_to ends.now (length ends.now)) table.old.items table.new.items) }
{
    for k in 0..ends.len() {
        if !gather_first(table, ends, k)? {
            return Ok(false);
        }
    }
    Ok(true)
}

/// The isolations of a report, by worker and number, each with the Scan entries that name it;
/// nothing if a Scan entry names an isolation that isn't there or is of another place.
pub fn gather(alloc: Global, report: &Report) -> Result<Option<Vec<Vec<Gathered>>>, Memory>
    requires { AreInOrder report.now.places.items }
    ensures some { IfOk result (λ o. IfSome o (λ table.
        EachEntry report.now (λ place n e. IsOfIsolation report.now place e)
        × AreGathered report.now table.items)) }
    ensures none { IfOk result (λ o. IfNone o
        (EachEntry report.now (λ place n e. IsOfIsolation report.now place e) → ⊥)) }
{
    let parts = report.workers.as_slice();
    let ends = report.places.as_slice();
    let mut table = begin_table(alloc, parts)?;
    if !gather_lists(&mut table, ends)? {
        return Ok(None);
    }
    Ok(Some(table))
}
