// SPDX-License-Identifier: GPL-2.0-only
//! The report of a run, of what its tables left and of what its workers noted.

ghost use Rattle.std.specs.Prelude.{◌≡◌, ◌+◌, ◌∷◌, IfOk, codes, length, map};
ghost use Rattle.shr_model.specs.Bag.{added_by_all};
ghost use Rattle.shr_laws.specs.Faithful.{IsFaithful};
ghost use Rattle.shr_laws.specs.Lawful.{IsLawful};
ghost use Rattle.shr_laws.specs.Puts.{AreFreePutsAdded};
ghost use Rattle.shr_laws.specs.PutSums.{DoPutsAddUp};
ghost use Rattle.shr_laws.specs.WellFormed.{IsWellFormed};
ghost use Rattle.shr_assemble.specs.Makes.{added_count, listed_count, IsMadeOf};
ghost use Rattle.shr_assemble.specs.Putting.{AreEnds, IsPutTogether};

use crate::logs::WorkerLog;
use crate::noting::{Noted, note_all};
use shr_base::ends::{ChargeEnd, Closed, PlaceEnd};
use shr_base::journals::Entry;
use shr_base::log::Log;
use shr_base::memory::Memory;
use shr_base::scripts::{CacheDecl, GroupDecl, PoolDecl};
use shr_base::text::Text;
use shr_laws::report::Report;
use shr_plain::ending::PoolsEnd;
use shr_tables::ending::Ends;
use std::alloc::Global;

fn paths_of(alloc: Global, groups: &[GroupDecl]) -> Result<Log<Text>, Memory>
    ensures { IfOk result (λ paths. paths.items ≡ codes "/" ∷ map (λ g. g.path) groups.now) }
{
    let mut paths = Log::new(alloc);
    paths.add(Text::of(alloc, b"/")?)?;
    for group in groups {
        paths.add(group.path.copy()?)?;
    }
    Ok(paths)
}

fn names_of(alloc: Global, caches: &[CacheDecl]) -> Result<Log<Text>, Memory>
    ensures { IfOk result (λ names. names.items ≡ map (λ c. c.name) caches.now) }
{
    let mut names = Log::new(alloc);
    for cache in caches {
        names.add(cache.name.copy()?)?;
    }
    Ok(names)
}

fn pool_names_of(alloc: Global, pools: &[PoolDecl]) -> Result<Log<Text>, Memory>
    ensures { IfOk result (λ names. names.items ≡ map (λ p. p.name) pools.now) }
{
    let mut names = Log::new(alloc);
    for pool in pools {
        names.add(pool.name.copy()?)?;
    }
    Ok(names)
}

// How many objects a journal added.
fn count_added(entries: &[Entry]) -> u64
    ensures { result ≡ length (added_by_all entries.now) }
{
    let mut count = 0;
    for entry in entries {
        if matches!(entry, Entry::Add { added: true, .. }) {
            count += 1;
        }
    }
    count
}

// How many objects the printed journals added. A number that no machine has memory for is want of
// memory.
fn total_added(ends: &[PlaceEnd]) -> Result<u64, Memory>
    ensures { IfOk result (λ n. n ≡ added_count ends.now) }
{
    let mut total = 0u64;
    for end in ends {
        total = total
            .checked_add(count_added(end.entries.as_slice()))
            .ok_or(Memory)?;
    }
    Ok(total)
}

// How many objects the printed lists hold, likewise.
fn total_listed(ends: &[PlaceEnd]) -> Result<u64, Memory>
    ensures { IfOk result (λ n. n ≡ listed_count ends.now) }
{
    let mut total = 0u64;
    for end in ends {
        total = total.checked_add(end.items.len() as u64).ok_or(Memory)?;
    }
    Ok(total)
}

// The report by its parts.
fn put_together(alloc: Global, ends: Ends, noted: Noted) -> Result<Report, Memory>
    ensures { IfOk result (IsPutTogether ends noted) }
{
    let Ends {
        script,
        core,
        deferred,
        charge,
        pools: PoolsEnd {
            units,
            pool_deferred,
        },
    } = ends;
    let Closed {
        pool,
        places,
        maps,
        lookups,
    } = core;
    let ChargeEnd { tree, usage: _ } = charge;
    let Noted { parts, uses } = noted;
    let groups = paths_of(alloc, script.groups.as_slice())?;
    let caches = names_of(alloc, script.caches.as_slice())?;
    let pools = pool_names_of(alloc, script.pools.as_slice())?;
    let added = total_added(places.as_slice())?;
    let listed = total_listed(places.as_slice())?;
    Ok(Report {
        version: script.version,
        nodes: script.nodes,
        ids: script.ids,
        groups,
        caches,
        pools,
        pool,
        tree,
        workers: Log::from_vec(parts),
        places,
        maps,
        deferred,
        units,
        pool_deferred,
        uses: Log::from_vec(uses),
        lookups,
        added,
        freed: added.saturating_sub(listed),
        listed,
    })
}

/// The report of a run whose tables ended so, after these logs of its workers, in order. It is lawful for the script,
/// faithful to the order of its workers' commands, and well formed, whatever the order of the workers' steps; what was
/// added was freed or is listed; and each put that nothing is in the way of was added, but where there was no memory or a
/// counter was used up. `Memory` comes for want of memory.
pub fn assemble(alloc: Global, ends: Ends, logs: Vec<WorkerLog>) -> Result<Report, Memory>
    requires { AreEnds logs.items ends }
    ensures made { IfOk result (IsMadeOf ends.script logs.items ends) }
    ensures lawful { IfOk result (IsLawful ends.script) }
    ensures faithful { IfOk result (IsFaithful ends.script) }
    ensures sums { IfOk result (λ r. r.freed + r.listed ≡ r.added) }
    ensures puts { IfOk result (λ r. AreFreePutsAdded ends.script r) }
    ensures add_up { IfOk result (λ r. DoPutsAddUp ends.script r) }
    ensures well_formed { IfOk result IsWellFormed }
{
    let noted = note_all(alloc, logs)?;
    put_together(alloc, ends, noted)
}
