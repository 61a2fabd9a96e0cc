// SPDX-License-Identifier: GPL-2.0-only
//! The report that a draft says.

ghost use Rattle.std.specs.Prelude.{◌≡◌, IfOk, map};
ghost use Rattle.shr_audit_text.specs.Draft.{drafted_report, drafted_walk, plains_of, drafted_parts, lists_of, pools_of, drafted_part, list_of};

use crate::draft::Draft;
use crate::items::items_of;
use crate::lists::{ListDraft, UnitsDraft};
use crate::parts::{PartDraft, PlainDraft, WalkDraft};
use shr_base::ends::{PlaceEnd, UnitsEnd, WorkerPart};
use shr_base::found::Found;
use shr_base::log::Log;
use shr_base::memory::Memory;
use shr_base::walks::{PlainWalk, WalkAsked, WalkRecord};
use shr_laws::report::Report;
use std::alloc::Global;

// A walk.
fn finish_walk(alloc: Global, walk: WalkDraft) -> Result<WalkRecord, Memory>
    ensures { IfOk result (λ made. made ≡ drafted_walk walk) }
{
    let asked = WalkAsked {
        by: walk.by,
        group: walk.head.group,
        node: walk.head.node,
        priority: walk.head.priority,
        nofs: walk.head.nofs,
    };
    let maps = Log::from_vec(walk.maps);
    let found = Found::of(alloc, maps, Log::from_vec(walk.attempts))?;
    Ok(WalkRecord::new(asked, found, walk.head.answer))
}

// The walks of a worker.
fn finish_walks(alloc: Global, drafts: Vec<WalkDraft>) -> Result<Vec<WalkRecord>, Memory>
    ensures { IfOk result (λ walks. walks.items ≡ map drafted_walk drafts.items) }
{
    let mut walks = Vec::new(alloc);
    for draft in drafts {
        walks.push(finish_walk(alloc, draft)?)?;
    }
    Ok(walks)
}

// The walks of the pools of a worker.
fn finish_plain(alloc: Global, drafts: Vec<PlainDraft>) -> Result<Vec<PlainWalk>, Memory>
    ensures { IfOk result (λ walks. walks.items ≡ plains_of drafts.items) }
{
    let mut walks = Vec::new(alloc);
    for draft in drafts {
        walks.push(PlainWalk {
            by: draft.by,
            node: draft.head.node,
            priority: draft.head.priority,
            tries: Log::from_vec(draft.tries),
            answer: draft.head.answer,
        })?;
    }
    Ok(walks)
}

// The part of a worker.
fn finish_part(alloc: Global, part: PartDraft) -> Result<WorkerPart, Memory>
    ensures { IfOk result (λ done. done ≡ drafted_part part) }
{
    Ok(WorkerPart {
        answers: Log::from_vec(part.answers),
        walks: Log::from_vec(finish_walks(alloc, part.walks)?),
        carries: Log::from_vec(part.carries),
        plain: Log::from_vec(finish_plain(alloc, part.plain)?),
        isolations: Log::from_vec(part.isolations),
    })
}

// The parts of the workers.
fn finish_parts(alloc: Global, drafts: Vec<PartDraft>) -> Result<Vec<WorkerPart>, Memory>
    ensures { IfOk result (λ parts. parts.items ≡ drafted_parts drafts.items) }
{
    let mut parts = Vec::new(alloc);
    for draft in drafts {
        parts.push(finish_part(alloc, draft)?)?;
    }
    Ok(parts)
}

// A list.
fn finish_list(alloc: Global, list: ListDraft) -> Result<PlaceEnd, Memory>
    ensures { IfOk result (λ end. end ≡ list_of list) }
{
    Ok(PlaceEnd {
        place: list.place,
        entries: Log::from_vec(list.entries),
        items: items_of(alloc, list.items)?,
    })
}

// The lists.
fn finish_lists(alloc: Global, drafts: Vec<ListDraft>) -> Result<Vec<PlaceEnd>, Memory>
    ensures { IfOk result (λ ends. ends.items ≡ lists_of drafts.items) }
{
    let mut ends = Vec::new(alloc);
    for draft in drafts {
        ends.push(finish_list(alloc, draft)?)?;
    }
    Ok(ends)
}

// The pools.
fn finish_units(alloc: Global, drafts: Vec<UnitsDraft>) -> Result<Vec<UnitsEnd>, Memory>
    ensures { IfOk result (λ ends. ends.items ≡ pools_of drafts.items) }
{
    let mut ends = Vec::new(alloc);
    for draft in drafts {
        ends.push(UnitsEnd {
            pool: draft.head.pool,
            node: draft.head.node,
            entries: Log::from_vec(draft.entries),
            free: draft.head.free,
        })?;
    }
    Ok(ends)
}

/// The report that a draft says. Want of memory alone is an error.
pub fn finish(alloc: Global, draft: Draft) -> Result<Report, Memory>
    ensures { IfOk result (λ report. report ≡ drafted_report draft) }
{
    Ok(Report {
        version: draft.version,
        nodes: draft.nodes,
        ids: draft.ids,
        groups: Log::from_vec(draft.groups),
        caches: Log::from_vec(draft.caches),
        pools: Log::from_vec(draft.pools),
        pool: Log::from_vec(draft.pool),
        tree: Log::from_vec(draft.tree),
        workers: Log::from_vec(finish_parts(alloc, draft.parts)?),
        places: Log::from_vec(finish_lists(alloc, draft.lists)?),
        units: Log::from_vec(finish_units(alloc, draft.units)?),
        maps: Log::from_vec(draft.maps),
        deferred: Log::from_vec(draft.deferred),
        pool_deferred: Log::from_vec(draft.pool_deferred),
        uses: Log::from_vec(draft.uses),
        lookups: Log::from_vec(draft.lookups),
        added: draft.added,
        freed: draft.freed,
        listed: draft.listed,
    })
}
