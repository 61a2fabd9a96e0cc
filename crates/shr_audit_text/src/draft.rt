// SPDX-License-Identifier: GPL-2.0-only
//! A report as far as it was read.

ghost use Rattle.std.specs.Prelude.{◌≡◌, IfOk};
ghost use Rattle.shr_audit_text.specs.Draft.{drafted_report, with_said};
ghost use Rattle.shr_audit_text.specs.Reading.{nothing_read};

use crate::lists::{
    ListDraft, UnitsDraft, take_entry, take_item, take_place, take_unit, take_units,
};
use crate::parts::{
    PartDraft, take_attempt, take_carry, take_found, take_isolation, take_pass, take_plain,
    take_reply, take_seen, take_walk,
};
use crate::said::Said;
use shr_base::ends::{MapEnd, PlaceAmount};
use shr_base::journals::{PoolEntry, TreeEntry, UseStep};
use shr_base::memory::Memory;
use shr_base::text::Text;
use std::alloc::Global;

/// A report as far as its lines were read, whatever they were and in whatever order.
#[derive(Drop)]
pub struct Draft {
    alloc: Global,
    pub version: u8,
    pub nodes: u8,
    pub ids: u16,
    pub groups: Vec<Text>,
    pub caches: Vec<Text>,
    pub pools: Vec<Text>,
    pub pool: Vec<PoolEntry>,
    pub tree: Vec<TreeEntry>,
    pub parts: Vec<PartDraft>,
    pub lists: Vec<ListDraft>,
    pub units: Vec<UnitsDraft>,
    pub maps: Vec<MapEnd>,
    pub deferred: Vec<PlaceAmount>,
    pub pool_deferred: Vec<PlaceAmount>,
    pub uses: Vec<UseStep>,
    pub lookups: Vec<u32>,
    pub added: u64,
    pub freed: u64,
    pub listed: u64,
}

impl Draft {
    /// A report of which nothing was read. It takes no memory.
    pub fn new(alloc: Global) -> Draft
        ensures { drafted_report result ≡ nothing_read }
    {
        Draft {
            alloc,
            version: 0,
            nodes: 0,
            ids: 0,
            groups: Vec::new(alloc),
            caches: Vec::new(alloc),
            pools: Vec::new(alloc),
            pool: Vec::new(alloc),
            tree: Vec::new(alloc),
            parts: Vec::new(alloc),
            lists: Vec::new(alloc),
            units: Vec::new(alloc),
            maps: Vec::new(alloc),
            deferred: Vec::new(alloc),
            pool_deferred: Vec::new(alloc),
            uses: Vec::new(alloc),
            lookups: Vec::new(alloc),
            added: 0,
            freed: 0,
            listed: 0,
        }
    }

    /// Another line. Want of memory alone is an error, after which the draft says nothing.
    pub fn take(&mut self, said: Said) -> Result<(), Memory>
        ensures { IfOk result (λ _. drafted_report self.new
            ≡ with_said said (drafted_report self.old)) }
    {
        match said {
            Said::Version { version } => self.version = version,
            Said::Sizes { nodes, ids } => {
                self.nodes = nodes;
                self.ids = ids;
            }
            Said::Group { path } => self.groups.push(path)?,
            Said::Cache { name } => self.caches.push(name)?,
            Said::PoolName { name } => self.pools.push(name)?,
            Said::Pool { entry } => self.pool.push(entry)?,
            Said::Tree { entry } => self.tree.push(entry)?,
            Said::Reply { worker, reply } => take_reply(
                self.alloc,
                &mut self.parts,
                worker,
                reply,
            )?,
            Said::Found { found } => take_found(&mut self.parts, found)?,
            Said::Isolation { head } => take_isolation(&mut self.parts, head)?,
            Said::Walk { head } => take_walk(self.alloc, &mut self.parts, head)?,
            Said::Map { map } => take_seen(&mut self.parts, map)?,
            Said::Try { attempt } => take_attempt(&mut self.parts, attempt)?,
            Said::Carry { amount } => take_carry(&mut self.parts, amount)?,
            Said::Plain { head } => take_plain(self.alloc, &mut self.parts, head)?,
            Said::Pass { came } => take_pass(&mut self.parts, came)?,
            Said::List { place } => take_place(self.alloc, &mut self.lists, place)?,
            Said::Entry { entry } => take_entry(&mut self.lists, entry)?,
            Said::Item { item } => take_item(&mut self.lists, item)?,
            Said::Units { head } => take_units(self.alloc, &mut self.units, head)?,
            Said::Unit { entry } => take_unit(&mut self.units, entry)?,
            Said::Bit { map } => self.maps.push(map)?,
            Said::Deferred { amount } => self.deferred.push(amount)?,
            Said::PoolDeferred { amount } => self.pool_deferred.push(amount)?,
            Said::Use { step } => self.uses.push(step)?,
            Said::Lookups { lookups } => self.lookups.push(lookups)?,
            Said::Totals {
                added,
                freed,
                listed,
            } => {
                self.added = added;
                self.freed = freed;
                self.listed = listed;
            }
            Said::End => {}
        }
        Ok(())
    }
}
