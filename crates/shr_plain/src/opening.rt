// SPDX-License-Identifier: GPL-2.0-only
//! The tables at the start.

ghost use Rattle.std.specs.Prelude.{◌≡◌, ◌<◌, ◌≤◌, [], map, length, replicate, All, IfOk};
ghost use Rattle.shr_seats.specs.Standing.{at_first};
ghost use Rattle.shr_seats.specs.Views.{Each};
ghost use Rattle.shr_plain.specs.Rule.{room_journal};
ghost use Rattle.shr_plain.specs.Seat.{IsFirstPlainOf, first_plain, first_plain_standing, no_state};
ghost use Rattle.shr_plain.specs.Settings.{IsSetting};
ghost use Rattle.shr_plain.specs.Opening.{setting_by, sizes_for as sizes_by};

use crate::settings::Setting;
use crate::slot::Slot;
use crate::steps::WORDS_A_ROOM;
use crate::table::{FirstPlainSeat, Pools};
use atomic_table::{Refused, Table};
use shr_base::log::Log;
use shr_base::memory::Memory;
use shr_base::scripts::PoolDecl;
use shr_deferred::Deferred;
use shr_seats::rows::Sizes;
use std::alloc::Global;

fn zeros(alloc: Global, count: usize) -> Result<Vec<u64>, Memory>
    ensures { IfOk result (λ v. v.items ≡ replicate count 0) }
{
    Ok(vec![in alloc; 0; count]?)
}

// So many rooms without an entry.
fn bare_rooms(alloc: Global, count: usize) -> Result<Vec<Slot>, Memory>
    ensures { IfOk result (λ v. (length v.items ≡ count)
        × Each (λ s. room_journal s ≡ []) v.items) }
{
    let mut rooms = Vec::new(alloc);
    for _room in 0..count {
        rooms.push(Slot {
            journal: Log::new(alloc),
            free: 0,
        })?;
    }
    Ok(rooms)
}

// The settings of the pools.
fn settings_of(alloc: Global, decls: &Log<PoolDecl>) -> Result<Log<Setting>, Memory>
    ensures { IfOk result (λ v. v.items ≡ map setting_by decls.now.items) }
{
    let mut settings = Log::new(alloc);
    let decls = decls.as_slice();
    for i in 0..decls.len() {
        let decl = &decls[i];
        settings.add(Setting {
            seeks: decl.seeks,
            batch: decl.batch,
            floor: decl.floor,
            flat: decl.flat,
        })?;
    }
    Ok(settings)
}

// The sizes of the tables, which are made for one pool where there is none.
fn sizes_for(pools: usize, nodes: u8) -> Sizes
    requires { pools ≤ 64 }
    ensures { result ≡ sizes_by pools nodes }
{
    Sizes {
        ids: if pools == 0 { 1 } else { pools as u16 },
        nodes,
        groups: 1,
    }
}

impl Pools {
    /// Rooms without an entry for these pools, deferred words beside them with nothing deferred, and
    /// the first seat. On `Memory` nothing is kept.
    ///
    /// Linux: `shrinker_alloc` in mm/shrinker.c, which makes `nr_deferred` of one word, or one a node
    /// for a `SHRINKER_NUMA_AWARE` shrinker. Here a flat pool has a word for each node, of which that
    /// of node 0 alone is used.
    pub fn new(
        alloc: Global,
        decls: &Log<PoolDecl>,
        nodes: u8,
    ) -> Result<(Pools, FirstPlainSeat), Memory>
        requires nodes { (0 < nodes) × (nodes ≤ 4) }
        requires few { length decls.now.items ≤ 64 }
        requires pools { All (λ d. IsSetting (setting_by d)) decls.now.items }
        ensures sizes { IfOk result (λ t. t.0.sizes ≡ sizes_by (length decls.now.items) nodes) }
        ensures settings { IfOk result (λ t. t.0.settings.items ≡ map setting_by decls.now.items) }
        ensures first { IfOk result (λ t. IsFirstPlainOf t.0 t.1) }
        ensures state { IfOk result (λ t. first_plain t.1 ≡ no_state) }
        ensures standing { IfOk result (λ t. first_plain_standing t.1 ≡ (at_first, at_first)) }
    {
        let settings = settings_of(alloc, decls)?;
        let sizes = sizes_for(decls.len(), nodes);
        let words = zeros(alloc, WORDS_A_ROOM * sizes.rows())?;
        let rooms = bare_rooms(alloc, sizes.rows())?;
        let (deferred, moving) = Deferred::new(alloc, sizes)?;
        match Table::new(alloc, &words, rooms, &sizes) {
            Ok((table, units)) => Ok((
                Pools {
                    table,
                    deferred,
                    settings,
                    sizes,
                    alloc,
                },
                FirstPlainSeat {
                    units,
                    deferred: moving,
                    walks: Log::new(alloc),
                },
            )),
            Err(Refused { slots: _ }) => Err(Memory),
        }
    }
}
