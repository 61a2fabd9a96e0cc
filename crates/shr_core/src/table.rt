// SPDX-License-Identifier: GPL-2.0-only
//! The table, and the rule that it is under.
ghost use Rattle.std.specs.Prelude.{◌≡◌, ◌<◌, ◌≤◌, length};
ghost use Rattle.shr_model.specs.Trees.{IsTree};
ghost use Rattle.shr_core.specs.Layout.{words_in, rooms_in};
ghost use Rattle.shr_seats.specs.Shapes.{sizes_of};
ghost use Rattle.shr_core.specs.Rule.{Sound, opener};

use crate::setting::Setting;
use crate::slot::Slot;
use crate::view::View;
use atomic_table::{Table, TableRule};
use std::alloc::Global;

/// The rule of the core table.
pub struct Law;

impl TableRule<Slot, View, Setting> for Law {
    ghost holds = { Sound };

    ghost first = { λ _. opener };
}

/// The words and rooms that the threads of a run share: for each place a count word, a lock word
/// and a room with its list; for each node, group and unit of 64 ids a bit word; for each id a
/// lookup word; and the room of the pool.
///
/// Linux: `struct shrinker_info` with its units in include/linux/shrinker.h, `struct list_lru` in
/// include/linux/list_lru.h, and `shrinker_idr` in mm/shrinker.c.
#[derive(Drop)]
pub struct Core {
    pub(crate) table: Table<Slot, View, Setting, Law, Global>,
    pub setting: Setting,
    pub alloc: Global,
    ghost sized: { (table.shared.table_id.words ≡ words_in (sizes_of setting.shape)) × (table.shared.table_id.slots ≡ rooms_in (sizes_of setting.shape)) × (table.shared.key ≡ setting) },
    ghost limits: { (0 < setting.shape.ids) × (setting.shape.ids ≤ 256) × (setting.shape.nodes ≤ 4) × (0 < length setting.shape.parents.items) × (length setting.shape.parents.items ≤ 256) },
    ghost nodes: { 0 < setting.shape.nodes },
    ghost tree: { IsTree setting.shape.parents.items },
}
