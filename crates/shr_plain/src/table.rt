// SPDX-License-Identifier: GPL-2.0-only
//! The table and its seats.

ghost use Rattle.std.specs.Prelude.{◌≡◌, ◌<◌, ◌≤◌, ◌*◌, length, All};
ghost use Rattle.shr_seats.specs.Rows.{row_count, IsPlaceOf};
ghost use Rattle.shr_plain.specs.Settings.{IsSetting, IsPoolOf, home_place};

use crate::law::Law;
use crate::settings::Setting;
use crate::slot::Slot;
use crate::view::View;
use atomic_table::{Seat, Table};
use shr_base::log::Log;
use shr_base::places::Place;
use shr_base::walks::PlainWalk;
use shr_deferred::{Deferred, DeferredSeat, FirstDeferredSeat};
use shr_seats::rows::Sizes;
use std::alloc::Global;
use std::marker::Model;

/// A thread's seat at the table of rooms.
pub type UnitSeat = Seat<Slot, View>;

/// A room for each pool and node with its journal of units, and beside them the deferred words.
///
/// Our own. In Linux each shrinker keeps its objects as it likes.
#[derive(Drop)]
pub struct Pools {
    pub(crate) table: Table<Slot, View, Sizes, Law, Global>,
    pub(crate) deferred: Deferred,
    pub settings: Log<Setting>,
    pub sizes: Sizes,
    pub(crate) alloc: Global,
    ghost wide: { table.shared.table_id.words ≡ 8 * row_count sizes },
    ghost slots: { table.shared.table_id.slots ≡ row_count sizes },
    ghost keyed: { table.shared.key ≡ sizes },
    ghost deferrals: { deferred.sizes ≡ sizes },
    ghost set: { All IsSetting settings.items },
    ghost pools: { length settings.items ≤ sizes.ids },
    ghost ids: { (0 < sizes.ids) × (sizes.ids ≤ 64) },
    ghost nodes: { (0 < sizes.nodes) × (sizes.nodes ≤ 4) },
    ghost groups: { sizes.groups ≡ 1 },
}

/// A thread's seats at both tables of these pools, and its walks of the pools.
#[derive(Drop)]
pub struct PlainSeat<'a> {
    pub(crate) pools: &'a Pools,
    pub(crate) units: UnitSeat,
    pub(crate) deferred: DeferredSeat<'a>,
    pub(crate) walks: Log<PlainWalk>,
}

impl<'a> Model for PlainSeat<'a> {
    ghost use Rattle.shr_plain.specs.Seat.{PlainSeated, IsPlainSeat, plain_seated};

    ghost Value = { PlainSeated };

    ghost view = { λ s. plain_seated s.pools.now s.units s.deferred s.walks };

    ghost invariant = { λ s. IsPlainSeat s.pools.now s.units s.deferred };
}

/// The first seats while no thread sits at the tables: before the first does, and after the last.
#[derive(Drop)]
pub struct FirstPlainSeat {
    pub(crate) units: UnitSeat,
    pub(crate) deferred: FirstDeferredSeat,
    pub(crate) walks: Log<PlainWalk>,
}

impl Pools {
    /// The place where the units of a pool are for a node: at node 0 for one that is flat.
    pub fn place(&self, pool: u8, node: u8) -> Place
        requires { IsPoolOf self.now.settings.items self.now.sizes pool node }
        ensures place { result ≡ home_place self.now.settings.items pool node }
        ensures there { IsPlaceOf self.now.sizes result }
    {
        let setting = self.settings.as_slice()[pool as usize];
        Place {
            id: pool as u16,
            node: if setting.flat { 0 } else { node },
            group: 0,
        }
    }
}
