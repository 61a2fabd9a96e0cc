// SPDX-License-Identifier: GPL-2.0-only
//! The table, and the seats at it.

ghost use Rattle.std.specs.Prelude.{◌≡◌, ◌<◌};
ghost use Rattle.shr_seats.specs.Rows.{row_count};

use crate::law::Law;
use crate::view::View;
use atomic_table::Table;
use shr_seats::rows::Sizes;
use std::alloc::Global;
use std::marker::Model;

pub(crate) type Token = atomic_table::Seat<(), View>;

/// A word for each place, of a deferred amount in objects, which adds modulo 2^64.
///
/// Linux: `nr_deferred` of `struct shrinker_info_unit` in include/linux/shrinker.h.
#[derive(Drop)]
pub struct Deferred {
    pub(crate) table: Table<(), View, Sizes, Law, Global>,
    pub sizes: Sizes,
    ghost wide: { table.shared.table_id.words ≡ row_count sizes },
    ghost plain: { table.shared.table_id.slots ≡ 0 },
    ghost keyed: { table.shared.key ≡ sizes },
    ghost some: { (0 < sizes.ids) × (0 < sizes.nodes) × (0 < sizes.groups) },
}

/// A thread's seat at the table, and the table that it is at.
#[derive(Drop)]
pub struct DeferredSeat<'a> {
    pub(crate) deferred: &'a Deferred,
    pub(crate) token: Token,
}

impl<'a> Model for DeferredSeat<'a> {
    ghost use Rattle.shr_deferred.specs.Seat.{DeferredSeated, IsDeferredSeat};

    ghost Value = { DeferredSeated };

    ghost view = { λ s. record { deferred = s.deferred.now; id = s.token.id; view = s.token.me.0 } };

    ghost invariant = { λ s. IsDeferredSeat s.deferred.now s.token };
}

/// The first seat while no thread sits at the table: before the first does, and after the last.
#[derive(Drop)]
pub struct FirstDeferredSeat {
    pub(crate) token: Token,
}
