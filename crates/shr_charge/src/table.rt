// SPDX-License-Identifier: GPL-2.0-only
//! The table and its seats.

ghost use Rattle.std.specs.Prelude.{◌≡◌, ◌+◌, ◌*◌, ◌≤◌, length};
ghost use Rattle.shr_model.specs.Trees.{IsTree, IsHierarchy};
ghost use Rattle.shr_seats.specs.Shapes.{hierarchy_of};

use crate::law::Law;
use crate::view::View;
use atomic_table::{Seat, Table};
use shr_base::journals::TreeEntry;
use shr_base::log::Log;
use shr_seats::shape::Shape;
use std::alloc::Global;
use std::marker::Model;

/// What the table knows of a seat.
pub(crate) type Token = Seat<Log<TreeEntry>, View>;

/// A thread's seat at its table, which counts its calls.
#[derive(Drop)]
pub struct ChargeSeat<'a> {
    pub(crate) charge: &'a Charge,
    pub(crate) token: Token,
    // How often it was called to charge and to uncharge. The counts stand still at their last
    // value.
    pub(crate) charges: u32,
    pub(crate) uncharges: u32,
}

impl<'a> Model for ChargeSeat<'a> {
    ghost use Rattle.shr_charge.specs.Seat.{ChargeSeated, IsChargeSeat, seated_at};

    ghost Value = { ChargeSeated };

    ghost view = { λ s. seated_at s.charge.now s.token };

    ghost invariant = { λ s. IsChargeSeat s.charge.now s.token s.charges s.uncharges };
}

impl<'a> ChargeSeat<'a> {
    /// The table that the seat is of.
    pub fn table(&self) -> &'a Charge
        ensures { result.now ≡ self.now.charge }
    {
        self.charge
    }
}

/// The first seat while it is not at its table: before the threads begin, and at the end.
#[derive(Drop)]
pub struct FirstChargeSeat {
    pub(crate) token: Token,
    pub(crate) charges: u32,
    pub(crate) uncharges: u32,
}

/// The usage of each group, whether it is made and online, and the room with the journal of the
/// tree.
///
/// Linux: `struct page_counter` in include/linux/page_counter.h, and `CSS_ONLINE` of each group.
#[derive(Drop)]
pub struct Charge {
    pub(crate) table: Table<Log<TreeEntry>, View, Shape, Law, Global>,
    pub shape: Shape,
    pub(crate) alloc: Global,
    ghost wide: { table.shared.table_id.words ≡ 8 * length shape.parents.items + 1 },
    ghost one_room: { table.shared.table_id.slots ≡ 1 },
    ghost keyed: { table.shared.key ≡ shape },
    ghost tree: { IsTree shape.parents.items },
    ghost hierarchy: { IsHierarchy (hierarchy_of shape) },
    ghost few: { length shape.parents.items ≤ 256 },
    ghost limited: { length shape.limits.items ≡ length shape.parents.items },
}
