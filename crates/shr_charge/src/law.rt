// SPDX-License-Identifier: GPL-2.0-only
//! The rule of the table, which each of its steps keeps.

ghost use Rattle.shr_charge.specs.Rule.{IsChargeSound, first_charge_view, new_charge_view, spent_charge_view, split_charge_view, joined_charge_view};

use crate::view::View;
use atomic_table::{Join, Split, TableRule};
use shr_base::journals::TreeEntry;
use shr_base::log::Log;
use shr_seats::shape::Shape;

/// The usage words count the operations, the journal of the tree is legal, and the seats are in
/// order.
pub struct Law;

impl TableRule<Log<TreeEntry>, View, Shape> for Law {
    ghost holds = { IsChargeSound };

    ghost first = { λ _. first_charge_view };
}

/// How the first seat is split, and how another is joined into it.
pub struct Seating;

impl Split<View> for Seating {
    ghost left = { split_charge_view };

    ghost right = { λ _. new_charge_view };
}

impl Join<View> for Seating {
    ghost both = { joined_charge_view };

    ghost spent = { spent_charge_view };
}
