// SPDX-License-Identifier: GPL-2.0-only
//! The rule of the table, which each of its steps keeps.

ghost use Rattle.shr_plain.specs.Rule.{IsPools, first_units_view, new_units_view, spent_units_view, split_units_view, joined_units_view};

use crate::slot::Slot;
use crate::view::View;
use atomic_table::{Join, Split, TableRule};
use shr_seats::rows::Sizes;

/// Each room keeps its rule, and the seats are in order.
pub struct Law;

impl TableRule<Slot, View, Sizes> for Law {
    ghost holds = { IsPools };

    ghost first = { λ _. first_units_view };
}

/// How the first seat is split, and how another is joined into it.
pub struct Seating;

impl Split<View> for Seating {
    ghost left = { split_units_view };

    ghost right = { λ _. new_units_view };
}

impl Join<View> for Seating {
    ghost both = { joined_units_view };

    ghost spent = { spent_units_view };
}
