// SPDX-License-Identifier: GPL-2.0-only
//! The rule of the table, which each of its steps keeps.

ghost use Rattle.shr_deferred.specs.Rule.{IsDeferredSound, first_view, new_view, spent_view, with_split_view, joined_view};

use crate::view::View;
use atomic_table::{Join, Split, TableRule};
use shr_seats::rows::Sizes;

/// Each word is its gives less its takes, and the seats are in order.
pub struct Law;

impl TableRule<(), View, Sizes> for Law {
    ghost holds = { IsDeferredSound };

    ghost first = { λ _. first_view };
}

/// How the first seat is split, and how another is joined into it.
pub struct Seating;

impl Split<View> for Seating {
    ghost left = { with_split_view };

    ghost right = { λ _. new_view };
}

impl Join<View> for Seating {
    ghost both = { joined_view };

    ghost spent = { spent_view };
}
