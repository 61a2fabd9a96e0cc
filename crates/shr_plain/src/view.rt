// SPDX-License-Identifier: GPL-2.0-only
//! What a seat of the pools knows.

ghost use Rattle.std.specs.Borrow.{ftrue};
ghost use Rattle.std.specs.Prelude.{List};
ghost use Rattle.shr_base.specs.declared.journals.PlainEntry.{PlainEntry};
ghost use Rattle.shr_seats.specs.RoomViews.{RoomView};
ghost use Rattle.shr_seats.specs.Standing.{Standing};

use std::marker::Model;

/// What a seat did and saw in each room, and its place among the seats. No value of it is made.
pub struct View {
    pub ghost rooms: { List (RoomView PlainEntry) },
    pub ghost standing: { Standing },
}

impl Model for View {
    ghost also_owns = { λ _. ftrue };
}
