// SPDX-License-Identifier: GPL-2.0-only
//! What a seat of the deferred table knows.

ghost use Rattle.std.specs.Borrow.{ftrue};
ghost use Rattle.std.specs.Prelude.{List};
ghost use Rattle.shr_deferred.specs.Moves.{Move, Moves};
ghost use Rattle.shr_seats.specs.Lines.{Deed};
ghost use Rattle.shr_seats.specs.Standing.{Standing};

use std::marker::Model;

/// What a seat took and gave, with what the seats that were joined into it did, each by itself too in
/// the order of the joins, and its place among the seats. No value of it is made.
pub struct View {
    pub ghost did: { List (Deed Move) },
    pub ghost own: { Moves },
    pub ghost joined: { List Moves },
    pub ghost standing: { Standing },
}

impl Model for View {
    ghost also_owns = { λ _. ftrue };
}
