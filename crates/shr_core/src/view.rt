// SPDX-License-Identifier: GPL-2.0-only
//! What a seat knows.
ghost use Rattle.std.specs.Borrow.{ftrue};
ghost use Rattle.std.specs.Prelude.{ℕ, List};
ghost use Rattle.shr_seats.specs.Lines.{Deed};
ghost use Rattle.shr_seats.specs.Standing.{Standing};
ghost use Rattle.shr_core.specs.Parts.{Holding, Traces, Marks, Claims, Turns, Event};

use std::marker::Model;

/// What a seat has in hand, has made and seen, owes, holds and owns; its number among the seats; and
/// all that it did, in order, with what the seats that were joined into it did. No value of it is
/// made at run time.
pub struct View {
    pub ghost holding: { Holding },
    pub ghost traces: { Traces },
    pub ghost marks: { Marks },
    pub ghost claims: { Claims },
    pub ghost turns: { Turns },
    pub ghost standing: { Standing },
    pub ghost seat: { ℕ },
    pub ghost did: { List (Deed Event) },
}

impl Model for View {
    ghost also_owns = { λ _. ftrue };
}
