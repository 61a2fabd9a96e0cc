// SPDX-License-Identifier: GPL-2.0-only
//! What a seat of the table knows.

ghost use Rattle.std.specs.Borrow.{ftrue};
ghost use Rattle.shr_charge.specs.Views.{Uses, TreeView};
ghost use Rattle.shr_seats.specs.Standing.{Standing};

use std::marker::Model;

/// What a seat did and saw, and its place among the seats. No value of it is made.
pub struct View {
    pub ghost uses: { Uses },
    pub ghost tree: { TreeView },
    pub ghost standing: { Standing },
}

impl Model for View {
    ghost also_owns = { λ _. ftrue };
}
