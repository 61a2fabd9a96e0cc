// SPDX-License-Identifier: GPL-2.0-only
//! What a pass of the queue knows.

ghost use Rattle.std.specs.Borrow.{ftrue};
ghost use Rattle.std.specs.Prelude.{List};
ghost use Rattle.shr_pool.specs.declared.items.SweepItem.{SweepItem};
ghost use Rattle.shr_seats.specs.Standing.{Standing};

use std::marker::Model;

/// What was pushed, what the pass popped, and its place among the passes. No value of it is made.
pub struct PassView {
    pub ghost pushed: { List SweepItem },
    pub ghost popped: { List SweepItem },
    pub ghost standing: { Standing },
}

impl Model for PassView {
    ghost also_owns = { λ _. ftrue };
}
