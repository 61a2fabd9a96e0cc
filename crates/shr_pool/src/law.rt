// SPDX-License-Identifier: GPL-2.0-only
//! The rule of the queue, which each push, pop, split and join keeps.

ghost use Rattle.std.specs.Prelude.{◌≡◌};
ghost use Rattle.shr_pool.specs.Rule.{IsQueued, first_pass_view, new_pass_view, spent_pass_view, with_push, split_pass_view, joined_pass_view};
ghost use Rattle.shr_pool.specs.Known.{IsPopped, IsFaced, IsQueueShown};

use crate::items::SweepItem;
use crate::view::PassView;
use crossbeam_queue::protocol::{Join, Lesson, Outcome, Protocol, Split};

/// The rule: what was pushed is popped once, in order, and each pass knows what it is to know.
pub struct Law;

impl Protocol<SweepItem, PassView> for Law {
    ghost holds = { IsQueued };

    ghost first = { first_pass_view };
}

/// A push, which says that there was room.
pub struct Pushed;

impl Outcome<SweepItem, PassView> for Pushed {
    ghost then = { λ v x w. w ≡ with_push v x };
}

impl Lesson<SweepItem, PassView> for Pushed {
    ghost fact = { λ v items. items ≡ v.pushed };
}

/// A pop: the item now stands behind those that the pass popped, of none of which there are more than
/// were pushed. A helper that has not met its mark finds something.
pub struct Popped;

impl Outcome<SweepItem, PassView> for Popped {
    ghost then = { IsPopped };
}

impl Lesson<SweepItem, PassView> for Popped {
    ghost fact = { IsFaced };
}

/// What the first pass knows of all.
pub struct Shown;

impl Lesson<SweepItem, PassView> for Shown {
    ghost fact = { IsQueueShown };
}

/// How the first pass is split, and how another is joined into it.
pub struct Seating;

impl Split<PassView> for Seating {
    ghost left = { split_pass_view };

    ghost right = { new_pass_view };
}

impl Join<PassView> for Seating {
    ghost both = { joined_pass_view };

    ghost spent = { spent_pass_view };
}
