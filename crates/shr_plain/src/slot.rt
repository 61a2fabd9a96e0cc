// SPDX-License-Identifier: GPL-2.0-only
//! What a room holds.

ghost use Rattle.std.specs.Prelude.{◌≡◌, ◌≤◌};
ghost use Rattle.shr_model.specs.Units.{free_of};

use shr_base::journals::PlainEntry;
use shr_base::log::Log;

/// The journal of a pool on a node, and how many units it leaves free.
#[derive(Drop)]
pub struct Slot {
    pub(crate) journal: Log<PlainEntry>,
    pub(crate) free: u32,
    ghost kept: { free ≡ free_of journal.items },
    ghost low: { free ≤ 20000 },
}
