// SPDX-License-Identifier: GPL-2.0-only
//! Unregistering a cache.

ghost use Rattle.std.specs.Prelude.{◌≡◌, ◌<◌};
ghost use Rattle.shr_core.specs.Parts.{no_rooms};
ghost use Rattle.shr_core.specs.Seats.{view_of, shape_of};
ghost use Rattle.shr_registry.specs.Adding.{IsFree};
ghost use Rattle.shr_registry.specs.Ending.{UnregisterGives};

use crate::answers::UnregisterAnswer;
use crate::draining::{empty, settle};
use crate::retiring::{Retired, make_idle, retire};
use shr_base::log::Log;
use shr_base::places::Serial;
use shr_core::seat::Seat;
use std::sync::Wait;

/// Unregisters a cache by its declaration: makes its id dying, waits until a load shows that no
/// seat holds the id, empties the id's lists node after node, and makes the id idle. A list without
/// objects gets no entry, and its room isn't taken if its count word shows none. The seat holds
/// nothing, owns nothing and has no room in hand, before and afterwards.
///
/// `NoCache` is decided first. Then the room for the two entries of the pool's journal is made,
/// and `Memory` may come. Only then does the id's phase change. If a drain meets a full list or
/// finds no memory the answer is `Half`, and the id stays dying for good.
///
/// Linux: `shrinker_free` in mm/shrinker.c, which waits for `shrinker->done` and leaves the objects
/// to the cache's owner.
pub fn unregister<R: Wait>(rt: &R, seat: &mut Seat<'_>, decl: u8, by: Serial) -> UnregisterAnswer
    requires rooms { (view_of seat.old).holding ≡ no_rooms }
    requires free { IsFree (view_of seat.old) }
    requires decl { decl < (shape_of seat.old.core).decls }
    ensures table { seat.new.core ≡ seat.old.core }
    ensures rooms { (view_of seat.new).holding ≡ no_rooms }
    ensures answer { UnregisterGives (shape_of seat.old.core) (view_of seat.old) decl by result
        (view_of seat.new) }
{
    match retire(rt, seat, decl) {
        Retired::NoCache { entry } => UnregisterAnswer::NoCache { entry },
        Retired::Memory => UnregisterAnswer::Memory,
        Retired::Dying {
            id,
            entry,
            from,
            to,
        } => {
            settle(rt, seat, id);
            let mut objects = Log::new(seat.core().alloc);
            if let Some(why) = empty(rt, seat, id, by, &mut objects) {
                seat.give_up(id);
                return UnregisterAnswer::Half {
                    id,
                    entry,
                    from,
                    to,
                    objects,
                    why,
                };
            }
            make_idle(rt, seat, id);
            UnregisterAnswer::Freed {
                id,
                entry,
                from,
                to,
                objects,
            }
        }
    }
}
