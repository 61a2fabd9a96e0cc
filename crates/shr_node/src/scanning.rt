// SPDX-License-Identifier: GPL-2.0-only
//! Scanning one list.

ghost use Rattle.std.specs.Prelude.{◌≡◌, Some};
ghost use Rattle.shr_core.specs.Parts.{no_rooms};
ghost use Rattle.shr_core.specs.Seats.{IsPlaceOfShape, view_of, shape_of};
ghost use Rattle.shr_node.specs.Answers.{ScanGives};

use crate::answers::NodeScan;
use crate::rooms::{before_call, give_back, list_spent};
use shr_base::objects::Policy;
use shr_base::places::Place;
use shr_core::seat::Seat;
use shr_list::answers::ListScan;
use std::sync::Wait;

/// What a walk asks of one list: a budget of `asked` visits, in which each object gets what the
/// policy says. `worker` and `walk` name the walk.
///
/// Linux: `struct shrink_control` in include/linux/shrinker.h, with its `nr_to_scan`.
#[derive(Clone, Copy, Debug, PartialEq, Eq)]
pub struct ScanRequest {
    pub worker: u16,
    pub walk: u64,
    pub policy: Policy,
    pub asked: u32,
}

/// Goes once from the head of a place's list with the request's budget of visits, and does with
/// each object what its policy says. The seat holds the id, and has no room in hand.
///
/// The list is that of the place only: if it was emptied into its parent's the answer is `Closed`.
/// On every answer but `Scanned` lists, counts and bits are as this seat found them.
///
/// Linux: `list_lru_walk_one` in mm/list_lru.c, which goes on over the parent's list.
pub fn scan<R: Wait>(rt: &R, seat: &mut Seat<'_>, place: Place, request: ScanRequest) -> NodeScan
    requires rooms { (view_of seat.old).holding ≡ no_rooms }
    requires holds { (view_of seat.old).claims.held ≡ Some place.id }
    requires place { IsPlaceOfShape (shape_of seat.old.core) place }
    ensures table { seat.new.core ≡ seat.old.core }
    ensures answer { ScanGives (shape_of seat.old.core) (view_of seat.old) place request.worker
        request.walk request.policy request.asked result (view_of seat.new) }
{
    let mut room = seat.take_room(rt, place);
    let before = before_call(&room.list);
    let answer = match room.list.scan(request.worker, request.walk, request.policy, request.asked) {
        ListScan::Scanned {
            entry: _,
            freed,
            visits,
            stopped,
        } => NodeScan::Scanned {
            freed,
            visits,
            stopped,
        },
        ListScan::Closed => NodeScan::Closed,
        ListScan::Worn { entries, items } => NodeScan::Worn {
            spent: list_spent(place, entries, items),
        },
        ListScan::Memory => NodeScan::Memory,
    };
    give_back(seat, room, before);
    answer
}
