// SPDX-License-Identifier: GPL-2.0-only
//! Handing over a group's lists.

ghost use Rattle.std.specs.Prelude.{◌≡◌, ◌<◌, ◌≤◌, ◌*◌, None};
ghost use Rattle.shr_seats.specs.Shapes.{groups_in};
ghost use Rattle.shr_core.specs.Parts.{no_rooms};
ghost use Rattle.shr_core.specs.Seats.{view_of, shape_of};
ghost use Rattle.shr_offline.specs.Splices.{AllGives};

use shr_core::seat::Seat;
use shr_node::answers::SpliceAnswer;
use shr_node::splicing::{children_of, splice_below};
use std::sync::Wait;

/// Splices each id on each node, and adds up what the group's own lists gave.
///
/// Linux: `memcg_reparent_list_lrus` in mm/list_lru.c.
pub(crate) fn splice_all<R: Wait>(rt: &R, seat: &mut Seat<'_>, group: u16) -> SpliceAnswer
    requires rooms { (view_of seat.old).holding ≡ no_rooms }
    requires owner { (view_of seat.old).claims.owner ≡ None }
    requires group { (0 < group) × (group < groups_in (shape_of seat.old.core)) }
    requires most_items { (shape_of seat.old.core).most_items ≤ 20000 }
    ensures table { seat.new.core ≡ seat.old.core }
    ensures answer { AllGives (shape_of seat.old.core) group result (view_of seat.old)
        (view_of seat.new) }
{
    let core = seat.core();
    let shape = core.shape();
    let nodes = shape.nodes as u32;
    let places = shape.ids as u32 * nodes;
    let children = children_of(core, group);
    let mut moved = 0;
    for place in 0..places {
        let id = (place / nodes) as u16;
        let node = (place % nodes) as u8;
        match splice_below(rt, seat, id, node, group, &children) {
            SpliceAnswer::Spliced { moved: more } => moved += more,
            SpliceAnswer::Worn { spent } => return SpliceAnswer::Worn { spent },
            SpliceAnswer::Memory => return SpliceAnswer::Memory,
        }
    }
    SpliceAnswer::Spliced { moved }
}
