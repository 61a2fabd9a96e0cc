// SPDX-License-Identifier: GPL-2.0-only
//! Taking a group offline.

ghost use Rattle.std.specs.Prelude.{◌<◌, ◌≤◌, IsSome};
ghost use Rattle.shr_model.specs.TreeJournal.{begin_of};
ghost use Rattle.shr_seats.specs.Shapes.{groups_in};
ghost use Rattle.shr_core.specs.Seats.{shape_of};
ghost use Rattle.shr_walk.specs.Acting.{IsSame};
ghost use Rattle.shr_offline.specs.Splices.{count_of_places};
ghost use Rattle.shr_offline.specs.Offlined.{HandsOverAs, OfflineGives};

use crate::answers::OfflineAnswer;
use crate::carrying::carry_all;
use crate::splicing::splice_all;
use shr_charge::answers::{BeginAnswer, DoneAnswer};
use shr_node::answers::SpliceAnswer;
use shr_walk::worker::Worker;
use std::sync::Wait;

// Hands over the lists and the deferred work of a group that began to go offline, and ends it.
fn hand_over<R: Wait>(worker: &mut Worker<'_, R>, group: u16) -> OfflineAnswer
    requires group { (0 < group) × (group < groups_in (shape_of worker.old.shared.core)) }
    requires begun { IsSome (begin_of worker.old.state.tree.known group) }
    requires spare { count_of_places (shape_of worker.old.shared.core) ≤ worker.old.carry_room }
    ensures handed { HandsOverAs worker.old.shared worker.old.by group result worker.old.state
        worker.new.state }
    ensures same { IsSame worker.old worker.new }
{
    let moved = match splice_all(worker.rt, &mut worker.seats.cache.core, group) {
        SpliceAnswer::Spliced { moved } => moved,
        SpliceAnswer::Worn { spent } => return OfflineAnswer::Worn { spent },
        SpliceAnswer::Memory => return OfflineAnswer::Memory,
    };
    let seats = &mut worker.seats;
    let deferred = carry_all(
        worker.shared,
        &mut seats.deferred,
        &mut seats.carries,
        worker.by,
        group,
    );
    match seats.cache.charge.done_offline(worker.rt, group) {
        DoneAnswer::Done { entry } => OfflineAnswer::Done {
            entry,
            moved,
            deferred,
        },
        DoneAnswer::AlreadyDone { entry } => OfflineAnswer::AlreadyDone { entry },
    }
}

/// Takes a group offline: hands its lists of all ids on all nodes to its parent's, the objects
/// before the head, and then its deferred work, and ends it in the journal of the tree.
///
/// Root, AlreadyDone, NotMade and HasChildren come before anything is done. A group that began
/// before is resumed, by whichever worker comes. After Worn, and after Memory that came past the begin, the
/// group stays offline, the lists closed so far stay closed, no deferred work was moved by this
/// call, and a later call resumes. Memory comes first of all if there is no room to note what is
/// carried. It waits for rooms and for the journal's room.
///
/// Linux: `mem_cgroup_css_offline` in mm/memcontrol.c, with `memcg_reparent_list_lrus`
/// (mm/list_lru.c) and `reparent_shrinker_deferred` (mm/shrinker.c). The kernel clears `CSS_ONLINE`
/// afterwards, in `offline_css`; here the begin comes first.
pub fn offline<R: Wait>(worker: &mut Worker<'_, R>, group: u16) -> OfflineAnswer
    requires group { group < groups_in (shape_of worker.old.shared.core) }
    ensures offlined { OfflineGives worker.old.shared worker.old.by group result worker.old.state
        worker.new.state }
    ensures same { IsSame worker.old worker.new }
{
    let shape = worker.shared.core.shape();
    let places = shape.ids as usize * shape.nodes as usize;
    if worker.seats.carries.reserve(places).is_err() {
        return OfflineAnswer::Memory;
    }
    match worker.seats.cache.charge.begin_offline(worker.rt, group) {
        BeginAnswer::Root => OfflineAnswer::Root,
        BeginAnswer::AlreadyDone { entry } => OfflineAnswer::AlreadyDone { entry },
        BeginAnswer::NotMade { group } => OfflineAnswer::NotMade { group },
        BeginAnswer::HasChildren { child, entry } => OfflineAnswer::HasChildren { child, entry },
        BeginAnswer::Memory => OfflineAnswer::Memory,
        BeginAnswer::Resumed { entry: _ } => hand_over(worker, group),
        BeginAnswer::Begun { entry: _ } => hand_over(worker, group),
    }
}
