// SPDX-License-Identifier: GPL-2.0-only
//! A worker as one value.

ghost use Rattle.std.specs.Prelude.{◌≡◌, ◌<◌, ◌≤◌, ◌*◌, ◌^◌, IfOk, OnOk, length};
ghost use Rattle.shr_base.specs.KeptLists.{kept};
ghost use Rattle.shr_charge.specs.Steps.{with_load};
ghost use Rattle.shr_charge.specs.Told.{Shows};
ghost use Rattle.shr_charge.specs.Seat.{spent_by};
ghost use Rattle.shr_core.specs.Layout.{map_number};
ghost use Rattle.shr_core.specs.Seats.{shape_of};
ghost use Rattle.shr_core.specs.Steps.{IsOfIds, with_map};
ghost use Rattle.shr_model.specs.Groups.{preorder_of};
ghost use Rattle.shr_seats.specs.Shapes.{groups_in, hierarchy_of};
ghost use Rattle.shr_walk.specs.Acting.{IsSame, IsStill, walk_of};
ghost use Rattle.shr_walk.specs.Sharing.{IsShared};
ghost use Rattle.shr_walk.specs.State.{Does};
ghost use Rattle.shr_walk.specs.Walked.{record_of, walk_work};

use crate::seats::{Seats, Shared};
use crate::walking::Walk;
use shr_base::found::Found;
use shr_base::log::Log;
use shr_base::memory::Memory;
use shr_base::places::Serial;
use shr_base::replies::Spent;
use shr_base::walks::{WalkAnswer, WalkAsked, WalkRecord};
use shr_charge::answers::GroupState;
use std::alloc::Global;
use std::marker::Model;
use std::sync::Wait;

/// What one thread works with: what all share, its own seats at rest, the command that it runs, and
/// the handle to wait by.
#[derive(Drop)]
pub struct Worker<'a, R: Wait> {
    pub rt: &'a R,
    pub shared: &'a Shared,
    pub seats: Seats<'a>,
    pub by: Serial,
}

impl<'a, R: Wait> Model for Worker<'a, R> {
    ghost use Rattle.shr_walk.specs.Acting.{Acting, IsFit, acting_of};

    ghost Value = { Acting };

    ghost view = { λ w. acting_of w.shared.now w.seats w.by };

    ghost invariant = { λ w. IsFit w.shared.now w.seats };
}

impl<'a, R: Wait> Worker<'a, R> {
    // The allocator of the tables.
    pub(crate) fn alloc(&self) -> Global {
        self.shared.core.alloc
    }

    // How many ids there are.
    pub(crate) fn ids(&self) -> u16
        ensures { result ≡ (shape_of self.now.shared.core).ids }
    {
        self.shared.core.setting.shape.ids
    }

    /// A group and those below it, each behind its parent.
    ///
    /// Linux: `mem_cgroup_iter` in mm/memcontrol.c.
    pub fn preorder(&self, group: u16) -> Result<Log<u16>, Memory>
        requires { group < groups_in (shape_of self.now.shared.core) }
        ensures order { IfOk result (λ order. order.items ≡ preorder_of self.now.shared.tree.parents
            group) }
        ensures shared { IsShared self.now.shared }
    {
        self.shared.tree.preorder(group)
    }

    /// How many nodes there are.
    pub fn nodes(&self) -> u8
        ensures { result ≡ (shape_of self.now.shared.core).nodes }
    {
        self.shared.script.nodes
    }

    /// Whether the worker's charges or uncharges are used up, with their numbers.
    pub fn spent(&self) -> Option<Spent>
        ensures { result ≡ spent_by self.now.state.uses }
    {
        self.seats.cache.charge.spent()
    }

    // The next walk, with room for its record. So many walks that it would be 2^63 no machine has
    // memory for, and it is said so.
    pub(crate) fn next_walk(
        &mut self,
        group: u16,
        node: u8,
        priority: u8,
        nofs: bool,
    ) -> Result<Walk, Memory>
        ensures walk { IfOk result (λ w. w ≡ walk_of self.old group node priority nofs) }
        ensures small { OnOk result (length self.old.state.walks < 2 ^ 63) }
        ensures room { OnOk result (0 < self.new.room) }
        ensures rest { self.new ≡ record self.old { room = self.new.room } }
    {
        self.seats.walks.reserve(1)?;
        let number = self.seats.walks.len() as u64;
        if number >= 1 << 63 {
            return Err(Memory);
        }
        Ok(Walk {
            by: self.by,
            number,
            group,
            node,
            priority,
            nofs,
        })
    }

    /// Makes room to note so many operations more. On `Memory` nothing changes.
    pub fn reserve_uses(&mut self, more: usize) -> Result<(), Memory>
        ensures room { OnOk result (more ≤ self.new.use_room) }
        ensures rest { self.new ≡ record self.old { use_room = self.new.use_room } }
    {
        self.seats.cache.uses.reserve(more)
    }

    /// Makes room to note so many carries more. On `Memory` nothing changes.
    pub fn reserve_carries(&mut self, more: usize) -> Result<(), Memory>
        ensures room { OnOk result (more ≤ self.new.carry_room) }
        ensures rest { self.new ≡ record self.old { carry_room = self.new.carry_room } }
    {
        self.seats.carries.reserve(more)
    }

    // Loads the map of a unit of ids.
    pub(crate) fn map(&mut self, node: u8, group: u16, unit: u8) -> u64
        requires place { (node < (shape_of self.old.shared.core).nodes)
            × (group < groups_in (shape_of self.old.shared.core))
            × (64 * unit < (shape_of self.old.shared.core).ids) }
        requires below_root { 0 < group }
        ensures loaded { self.new ≡ record self.old {
          state = record self.old.state {
            core = with_map self.old.state.core (map_number node group unit) result;
          };
        } }
        ensures ids { IsOfIds (shape_of self.old.shared.core).ids unit result }
    {
        self.seats.cache.core.map(node, group, unit)
    }

    /// Loads the word of a group.
    ///
    /// Linux: `mem_cgroup_online` in include/linux/memcontrol.h.
    pub fn group_state(&mut self, group: u16) -> GroupState
        requires group { group < groups_in (shape_of self.old.shared.core) }
        ensures rest { self.new.state ≡ record self.old.state {
          tree = with_load self.old.state.tree group result;
        } }
        ensures shows { Shows (hierarchy_of (shape_of self.old.shared.core)) self.old.state.tree
            group result }
        ensures still { IsStill self.old self.new }
    {
        self.seats.cache.charge.state(group)
    }

    // Notes a walk, in the room that was made for it.
    pub(crate) fn note(&mut self, walk: &Walk, found: Found, answer: WalkAnswer)
        requires room { 0 < self.old.room }
        ensures noted { Does self.old.state self.new.state (walk_work
            (record_of walk.now (kept found.maps.items) (kept found.attempts.items) answer)) }
        ensures same { IsSame self.old self.new }
    {
        let asked = WalkAsked {
            by: walk.by,
            group: walk.group,
            node: walk.node,
            priority: walk.priority,
            nofs: walk.nofs,
        };
        self.seats.walks.push(WalkRecord::new(asked, found, answer));
    }
}
