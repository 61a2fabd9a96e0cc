// SPDX-License-Identifier: GPL-2.0-only
//! The children of each group.

ghost use Rattle.std.specs.Prelude.{◌≡◌, ◌<◌, ◌++◌, ◌∷◌, [], IfOk, OnOk, length, slice_index, slice_index_or, slice_set};

use shr_base::log::Log;
use shr_base::memory::Memory;
use std::alloc::Global;
use std::marker::Model;

/// The children of each group, in rising order. A group is added in room that was reserved.
///
/// Linux: `children` of `struct cgroup_subsys_state` in include/linux/cgroup-defs.h.
#[derive(Drop)]
pub struct Children {
    lists: Vec<Log<u16>>,
}

impl Model for Children {
    ghost use Rattle.std.specs.Prelude.{map, vec_len, vec_capacity, ◌-◌};
    ghost use Rattle.shr_tree.specs.Children.{ChildrenOfAll};

    ghost Value = { ChildrenOfAll };

    ghost view = { λ c. record { lists = map (λ l. l.items) c.lists.items; rooms = map (λ l. l.spare) c.lists.items; more = vec_capacity c.lists - vec_len c.lists } };
}

impl Children {
    /// Where only the root is there: it has no children.
    pub fn of_root(alloc: Global) -> Result<Children, Memory>
        ensures { IfOk result (λ c. c.lists ≡ [] ∷ []) }
    {
        let mut lists = Vec::new(alloc);
        lists.push(Log::new(alloc))?;
        Ok(Children { lists })
    }

    /// The children of a group.
    ///
    /// Linux: what `css_for_each_child` in include/linux/cgroup.h goes over.
    pub fn of(&self, group: u16) -> &[u16]
        requires { group < length self.now.lists }
        ensures { result.now ≡ slice_index_or self.now.lists group [] }
    {
        self.lists[group as usize].as_slice()
    }

    /// Makes room for one more group, below this parent.
    pub fn reserve(&mut self, parent: u16) -> Result<(), Memory>
        requires { parent < length self.old.lists }
        ensures lists { self.new.lists ≡ self.old.lists }
        ensures room { OnOk result (0 < slice_index self.new.rooms parent) }
        ensures more { OnOk result (0 < self.new.more) }
    {
        self.lists.reserve(1)?;
        self.lists[parent as usize].reserve(1)?;
        Ok(())
    }

    /// Adds a group below a parent, behind the others. Our own; the kernel links it in
    /// `css_create`, kernel/cgroup/cgroup.c.
    pub fn add(&mut self, alloc: Global, parent: u16, group: u16)
        requires there { parent < length self.old.lists }
        requires room { 0 < slice_index self.old.rooms parent }
        requires more { 0 < self.old.more }
        ensures { self.new.lists ≡ slice_set self.old.lists parent (slice_index_or self.old.lists
            parent [] ++ group ∷ []) ++ [] ∷ [] }
    {
        self.lists[parent as usize].push(group);
        self.lists.push(Log::new(alloc)).unwrap();
    }
}
