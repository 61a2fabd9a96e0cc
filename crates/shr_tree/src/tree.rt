// SPDX-License-Identifier: GPL-2.0-only
//! The tree of groups.

ghost use Rattle.std.specs.Prelude.{◌≡◌, ◌<◌, ◌≤◌, ◌++◌, true, false, Some, None, slice_get, length, unwrap_or, IfOk, IfSome, OnErr, OnOk};
ghost use Rattle.shr_model.specs.Trees.{IsTree, IsHierarchy, depth_of};
ghost use Rattle.shr_model.specs.Groups.{is_later, parent_of, preorder_of};
ghost use Rattle.shr_model.specs.Paths.{parent_path};
ghost use Rattle.shr_words.specs.Classes.{place_of};
ghost use Rattle.shr_tree.specs.Tree.{root_alone, hierarchy_in, with_group, may_hold, is_parent, refusal_of, Refuses, IsSubtree};

use crate::children::Children;
use crate::errors::TreeError;
use crate::names::PathNames;
use shr_base::log::Log;
use shr_base::memory::Memory;
use shr_base::text::Text;
use shr_words::paths::{is_path, parent_path};
use std::alloc::Global;
use std::marker::Model;

/// The most groups that there may be, the root counted.
pub const MAX_GROUPS: usize = 256;

#[derive(Clone, Copy)]
struct Group {
    parent: u16,
    limit: Option<u32>,
    later: bool,
}

/// The groups in the order of their numbers, which contracts see as their paths, parents and
/// limits.
///
/// Linux: the hierarchy of `struct mem_cgroup`. The names are our own; there they are the cgroup
/// file system's.
#[derive(Drop)]
pub struct Tree {
    alloc: Global,
    paths: PathNames,
    groups: Log<Group>,
    children: Children,
}

impl Model for Tree {
    ghost use Rattle.shr_tree.specs.Tree.{Groups, groups_seen, IsTreeWhole};

    ghost Value = { Groups };

    ghost view = { λ t. groups_seen t.paths t.groups.items };

    ghost invariant = { λ t. IsTreeWhole t.paths t.groups.items t.children.lists };
}

impl Tree {
    /// A tree of the root only. Linux: `root_mem_cgroup` in mm/memcontrol.c.
    #[tactic(auto, unfolding(shr_words::specs::Classes::place_of))]
    pub fn new(alloc: Global) -> Result<Tree, Memory>
        ensures { IfOk result (λ t. t ≡ root_alone) }
    {
        let mut paths = PathNames::new(alloc);
        paths.declare(alloc, b"/")?;
        let mut groups = Log::new(alloc);
        groups.add(Group {
            parent: 0,
            limit: None,
            later: false,
        })?;
        Ok(Tree {
            alloc,
            paths,
            groups,
            children: Children::of_root(alloc)?,
        })
    }

    // Whether a group may be the parent of one that is later or not.
    fn is_parent(&self, group: Option<usize>, late: bool) -> bool
        requires { IfSome group (λ g. g < length self.now.parents) }
        ensures { result ≡ is_parent self.now.later late group }
    {
        match group {
            Some(group) => late || !self.groups.as_slice()[group].later,
            None => false,
        }
    }

    // The parent of a path that may be added, or the first reason why it may not.
    #[tactic(auto, unfolding(crate::specs::Tree::refusal_of))]
    fn parent_for(&self, path: &[u8], late: bool) -> Result<u16, TreeError>
        ensures refused { Refuses result (refusal_of self.now late path.now) }
        ensures holds { IfOk result (λ p. may_hold self.now.later late p ≡ true) }
        ensures parent { IfOk result (λ p. p ≡ unwrap_or (place_of (parent_path path.now)
            self.now.paths) 0) }
        ensures there { IfOk result (λ p. p < length self.now.parents) }
        ensures absent { OnOk result (place_of path.now self.now.paths ≡ None) }
        ensures few { OnOk result (length self.now.paths < 256) }
    {
        if !is_path(path) {
            return Err(TreeError::BadPath);
        }
        let parent = self.paths.place(parent_path(path));
        if path != b"/".as_slice() && !self.is_parent(parent, late) {
            return Err(TreeError::NoParent);
        }
        if self.paths.place(path).is_some() {
            return Err(TreeError::Exists);
        }
        if self.paths.len() >= MAX_GROUPS {
            return Err(TreeError::TooMany);
        }
        Ok(parent.unwrap_or(0) as u16)
    }

    // Adds a group below that of its parent path, later or not, and gives its number.
    fn put(&mut self, path: &Text, limit: Option<u32>, late: bool) -> Result<u16, TreeError>
        ensures refused { Refuses result (refusal_of self.old late path.now) }
        ensures number { IfOk result (λ g. g ≡ length self.old.parents) }
        ensures added { OnOk result (self.new ≡ with_group self.old path.now limit late) }
        ensures kept { OnErr result (self.new ≡ self.old) }
        ensures hierarchy { IsHierarchy (hierarchy_in self.new) }
    {
        let parent = self.parent_for(path.bytes(), late)?;
        let group = self.groups.len() as u16;
        self.groups.reserve(1)?;
        self.children.reserve(parent)?;
        self.paths.declare(self.alloc, path.bytes())?;
        self.groups.push(Group {
            parent,
            limit,
            later: late,
        });
        self.children.add(self.alloc, parent, group);
        Ok(group)
    }

    /// Adds a group below that of its parent path, and gives its number.
    ///
    /// The reasons against it are tested in the order of `TreeError`; a later group is no parent of
    /// it. Whatever the reason, the tree stays as it was.
    pub fn add(&mut self, path: &Text, limit: Option<u32>) -> Result<u16, TreeError>
        ensures refused { Refuses result (refusal_of self.old false path.now) }
        ensures number { IfOk result (λ g. g ≡ length self.old.parents) }
        ensures added { OnOk result (self.new ≡ with_group self.old path.now limit false) }
        ensures kept { OnErr result (self.new ≡ self.old) }
        ensures hierarchy { IsHierarchy (hierarchy_in self.new) }
    {
        self.put(path, limit, false)
    }

    /// Adds a group that isn't there at the start, and gives its number, as `add`. Its parent may be
    /// later too.
    pub fn add_later(&mut self, path: &Text, limit: Option<u32>) -> Result<u16, TreeError>
        ensures refused { Refuses result (refusal_of self.old true path.now) }
        ensures number { IfOk result (λ g. g ≡ length self.old.parents) }
        ensures added { OnOk result (self.new ≡ with_group self.old path.now limit true) }
        ensures kept { OnErr result (self.new ≡ self.old) }
        ensures hierarchy { IsHierarchy (hierarchy_in self.new) }
    {
        self.put(path, limit, true)
    }

    /// Whether a group isn't there at the start.
    pub fn later(&self, g: u16) -> bool
        requires { g < length self.now.parents }
        ensures { result ≡ is_later self.now.later g }
    {
        self.groups.as_slice()[g as usize].later
    }

    /// The same of each group in the order of their numbers. `Memory` comes for want of memory.
    pub fn laters(&self) -> Result<Log<bool>, Memory>
        ensures { IfOk result (λ l. l.items ≡ self.now.later) }
    {
        let mut later = Log::new(self.alloc);
        for group in self.groups.as_slice() {
            later.add(group.later)?;
        }
        Ok(later)
    }

    /// How many groups there are, the root counted.
    pub fn len(&self) -> u16
        ensures groups { result ≡ length self.now.parents }
        ensures few { result ≤ 256 }
        ensures tree { IsTree self.now.parents }
        ensures hierarchy { IsHierarchy (hierarchy_in self.now) }
        ensures limits { length self.now.limits ≡ length self.now.parents }
    {
        self.groups.len() as u16
    }

    /// The number of a path's group, by one look-up.
    pub fn find(&self, path: &Text) -> Option<u16>
        ensures { result ≡ place_of path.now self.now.paths }
    {
        match self.paths.place(path.bytes()) {
            Some(group) => Some(group as u16),
            None => None,
        }
    }

    /// The parent of a group, and 0 for the root.
    ///
    /// Linux: `parent_mem_cgroup` in include/linux/memcontrol.h, which gives NULL for the root.
    pub fn parent(&self, g: u16) -> u16
        requires { g < length self.now.parents }
        ensures { result ≡ parent_of self.now.parents g }
    {
        self.groups.as_slice()[g as usize].parent
    }

    /// The most objects that a group may be charged for; none is without end.
    ///
    /// Linux: `max` of `struct page_counter` in include/linux/page_counter.h, in pages.
    pub fn limit(&self, g: u16) -> Option<u32>
        requires { g < length self.now.parents }
        ensures { slice_get self.now.limits g ≡ Some result }
    {
        self.groups.as_slice()[g as usize].limit
    }

    /// The parent of each group in the order of their numbers. `Memory` comes for want of memory.
    ///
    /// Linux: as `parent`.
    pub fn parents(&self) -> Result<Log<u16>, Memory>
        ensures { IfOk result (λ l. l.items ≡ self.now.parents) }
    {
        let mut parents = Log::new(self.alloc);
        for group in self.groups.as_slice() {
            parents.add(group.parent)?;
        }
        Ok(parents)
    }

    /// The limit of each group in the order of their numbers. `Memory` comes for want of memory.
    ///
    /// Linux: as `limit`.
    pub fn limits(&self) -> Result<Log<Option<u32>>, Memory>
        ensures { IfOk result (λ l. l.items ≡ self.now.limits) }
    {
        let mut limits = Log::new(self.alloc);
        for group in self.groups.as_slice() {
            limits.add(group.limit)?;
        }
        Ok(limits)
    }

    /// The number of groups from a group to the root, both counted.
    ///
    /// Linux: `level` of `struct cgroup` in include/linux/cgroup-defs.h, which is 0 for the root.
    pub fn depth(&self, g: u16) -> u16
        requires { g < length self.now.parents }
        ensures { result ≡ depth_of self.now.parents g }
    {
        let mut depth = 1;
        let mut at = g;
        while at != 0 {
            at = self.groups.as_slice()[at as usize].parent;
            depth += 1;
        }
        depth
    }

    // Appends a group's subtree.
    fn visit(&self, g: u16, order: &mut Log<u16>) -> Result<(), Memory>
        requires { g < length self.now.parents }
        ensures { OnOk result (order.new.items ≡ order.old.items ++ preorder_of self.now.parents
            g) }
    {
        order.add(g)?;
        for child in self.children.of(g) {
            self.visit(*child, order)?;
        }
        Ok(())
    }

    /// A group's subtree: the group, and then the subtree of each child in rising order.
    ///
    /// Each group of the subtree is visited once, and no other.
    /// Linux: `mem_cgroup_iter` in mm/memcontrol.c.
    pub fn preorder(&self, g: u16) -> Result<Log<u16>, Memory>
        requires { g < length self.now.parents }
        ensures order { IfOk result (λ order. order.items ≡ preorder_of self.now.parents g) }
        ensures subtree { IfOk result (λ order. IsSubtree self.now.parents g order.items) }
    {
        let mut order = Log::new(self.alloc);
        self.visit(g, &mut order)?;
        Ok(order)
    }
}
