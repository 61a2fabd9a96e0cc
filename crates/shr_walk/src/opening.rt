// SPDX-License-Identifier: GPL-2.0-only
//! What the workers share, at the start.

ghost use Rattle.std.specs.Prelude.{◌≡◌, IfOk, OnOk};
ghost use Rattle.shr_tree.specs.Tree.{with_group, refusal_of, Refuses};
ghost use Rattle.shr_script.specs.Content.{Content, content_of, IsValid};
ghost use Rattle.shr_walk.specs.Sharing.{groups_of, IsDeepest, IsShapeOf, IsShared, IsFromStart, AreFirstOf, AreOpened, HaveLeft, MayLeave, seats_at};

use crate::seats::{CacheSeat, FirstSeats, Seats, Shared};
use shr_base::log::Log;
use shr_base::memory::Memory;
use shr_base::scripts::{GroupDecl, Script};
use shr_charge::Charge;
use shr_core::table::Core;
use shr_deferred::Deferred;
use shr_seats::shape::Shape;
use shr_tree::errors::TreeError;
use shr_tree::tree::Tree;
use std::alloc::Global;

/// The most objects that a list may hold.
pub const MOST_ITEMS: u32 = 20_000;

/// The most entries that a list's journal may have, its Closed not counted.
pub const MOST_ENTRIES: u32 = 2_147_483_648;

// Adds a group as it is declared, later or not.
fn add(tree: &mut Tree, group: &GroupDecl) -> Result<u16, TreeError>
    ensures refused { Refuses result (refusal_of tree.old group.now.later group.now.path) }
    ensures added { OnOk result (tree.new ≡ with_group tree.old group.now.path group.now.limit
        group.now.later) }
{
    if group.later {
        tree.add_later(&group.path, group.limit)
    } else {
        tree.add(&group.path, group.limit)
    }
}

// The tree of a valid script's groups, which is refused only for want of memory.
fn tree_of(alloc: Global, groups: &[GroupDecl]) -> Result<Tree, Memory>
    requires { (t : Content) × IsValid t × (groups.now ≡ t.groups) }
    ensures { IfOk result (λ t. t ≡ groups_of groups.now) }
{
    let mut tree = Tree::new(alloc)?;
    for group in groups {
        match add(&mut tree, group) {
            Ok(_) => {}
            Err(error) => match error {
                TreeError::Memory => return Err(Memory),
                _ => unreachable!(),
            },
        }
    }
    Ok(tree)
}

// The shape of a valid script, whose groups are those of this tree.
fn shape_of(script: &Script, tree: &Tree) -> Result<Shape, Memory>
    requires { IsValid (content_of script.now) }
    ensures { IfOk result (λ s. IsShapeOf script.now tree.now s) }
{
    Ok(Shape {
        parents: tree.parents()?,
        later: tree.laters()?,
        limits: tree.limits()?,
        nodes: script.nodes,
        ids: script.ids,
        decls: script.caches.len() as u8,
        most_items: MOST_ITEMS,
        most_entries: MOST_ENTRIES,
    })
}

// The depth of the deepest group.
fn deepest(tree: &Tree) -> u16
    ensures { IsDeepest tree.now.parents result }
{
    let mut most = 1;
    for group in 0..tree.len() {
        let depth = tree.depth(group);
        if most < depth {
            most = depth;
        }
    }
    most
}

impl Shared {
    /// The tables of a valid script and the first seats, which have done and seen nothing. No cache
    /// is registered yet. `Memory` comes for want of memory.
    pub fn open(alloc: Global, script: Script) -> Result<(Shared, FirstSeats), Memory>
        requires { IsValid (content_of script) }
        ensures shared { IfOk result (λ t. IsShared t.0) }
        ensures script { IfOk result (λ t. t.0.script ≡ script) }
        ensures from_start { IfOk result (λ t. IsFromStart t.0) }
        ensures opened { IfOk result (λ t. AreOpened t.0 t.1) }
    {
        let tree = tree_of(alloc, script.groups.as_slice())?;
        let shape = shape_of(&script, &tree)?;
        let (deferred, first_deferred) = Deferred::new(alloc, shape.sizes())?;
        let (charge, first_charge) = Charge::new(alloc, shape)?;
        let (core, first_core) = Core::new(alloc, shape_of(&script, &tree)?, 0)?;
        let deepest = deepest(&tree);
        let shared = Shared {
            core,
            deferred,
            charge,
            script,
            tree,
            deepest,
        };
        let first = FirstSeats {
            core: first_core,
            charge: first_charge,
            deferred: first_deferred,
        };
        Ok((shared, first))
    }
}

impl FirstSeats {
    /// The seats at their tables, with nothing noted.
    pub fn at<'a>(self, shared: &'a Shared) -> Seats<'a>
        requires first { AreFirstOf shared.now.core shared.now.charge shared.now.deferred self }
        ensures at { result ≡ seats_at shared.now self }
    {
        let FirstSeats {
            core,
            charge,
            deferred,
        } = self;
        let alloc = shared.core.alloc;
        Seats {
            cache: CacheSeat {
                core: core.at(&shared.core),
                charge: charge.at(&shared.charge),
                uses: Log::new(alloc),
            },
            deferred: deferred.at(&shared.deferred),
            walks: Log::new(alloc),
            carries: Log::new(alloc),
        }
    }
}

impl<'a> Seats<'a> {
    /// The first seats, to end the tables with. What was noted is dropped.
    pub fn leave(self) -> FirstSeats
        requires first { MayLeave self }
        ensures left { HaveLeft self.entry result }
    {
        let Seats {
            cache,
            deferred,
            walks: _,
            carries: _,
        } = self;
        let CacheSeat {
            core,
            charge,
            uses: _,
        } = cache;
        FirstSeats {
            core: core.leave(),
            charge: charge.leave(),
            deferred: deferred.leave(),
        }
    }
}
