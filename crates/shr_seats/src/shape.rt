// SPDX-License-Identifier: GPL-2.0-only
//! What the tables of a run are made in.

ghost use Rattle.std.specs.Prelude.{◌≡◌, ◌<◌, ◌^◌, length};
ghost use Rattle.shr_seats.specs.Shapes.{sizes_of};

use crate::rows::Sizes;
use shr_base::log::Log;

/// The groups of a run with their parents and limits, and how many nodes, ids and declarations of
/// caches it has: one record for the core, the charges and the deferred words.
///
/// Linux: `parent` and `max` of `struct page_counter` in include/linux/page_counter.h. The sizes
/// are our own: there groups, nodes and ids come and go while it runs.
#[derive(Drop)]
pub struct Shape {
    /// The parent of each group. Group 0 is the root.
    pub parents: Log<u16>,
    /// Of each group whether it isn't there at the start.
    pub later: Log<bool>,
    /// The most objects that each group may be charged for.
    pub limits: Log<Option<u32>>,
    pub nodes: u8,
    pub ids: u16,
    /// How many declarations of caches there are.
    pub decls: u8,
    /// The most objects of a list.
    pub most_items: u32,
    /// The most entries of a list's journal, but for a Closed.
    pub most_entries: u32,
}

impl Shape {
    /// The sizes of a table with a place for each id, node and group.
    pub fn sizes(&self) -> Sizes
        requires { length self.now.parents.items < 2 ^ 16 }
        ensures { result ≡ sizes_of self.now }
    {
        Sizes {
            ids: self.ids,
            nodes: self.nodes,
            groups: self.parents.len() as u16,
        }
    }
}
