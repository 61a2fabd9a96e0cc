// SPDX-License-Identifier: GPL-2.0-only
//! Objects of a list at rest.

ghost use Rattle.std.specs.Prelude.{◌≡◌, IfOk};

use shr_base::items::{Items, Node};
use shr_base::memory::Memory;
use shr_base::objects::Object;
use slab::Slab;
use std::alloc::Global;

/// These objects, the first at the head. Where their keys wouldn't fit 32 bits it is as where there is
/// no memory.
pub fn items_of(alloc: Global, mut objects: Vec<Object>) -> Result<Items, Memory>
    ensures { IfOk result (λ items. items.items ≡ objects.items) }
{
    let mut nodes = Slab::new(alloc);
    let mut head: Option<u32> = None;
    // From the tail on, so that the node that comes next is known. The one before is asked of no list
    // at rest.
    while let Some(object) = objects.pop() {
        let Ok(key) = u32::try_from(nodes.vacant_key()) else {
            return Err(Memory);
        };
        let node = Node {
            object,
            prev: None,
            next: head,
        };
        let Ok(_) = nodes.insert(node) else {
            return Err(Memory);
        };
        head = Some(key);
    }
    Ok(Items::of(nodes, head))
}
