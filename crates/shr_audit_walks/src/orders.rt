// SPDX-License-Identifier: GPL-2.0-only
//! The preorder of each group.

ghost use Rattle.std.specs.Prelude.{◌≡◌, ◌+◌, ◌<◌, ◌≤◌, ◌++◌, length, IfOk, OnOk};
ghost use Rattle.shr_model.specs.Trees.{IsTree};
ghost use Rattle.shr_model.specs.Groups.{preorder_of};
ghost use Rattle.shr_audit_walks.specs.Orders.{AreOrdersFrom, AreSubtrees, subtrees_of};

use shr_base::memory::Memory;
use std::alloc::Global;

/// The parents of the groups, and the preorder of each group, that of the last group first.
#[derive(Drop)]
pub struct Subtrees {
    pub parents: Vec<u16>,
    pub orders: Vec<Vec<u16>>,
}

// Appends the preorder of each child of a group, of which those of the groups behind it are there,
// that of the last group first.
fn push_subtrees(
    order: &mut Vec<u16>,
    parents: &[u16],
    group: usize,
    orders: &[Vec<u16>],
) -> Result<(), Memory>
    requires tree { IsTree parents.now }
    requires there { group < length parents.now }
    requires behind { AreOrdersFrom parents.now (group + 1) orders.now }
    ensures { OnOk result (order.new.items ≡ order.old.items ++ subtrees_of parents.now group) }
{
    for child in group + 1..parents.len() {
        if parents[child] as usize == group {
            order.extend_from_slice(orders[parents.len() - 1 - child].as_slice())?;
        }
    }
    Ok(())
}

// The preorder of each group, that of the last group first.
fn orders_of(alloc: Global, parents: &[u16]) -> Result<Vec<Vec<u16>>, Memory>
    requires tree { IsTree parents.now }
    requires few { length parents.now ≤ 65536 }
    ensures { IfOk result (λ orders. AreOrdersFrom parents.now 0 orders.items) }
{
    let mut orders = Vec::new(alloc);
    for k in 0..parents.len() {
        let group = parents.len() - 1 - k;
        let mut order = Vec::new(alloc);
        order.push(group as u16)?;
        push_subtrees(&mut order, parents, group, orders.as_slice())?;
        orders.push(order)?;
    }
    Ok(orders)
}

impl Subtrees {
    /// The subtrees of groups with these parents.
    pub fn of(alloc: Global, parents: Vec<u16>) -> Result<Subtrees, Memory>
        requires tree { IsTree parents.items }
        requires few { length parents.items ≤ 65536 }
        ensures are { IfOk result (λ t. AreSubtrees t) }
        ensures parents { IfOk result (λ t. t.parents ≡ parents) }
    {
        let orders = orders_of(alloc, parents.as_slice())?;
        Ok(Subtrees { parents, orders })
    }

    /// The preorder of a group.
    pub fn order(&self, group: u16) -> &[u16]
        requires are { AreSubtrees self.now }
        requires there { group < length self.now.parents.items }
        ensures { result.now ≡ preorder_of self.now.parents.items group }
    {
        self.orders[self.parents.len() - 1 - group as usize].as_slice()
    }
}
