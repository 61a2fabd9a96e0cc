// SPDX-License-Identifier: GPL-2.0-only
//! The lists and the pools, as far as they were read.

ghost use Rattle.std.specs.Prelude.{◌≡◌, IfOk};
ghost use Rattle.shr_audit_text.specs.Draft.{lists_of, pools_of, with_place, with_list_entry, with_item, with_units, with_unit};

use crate::pools::UnitsHead;
use shr_base::journals::{Entry, PlainEntry};
use shr_base::memory::Memory;
use shr_base::objects::Object;
use shr_base::places::Place;
use std::alloc::Global;

/// A list as far as it was read.
#[derive(Drop)]
pub struct ListDraft {
    pub place: Place,
    pub entries: Vec<Entry>,
    pub items: Vec<Object>,
}

/// Another list.
pub fn take_place(alloc: Global, lists: &mut Vec<ListDraft>, place: Place) -> Result<(), Memory>
    ensures { IfOk result (λ _. lists_of lists.new.items
        ≡ with_place place (lists_of lists.old.items)) }
{
    lists.push(ListDraft {
        place,
        entries: Vec::new(alloc),
        items: Vec::new(alloc),
    })?;
    Ok(())
}

/// An entry of the last list.
pub fn take_entry(lists: &mut Vec<ListDraft>, entry: Entry) -> Result<(), Memory>
    ensures { IfOk result (λ _. lists_of lists.new.items
        ≡ with_list_entry entry (lists_of lists.old.items)) }
{
    let Some(mut list) = lists.pop() else {
        return Ok(());
    };
    list.entries.push(entry)?;
    lists.push(list)?;
    Ok(())
}

/// An object of the last list.
pub fn take_item(lists: &mut Vec<ListDraft>, item: Object) -> Result<(), Memory>
    ensures { IfOk result (λ _. lists_of lists.new.items
        ≡ with_item item (lists_of lists.old.items)) }
{
    let Some(mut list) = lists.pop() else {
        return Ok(());
    };
    list.items.push(item)?;
    lists.push(list)?;
    Ok(())
}

/// A pool on a node as far as it was read.
#[derive(Drop)]
pub struct UnitsDraft {
    pub head: UnitsHead,
    pub entries: Vec<PlainEntry>,
}

/// Another pool on a node.
pub fn take_units(alloc: Global, units: &mut Vec<UnitsDraft>, head: UnitsHead) -> Result<(), Memory>
    ensures { IfOk result (λ _. pools_of units.new.items
        ≡ with_units head (pools_of units.old.items)) }
{
    units.push(UnitsDraft {
        head,
        entries: Vec::new(alloc),
    })?;
    Ok(())
}

/// An entry of the last pool's journal.
pub fn take_unit(units: &mut Vec<UnitsDraft>, entry: PlainEntry) -> Result<(), Memory>
    ensures { IfOk result (λ _. pools_of units.new.items
        ≡ with_unit entry (pools_of units.old.items)) }
{
    let Some(mut last) = units.pop() else {
        return Ok(());
    };
    last.entries.push(entry)?;
    units.push(last)?;
    Ok(())
}
