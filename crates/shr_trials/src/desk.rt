// SPDX-License-Identifier: GPL-2.0-only
//! A core of four groups in a line, with one seat that holds an id after another, or with two.

ghost use Rattle.std.specs.Prelude.{◌≡◌, IfOk};
ghost use Rattle.shr_seats.specs.Shapes.{IsShape};
ghost use Rattle.shr_seats.specs.Standing.{at_first, with_split, IsWhole};
ghost use Rattle.shr_core.specs.Rule.{opener};
ghost use Rattle.shr_core.specs.Seating.{IsFirstOf};
ghost use Rattle.shr_core.specs.Seats.{first_view, view_of};
ghost use Rattle.shr_core.specs.Steps.{IsAtRest};
ghost use Rattle.shr_trials.specs.Calm.{IsCalm, StaysCalm};

use crate::acts::{Act, Heard, make};
use crate::calls::{count, hold, place_of, register, rest, unregister, word_of};
use crate::left::{is_marked, objects_at, spelled};
use shr_base::ends::LookupWord;
use shr_base::log::Log;
use shr_base::memory::Memory;
use shr_base::places::Place;
use shr_core::counts::Seen;
use shr_core::seat::{FirstSeat, Seat};
use shr_core::table::Core;
use shr_registry::answers::{FindAnswer, RegisterAnswer, UnregisterAnswer};
use shr_seats::shape::Shape;
use std::alloc::Global;
use std::sync::Wait;
use std::test::Fail;

/// How many nodes there are, how many ids and declarations, what a list takes at most, and the number of each id's first
/// lookup.
#[derive(Clone, Copy)]
pub(crate) struct Sizes {
    pub(crate) nodes: u8,
    pub(crate) ids: u16,
    pub(crate) most_items: u32,
    pub(crate) most_entries: u32,
    pub(crate) first_lookup: u32,
}

/// One node and one id, and lists of any length.
pub(crate) const WIDE: Sizes = Sizes {
    nodes: 1,
    ids: 1,
    most_items: 1_000,
    most_entries: 10_000,
    first_lookup: 0,
};

// Each group but the root is below the one before it.
fn line(alloc: Global, sizes: Sizes) -> Result<Shape, Fail>
    ensures shape { IfOk result (λ s. IsShape s) }
{
    let Sizes {
        nodes,
        ids,
        most_items,
        most_entries,
        first_lookup: _,
    } = sizes;
    if nodes == 0
        || nodes > 4
        || ids == 0
        || ids > 64
        || most_items > 1_000
        || most_entries > 10_000
    {
        return Err(Fail::from("there are no such cores"));
    }
    let mut parents = Log::new(alloc);
    parents.add(0)?;
    parents.add(0)?;
    parents.add(1)?;
    parents.add(2)?;
    Ok(Shape {
        parents,
        // a core reads neither
        later: Log::new(alloc),
        limits: Log::new(alloc),
        nodes,
        ids,
        decls: ids as u8,
        most_items,
        most_entries,
    })
}

/// A core of these sizes, with its first seat.
pub(crate) fn open(alloc: Global, sizes: Sizes) -> Result<(Core, FirstSeat), Fail>
    ensures { IfOk result (λ t. IsFirstOf t.0 t.1 × (first_view t.1 ≡ opener)) }
{
    Ok(Core::new(alloc, line(alloc, sizes)?, sizes.first_lookup)?)
}

// Registers each declaration as the id of its number.
fn register_all<R: Wait>(rt: &R, seat: &mut Seat<'_>) -> Result<(), Fail>
    requires { IsCalm (view_of seat.old) }
    ensures { StaysCalm seat.old seat.new }
{
    for decl in 0..seat.core().shape().decls {
        let registered = register(rt, seat, decl);
        if !matches!(registered, Some(RegisterAnswer::Registered { id, .. }) if id == decl as u16) {
            return Err(Fail::from("a declaration was not registered"));
        }
    }
    Ok(())
}

/// The first seat of a core, and the number of the lookup by which it came to hold id 0.
#[derive(Drop)]
pub(crate) struct Desk<'a> {
    pub(crate) seat: Seat<'a>,
    pub(crate) number: u32,
    ghost calm: { IsCalm (view_of seat) },
    ghost first: { (view_of seat).standing ≡ at_first },
}

/// A call for the list of id 0 and a group, with its key, and what it is to be told.
pub(crate) type Row = (Act, u16, &'static [u8], Heard);

impl<'a> Desk<'a> {
    /// A desk at a new core: each declaration is registered as the id of its number, and the seat
    /// holds id 0.
    pub(crate) fn new<R: Wait>(rt: &R, core: &'a Core, first: FirstSeat) -> Result<Desk<'a>, Fail>
        requires { IsFirstOf core.now first × (first_view first ≡ opener) }
        ensures { IfOk result (λ d. d.seat.core ≡ core.entry.now) }
    {
        let mut seat = first.at(core);
        register_all(rt, &mut seat)?;
        let Some(FindAnswer::Held { id: 0, number, .. }) = hold(rt, &mut seat, 0) else {
            return Err(Fail::from("nothing was found"));
        };
        Ok(Desk { seat, number })
    }

    /// Makes a call.
    pub(crate) fn make<R: Wait>(&mut self, rt: &R, act: Act, place: Place, key: &[u8]) -> Heard
        ensures { self.new.seat.core ≡ self.old.seat.core }
    {
        make(rt, &mut self.seat, act, place, key)
    }

    /// Makes the calls of these rows, and gives the first that was told something else.
    pub(crate) fn first_unlike<R: Wait>(&mut self, rt: &R, rows: &[Row]) -> Option<usize>
        ensures { self.new.seat.core ≡ self.old.seat.core }
    {
        for (i, row) in rows.iter().enumerate() {
            let (act, group, key, heard) = row;
            if self.make(rt, *act, place_of(*group), key) != *heard {
                return Some(i);
            }
        }
        None
    }

    /// Counts the list of id 0 and a group.
    pub(crate) fn count(&mut self, group: u16) -> Option<Seen> {
        count(&mut self.seat, place_of(group))
    }

    /// Loads the word of id 0.
    pub(crate) fn word(&mut self) -> Option<LookupWord> {
        word_of(&mut self.seat, 0)
    }

    /// Gives the reference back, and holds another declaration's id.
    pub(crate) fn turn<R: Wait>(&mut self, rt: &R, decl: u8) -> Option<FindAnswer> {
        rest(&mut self.seat);
        hold(rt, &mut self.seat, decl)
    }

    /// Gives the reference back, and registers a declaration.
    pub(crate) fn register<R: Wait>(&mut self, rt: &R, decl: u8) -> Option<RegisterAnswer> {
        rest(&mut self.seat);
        register(rt, &mut self.seat, decl)
    }

    /// Gives the reference back, and unregisters a declaration.
    pub(crate) fn unregister<R: Wait>(&mut self, rt: &R, decl: u8) -> Option<UnregisterAnswer> {
        rest(&mut self.seat);
        unregister(rt, &mut self.seat, decl)
    }

    // Gives the reference back, and leaves the core.
    fn leave(self) -> FirstSeat
        ensures first { IsFirstOf self.entry.seat.core result }
        ensures whole { IsWhole (first_view result).standing }
    {
        let Desk { mut seat, .. } = self;
        rest(&mut seat);
        seat.leave()
    }
}

// Whether the calls of these rows are told what they must be, and the core's first seat.
fn told<R: Wait>(
    rt: &R,
    core: &Core,
    first: FirstSeat,
    rows: &[Row],
) -> Result<(FirstSeat, bool), Fail>
    requires { IsFirstOf core.now first × (first_view first ≡ opener) }
    ensures first { IfOk result (λ t. IsFirstOf core.now t.0) }
    ensures whole { IfOk result (λ t. IsWhole (first_view t.0).standing) }
{
    let mut desk = Desk::new(rt, core, first)?;
    let is_told = desk.first_unlike(rt, rows).is_none();
    Ok((desk.leave(), is_told))
}

/// Whether the calls of these rows are told what they must be, and this is left of id 0 at group 1,
/// in letters.
pub(crate) fn leave<R: Wait>(
    rt: &R,
    alloc: Global,
    sizes: Sizes,
    rows: &[Row],
    left: &[u8],
) -> Result<bool, Fail> {
    let (core, first) = open(alloc, sizes)?;
    let (first, is_told) = told(rt, &core, first, rows)?;
    let closed = core.finish(first)?;
    Ok(spelled(alloc, &closed, place_of(1))?.as_slice() == left && is_told)
}

/// The first seat of a new core, which was split once, and the other. Both hold id 0.
pub(crate) fn pair<'a, R: Wait>(
    rt: &R,
    core: &'a Core,
    first: FirstSeat,
) -> Result<(Seat<'a>, Seat<'a>), Fail>
    requires { IsFirstOf core.now first × (first_view first ≡ opener) }
    ensures core { IfOk result (λ t. (t.0.core ≡ core.entry.now) × (t.1.core ≡ core.entry.now)) }
    ensures calm { IfOk result (λ t. IsCalm (view_of t.0) × IsCalm (view_of t.1)) }
    ensures standing { IfOk result (λ t. (view_of t.0).standing ≡ with_split at_first) }
{
    let Desk {
        seat: mut first,
        ..
    } = Desk::new(rt, core, first)?;
    let mut second = first.split()?;
    let Some(FindAnswer::Held { id: 0, .. }) = hold(rt, &mut second, 0) else {
        return Err(Fail::from("nothing was found"));
    };
    Ok((first, second))
}

/// Joins the second seat, and leaves the core.
pub(crate) fn join<'a>(mut first: Seat<'a>, second: Seat<'a>) -> FirstSeat
    requires core { second.core ≡ first.core }
    requires rest { IsAtRest (view_of first) × IsAtRest (view_of second) }
    requires standing { (view_of first).standing ≡ with_split at_first }
    ensures first { IsFirstOf first.entry.core result }
    ensures whole { IsWhole (first_view result).standing }
{
    first.join(second);
    first.leave()
}

/// Ends the core: how many objects of id 0 are left at group 1 and at group 2, and whether the bit
/// of group 1 is set.
pub(crate) fn end(core: Core, first: FirstSeat) -> Result<(usize, usize, bool), Memory>
    requires first { IsFirstOf core first }
    requires whole { IsWhole (first_view first).standing }
{
    let closed = core.finish(first)?;
    Ok((
        objects_at(&closed, place_of(1)),
        objects_at(&closed, place_of(2)),
        is_marked(&closed, 1),
    ))
}
