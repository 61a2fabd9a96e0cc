// SPDX-License-Identifier: GPL-2.0-only
//! The calls, each made if its seat may make it, and else answered with None.

ghost use Rattle.std.specs.Prelude.{◌≡◌, ◌<◌, true, Some};
ghost use Rattle.shr_seats.specs.Shapes.{groups_in};
ghost use Rattle.shr_core.specs.Seats.{view_of, shape_of};
ghost use Rattle.shr_core.specs.Steps.{IsAtRest};
ghost use Rattle.shr_trials.specs.Calm.{IsCalm, StaysCalm};

use shr_base::ends::LookupWord;
use shr_base::journals::DropKind;
use shr_base::objects::{Object, Policy};
use shr_base::places::{Place, Serial};
use shr_base::text::Text;
use shr_core::counts::Seen;
use shr_core::seat::Seat;
use shr_node::answers::{NodeAnswer, NodeScan, SpliceAnswer};
use shr_node::scanning::{ScanRequest, scan};
use shr_node::splicing::splice;
use shr_node::tenants::{self, TenantCall};
use shr_registry::answers::{FindAnswer, RegisterAnswer, UnregisterAnswer};
use shr_registry::finding::find;
use shr_registry::{registering, unregistering};
use std::sync::Wait;

const BY: Serial = Serial {
    worker: 0,
    command: 0,
};

/// The place of a group at id 0 and node 0.
pub(crate) fn place_of(group: u16) -> Place
    ensures { result ≡ record { id = 0; node = 0; group = group } }
{
    Place {
        id: 0,
        node: 0,
        group,
    }
}

// Whether the seat holds a place's id, and there is such a place.
fn may_call(seat: &Seat<'_>, place: Place) -> bool
    ensures held { result ≡ true → (view_of seat.now).claims.held ≡ Some place.id }
    ensures id { result ≡ true → place.id < (shape_of seat.now.core).ids }
    ensures node { result ≡ true → place.node < (shape_of seat.now.core).nodes }
    ensures group { result ≡ true → place.group < groups_in (shape_of seat.now.core) }
{
    let Some(held) = seat.holds() else {
        return false;
    };
    let shape = seat.core().shape();
    held == place.id
        && place.id < shape.ids
        && place.node < shape.nodes
        && (place.group as usize) < shape.parents.len()
}

/// Registers a declaration.
pub(crate) fn register<R: Wait>(rt: &R, seat: &mut Seat<'_>, decl: u8) -> Option<RegisterAnswer>
    requires { IsCalm (view_of seat.old) }
    ensures { StaysCalm seat.old seat.new }
{
    if seat.holds().is_some() || decl >= seat.core().shape().decls {
        return None;
    }
    Some(registering::register(rt, seat, decl))
}

/// Finds a declaration, and holds its id.
pub(crate) fn hold<R: Wait>(rt: &R, seat: &mut Seat<'_>, decl: u8) -> Option<FindAnswer>
    requires { IsCalm (view_of seat.old) }
    ensures { StaysCalm seat.old seat.new }
{
    if seat.holds().is_some() || decl >= seat.core().shape().decls {
        return None;
    }
    Some(find(rt, seat, decl))
}

/// Unregisters a declaration.
pub(crate) fn unregister<R: Wait>(rt: &R, seat: &mut Seat<'_>, decl: u8) -> Option<UnregisterAnswer>
    requires { IsCalm (view_of seat.old) }
    ensures { StaysCalm seat.old seat.new }
{
    if seat.holds().is_some() || decl >= seat.core().shape().decls {
        return None;
    }
    Some(unregistering::unregister(rt, seat, decl, BY))
}

/// Gives the reference to the id back, if the seat holds one.
pub(crate) fn rest(seat: &mut Seat<'_>)
    requires { IsCalm (view_of seat.old) }
    ensures rest { IsAtRest (view_of seat.new) }
    ensures calm { StaysCalm seat.old seat.new }
{
    if let Some(_held) = seat.holds() {
        seat.put();
    }
}

/// Adds an object of this key.
pub(crate) fn put<R: Wait>(
    rt: &R,
    seat: &mut Seat<'_>,
    place: Place,
    key: &[u8],
) -> Option<NodeAnswer<bool>>
    requires { IsCalm (view_of seat.old) }
    ensures { StaysCalm seat.old seat.new }
{
    if !may_call(seat, place) {
        return None;
    }
    let object = Object {
        serial: BY,
        birth: place.group,
        key: Text::of(seat.core().alloc, key).ok()?,
        value: Text::of(seat.core().alloc, b"v").ok()?,
        marked: false,
        pinned: false,
    };
    Some(tenants::add(rt, seat, place.id, place.node, object))
}

/// Looks an object up.
pub(crate) fn get<R: Wait>(
    rt: &R,
    seat: &mut Seat<'_>,
    place: Place,
    key: &[u8],
) -> Option<NodeAnswer<Option<Text>>>
    requires { IsCalm (view_of seat.old) }
    ensures { StaysCalm seat.old seat.new }
{
    if !may_call(seat, place) {
        return None;
    }
    let key = Text::of(seat.core().alloc, key).ok()?;
    let call = TenantCall {
        id: place.id,
        node: place.node,
        by: BY,
        birth: place.group,
    };
    Some(tenants::look(rt, seat, call, &key))
}

/// Takes an object out.
pub(crate) fn del<R: Wait>(
    rt: &R,
    seat: &mut Seat<'_>,
    place: Place,
    key: &[u8],
) -> Option<NodeAnswer<DropKind>>
    requires { IsCalm (view_of seat.old) }
    ensures { StaysCalm seat.old seat.new }
{
    if !may_call(seat, place) {
        return None;
    }
    let key = Text::of(seat.core().alloc, key).ok()?;
    let call = TenantCall {
        id: place.id,
        node: place.node,
        by: BY,
        birth: place.group,
    };
    Some(tenants::drop_key(rt, seat, call, &key))
}

/// Pins an object.
pub(crate) fn pin<R: Wait>(
    rt: &R,
    seat: &mut Seat<'_>,
    place: Place,
    key: &[u8],
) -> Option<NodeAnswer<bool>>
    requires { IsCalm (view_of seat.old) }
    ensures { StaysCalm seat.old seat.new }
{
    if !may_call(seat, place) {
        return None;
    }
    let key = Text::of(seat.core().alloc, key).ok()?;
    let call = TenantCall {
        id: place.id,
        node: place.node,
        by: BY,
        birth: place.group,
    };
    Some(tenants::set_pin(rt, seat, call, &key, true))
}

/// Scans the list of a group, with a budget of this many visits.
pub(crate) fn walk<R: Wait>(
    rt: &R,
    seat: &mut Seat<'_>,
    place: Place,
    asked: u32,
) -> Option<NodeScan>
    requires { IsCalm (view_of seat.old) }
    ensures { StaysCalm seat.old seat.new }
{
    if !may_call(seat, place) {
        return None;
    }
    let request = ScanRequest {
        worker: 0,
        walk: 0,
        policy: Policy::Clock,
        asked,
    };
    Some(scan(rt, seat, place, request))
}

/// Closes the lists of a group and of those below it.
pub(crate) fn close<R: Wait>(rt: &R, seat: &mut Seat<'_>, place: Place) -> Option<SpliceAnswer>
    requires { IsCalm (view_of seat.old) }
    ensures { StaysCalm seat.old seat.new }
{
    if place.group == 0 || !may_call(seat, place) {
        return None;
    }
    Some(splice(rt, seat, place.id, place.node, place.group))
}

/// Counts a place.
pub(crate) fn count(seat: &mut Seat<'_>, place: Place) -> Option<Seen>
    requires { IsCalm (view_of seat.old) }
    ensures { StaysCalm seat.old seat.new }
{
    if !may_call(seat, place) {
        return None;
    }
    Some(seat.count(place))
}

/// Loads the word of an id.
pub(crate) fn word_of(seat: &mut Seat<'_>, id: u16) -> Option<LookupWord>
    requires { IsCalm (view_of seat.old) }
    ensures { StaysCalm seat.old seat.new }
{
    if id >= seat.core().shape().ids {
        return None;
    }
    Some(seat.word_of(id))
}
