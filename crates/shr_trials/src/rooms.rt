// SPDX-License-Identifier: GPL-2.0-only
//! Rooms that two seats try.
ghost use Rattle.std.specs.Prelude.{◌≡◌, [], ◌∷◌, IfOk};
ghost use Rattle.shr_seats.specs.Shapes.{IsShape};

use shr_base::log::Log;
use shr_base::places::Place;
use shr_core::table::Core;
use shr_seats::shape::Shape;
use std::test::Fail;

// The sizes of a core with one id, a root and two groups below it.
fn small_shape(rt: &HostRuntime) -> Result<Shape, Fail>
    ensures parents { IfOk result (λ s. s.parents.items ≡ 0 ∷ 0 ∷ 0 ∷ []) }
    ensures sizes { IfOk result (λ s. (s.nodes ≡ 1) × (s.ids ≡ 1) × (s.decls ≡ 1)) }
    ensures shape { IfOk result (λ s. IsShape s) }
{
    let mut parents = Log::new(rt.alloc());
    parents.add(0)?;
    parents.add(0)?;
    parents.add(0)?;
    Ok(Shape {
        parents,
        // a core reads neither
        later: Log::new(rt.alloc()),
        limits: Log::new(rt.alloc()),
        nodes: 1,
        ids: 1,
        decls: 1,
        most_items: 10,
        most_entries: 100,
    })
}

#[test]
fn a_room_that_another_seat_has_is_not_taken_by_a_try(rt: HostRuntime) -> Result<(), Fail> {
    let (core, first) = Core::new(rt.alloc(), small_shape(&rt)?, 0)?;
    let mut first = first.at(&core);
    let mut second = first.split()?;
    let taken = Place {
        id: 0,
        node: 0,
        group: 1,
    };
    let free = Place {
        id: 0,
        node: 0,
        group: 2,
    };
    let room = first.take_room(&rt, taken);
    assert!(rt; second.try_room(taken).is_none());
    let other = second.try_room(free).ok_or("the room is not free")?;
    second.give_room(other);
    first.give_room(room);
    first.join(second);
    Ok(())
}
