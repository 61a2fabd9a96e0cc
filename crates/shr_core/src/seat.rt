// SPDX-License-Identifier: GPL-2.0-only
//! A seat.

ghost use Rattle.std.specs.Prelude.{◌≡◌, [], true};
ghost use Rattle.shr_core.specs.Seats.{view_of, first_view};
ghost use Rattle.shr_core.specs.Seating.{IsFirstOf};

use crate::slot::Slot;
use crate::table::Core;
use crate::view::View;
use std::marker::Model;

/// The rooms that a seat has in hand, by their numbers.
#[derive(Clone, Copy)]
pub enum InHand {
    Nothing,
    One { room: usize },
    /// A child's room was taken first, and its parent's last.
    Two { last: usize, first: usize },
}

/// A registration that a seat met: the declaration is live with the id in this phase, by all of the
/// pool's journal that the seat knows, which has `entry` entries.
#[derive(Clone, Copy)]
pub struct Met {
    pub decl: u8,
    pub id: u16,
    pub phase: u16,
    pub entry: u32,
}

/// A thread's access to a core. Each seat has a view: what it has made and seen, holds and owes
/// there. It keeps the registration that it met last until it takes the pool's journal again.
#[derive(Drop)]
pub struct Seat<'a> {
    pub(crate) core: &'a Core,
    pub(crate) token: atomic_table::Seat<Slot, View>,
    pub(crate) held: Option<u16>,
    pub(crate) rooms: InHand,
    pub(crate) met: Option<Met>,
}

impl<'a> Model for Seat<'a> {
    ghost use Rattle.shr_core.specs.Seats.{Seated};

    ghost Value = { Seated };

    ghost use Rattle.shr_core.specs.Seating.{IsOf};

    ghost view = { λ s. record { core = s.core.now; view = s.token.me.0 } };

    ghost invariant = { λ s. IsOf s.core.now s };
}

/// The first seat of a core while it isn't at the core: before the threads run, and after.
#[derive(Drop)]
pub struct FirstSeat {
    pub(crate) token: atomic_table::Seat<Slot, View>,
    pub(crate) held: Option<u16>,
}

impl FirstSeat {
    /// The first seat at its core.
    pub fn at<'a>(self, core: &'a Core) -> Seat<'a>
        requires first { IsFirstOf core.now self }
        ensures { result ≡ record { core = core.now; view = first_view self } }
    {
        let FirstSeat { token, held } = self;
        Seat {
            core,
            token,
            held,
            rooms: InHand::Nothing,
            met: None,
        }
    }
}

impl<'a> Seat<'a> {
    /// The core that the seat is of.
    pub fn core(&self) -> &'a Core
        ensures { result.now ≡ self.now.core }
    {
        self.core
    }

    /// The first seat leaves its core, so that the core can be ended. It has no room in hand.
    pub fn leave(self) -> FirstSeat
        requires first { (view_of self).standing.first ≡ true }
        requires rest { (view_of self).holding.hands ≡ [] }
        ensures first { IsFirstOf self.entry.core result }
        ensures view { first_view result ≡ view_of self.entry }
    {
        let Seat {
            core: _,
            token,
            held,
            rooms: _,
            met: _,
        } = self;
        FirstSeat { token, held }
    }
}
