// SPDX-License-Identifier: GPL-2.0-only
//! Seats for further threads, and whether a seat is worn out.

ghost use Rattle.std.specs.Prelude.{◌≡◌, ◌<◌, true, IfOk, IsOk};
ghost use Rattle.shr_seats.specs.Standing.{with_split};
ghost use Rattle.shr_charge.specs.Seat.{joined_seated, new_seated, spent_by, uses_of};

use crate::law::Seating;
use crate::table::ChargeSeat;
use shr_base::memory::Memory;
use shr_base::replies::Spent;

/// A seat that was called this often to charge is worn out.
pub const MOST_CHARGES: u32 = 1 << 20;

/// A seat that was called this often to uncharge is worn out.
pub const MOST_UNCHARGES: u32 = 1 << 22;

impl<'a> ChargeSeat<'a> {
    /// A further seat, which has done and seen nothing. Only the first seat is split, fewer than 64
    /// times. It takes no memory today.
    pub fn split(&mut self) -> Result<ChargeSeat<'a>, Memory>
        requires first { self.old.standing.first ≡ true }
        requires few { self.old.standing.splits < 64 }
        ensures made { IsOk result }
        ensures left { self.new ≡ record self.old { standing = with_split self.old.standing } }
        ensures other { IfOk result (λ s. s ≡ new_seated self.old.charge) }
    {
        let token = self
            .charge
            .table
            .shared
            .split_seat::<Seating>(&mut self.token);
        Ok(ChargeSeat {
            charge: self.charge,
            token,
            charges: 0,
            uncharges: 0,
        })
    }

    /// Joins another seat into the first one, which takes over what it did and saw.
    pub fn join(&mut self, other: ChargeSeat<'a>)
        requires first { self.old.standing.first ≡ true }
        requires table { other.charge ≡ self.old.charge }
        ensures joined { self.new ≡ joined_seated self.old other.entry }
    {
        let ChargeSeat {
            charge: _,
            token,
            charges,
            uncharges,
        } = other;
        self.charge
            .table
            .shared
            .join_seat::<Seating>(&mut self.token, token);
        self.charges = self.charges.saturating_add(charges);
        self.uncharges = self.uncharges.saturating_add(uncharges);
    }

    /// Whether the seat is worn out, with its numbers of charges and uncharges. A refused charge
    /// counts as one, and taking it back doesn't count.
    pub fn spent(&self) -> Option<Spent>
        ensures { result ≡ spent_by (uses_of self.now) }
    {
        if self.charges >= MOST_CHARGES || self.uncharges >= MOST_UNCHARGES {
            Some(Spent::Charges {
                charges: self.charges,
                uncharges: self.uncharges,
            })
        } else {
            None
        }
    }
}
