// SPDX-License-Identifier: GPL-2.0-only
//! Sitting down at the tables, leaving them, and seats for further threads.

ghost use Rattle.std.specs.Prelude.{◌≡◌, [], IfOk, IsOk};
ghost use Rattle.shr_plain.specs.Seat.{IsFirstSeat, IsFirstPlainOf, first_plain, first_plain_standing, first_plain_seated, plain_state_of, plain_standing, new_plain_seat, joined_state, plain_split, plain_joined};

use crate::law::Seating;
use crate::table::{FirstPlainSeat, PlainSeat, Pools};
use shr_base::log::Log;
use shr_base::memory::Memory;

impl FirstPlainSeat {
    /// The seats at their tables.
    pub fn at<'a>(self, pools: &'a Pools) -> PlainSeat<'a>
        requires { IsFirstPlainOf pools.now self }
        ensures { result ≡ first_plain_seated pools.now self }
    {
        let FirstPlainSeat {
            units,
            deferred,
            walks,
        } = self;
        PlainSeat {
            pools,
            units,
            deferred: deferred.at(&pools.deferred),
            walks,
        }
    }
}

impl<'a> PlainSeat<'a> {
    /// A further seat, which has done and seen nothing. Only the first seat is split. It takes no
    /// memory today.
    pub fn split(&mut self) -> Result<PlainSeat<'a>, Memory>
        requires first { IsFirstSeat (plain_standing self.old) }
        ensures made { IsOk result }
        ensures split { self.new ≡ record self.old { standing = plain_split self.old.standing } }
        ensures other { IfOk result (λ s. s ≡ new_plain_seat self.old.pools 0) }
    {
        let pools = self.pools;
        let deferred = self.deferred.split()?;
        let units = pools.table.shared.split_seat::<Seating>(&mut self.units);
        Ok(PlainSeat {
            pools,
            units,
            deferred,
            walks: Log::new(pools.alloc),
        })
    }

    /// Joins another seat into the first one, which takes over what it did and saw in the rooms and
    /// what it moved. Its walks are dropped: who keeps them takes them before.
    pub fn join(&mut self, other: PlainSeat<'a>)
        requires first { IsFirstSeat (plain_standing self.old) }
        requires table { other.pools ≡ self.old.pools }
        ensures { self.new ≡ record self.old {
          state = joined_state self.old.state other.entry.state;
          standing = plain_joined self.old.standing;
        } }
    {
        let PlainSeat {
            pools: _,
            units,
            deferred,
            walks: _,
        } = other;
        self.deferred.join(deferred);
        let shared = &self.pools.table.shared;
        shared.join_seat::<Seating>(&mut self.units, units);
    }

    /// Leaves the tables with their first seats.
    pub fn leave(self) -> FirstPlainSeat
        requires first { IsFirstSeat (plain_standing self) }
        ensures first { IsFirstPlainOf self.entry.pools result }
        ensures state { first_plain result ≡ plain_state_of self.entry }
        ensures standing { first_plain_standing result ≡ plain_standing self.entry }
    {
        FirstPlainSeat {
            units: self.units,
            deferred: self.deferred.leave(),
            walks: self.walks,
        }
    }
}
