// SPDX-License-Identifier: GPL-2.0-only
//! Sitting down at the table, leaving it, and seats for further threads.

ghost use Rattle.std.specs.Prelude.{◌≡◌, true, IfOk, IsOk};
ghost use Rattle.shr_deferred.specs.Rule.{joined_view, new_view, with_split_view};
ghost use Rattle.shr_deferred.specs.Seat.{IsFirstDeferredOf, first_deferred, first_seated, deferred_standing};

use crate::law::Seating;
use crate::table::{Deferred, DeferredSeat, FirstDeferredSeat};
use shr_base::memory::Memory;

impl FirstDeferredSeat {
    /// The seat at its table.
    pub fn at<'a>(self, deferred: &'a Deferred) -> DeferredSeat<'a>
        requires { IsFirstDeferredOf deferred.now self }
        ensures { result ≡ first_seated deferred.now self }
    {
        DeferredSeat {
            deferred,
            token: self.token,
        }
    }
}

impl<'a> DeferredSeat<'a> {
    /// A further seat, which has moved nothing. Only the first seat is split. It takes no memory
    /// today.
    pub fn split(&mut self) -> Result<DeferredSeat<'a>, Memory>
        requires first { (deferred_standing self.old).first ≡ true }
        ensures made { IsOk result }
        ensures split { self.new ≡ record self.old { view = with_split_view self.old.view } }
        ensures other { IfOk result (λ s. (s.deferred ≡ self.old.deferred) × (s.view ≡ new_view)) }
    {
        let deferred = self.deferred;
        Ok(DeferredSeat {
            deferred,
            token: deferred.table.shared.split_seat::<Seating>(&mut self.token),
        })
    }

    /// Joins another seat into the first one, which takes over what it took and gave.
    pub fn join(&mut self, other: DeferredSeat<'a>)
        requires first { (deferred_standing self.old).first ≡ true }
        requires table { other.deferred ≡ self.old.deferred }
        ensures { self.new ≡ record self.old {
          view = joined_view self.old.view
              other.entry.view;
        } }
    {
        let shared = &self.deferred.table.shared;
        shared.join_seat::<Seating>(&mut self.token, other.token);
    }

    /// Leaves the table with its first seat.
    pub fn leave(self) -> FirstDeferredSeat
        requires first { (deferred_standing self).first ≡ true }
        ensures first { IsFirstDeferredOf self.entry.deferred result }
        ensures view { first_deferred result ≡ self.entry.view }
    {
        FirstDeferredSeat { token: self.token }
    }
}
