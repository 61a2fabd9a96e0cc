// SPDX-License-Identifier: GPL-2.0-only
//! The table at the end.

ghost use Rattle.std.specs.Prelude.{◌≡◌, ◌<◌, ◌%◌, ◌^◌, IfOk, slice_index};
ghost use Rattle.std.specs.Mem.Slots.{slots_items, slots_len, IsFull};
ghost use Rattle.shr_seats.specs.Standing.{IsWhole};
ghost use Rattle.shr_seats.specs.Lines.{acts_of};
ghost use Rattle.shr_seats.specs.Rows.{row_count};
ghost use Rattle.shr_deferred.specs.Left.{amounts, left_over};
ghost use Rattle.shr_deferred.specs.History.{HasHistory};
ghost use Rattle.shr_deferred.specs.Rule.{strands_in};
ghost use Rattle.shr_deferred.specs.Seat.{IsFirstDeferredOf, first_deferred};

use crate::table::{Deferred, FirstDeferredSeat};
use atomic_table::Closed;
use shr_base::ends::PlaceAmount;
use shr_base::log::Log;
use shr_base::memory::Memory;
use shr_seats::rows::Sizes;
use std::alloc::Global;

// The words that aren't 0, with their places.
fn amounts_of(
    alloc: Global,
    closed: &Closed<(), Global>,
    sizes: Sizes,
) -> Result<Log<PlaceAmount>, Memory>
    requires sizes { (0 < sizes.nodes) × (0 < sizes.groups) }
    requires words { (slots_len closed.now.words ≡ row_count sizes) × IsFull closed.now.words }
    ensures { IfOk result (λ v. v.items
        ≡ amounts sizes (λ i. slice_index (slots_items closed.now.words) i % 2 ^ 64)
        (row_count sizes)) }
{
    let mut left = Log::new(alloc);
    for i in 0..sizes.rows() {
        let amount = closed.word(i);
        if amount == 0 {
            continue;
        }
        left.add(PlaceAmount {
            place: sizes.place(i),
            amount,
        })?;
    }
    Ok(left)
}

impl Deferred {
    /// The amounts that are still deferred, none of them 0, by id, node and group.
    ///
    /// By then all other seats were joined into the first one, so each amount is what that seat's
    /// view gave at the place less what it took. On `Memory` the table is gone too.
    pub fn finish(self, alloc: Global, first: FirstDeferredSeat) -> Result<Log<PlaceAmount>, Memory>
        requires first { IsFirstDeferredOf self first }
        requires whole { IsWhole (first_deferred first).standing }
        ensures left { IfOk result (λ v. v.items
            ≡ left_over self.sizes (acts_of (first_deferred first).did)) }
        ensures history { IfOk result (λ v. HasHistory self.sizes (strands_in
            (first_deferred first)) v.items) }
    {
        let Deferred { table, sizes } = self;
        let closed = table.close_with(first.token);
        let left = amounts_of(alloc, &closed, sizes);
        closed.free();
        left
    }
}
