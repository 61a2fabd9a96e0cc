// SPDX-License-Identifier: GPL-2.0-only
//! The table at the end.

ghost use Rattle.std.specs.Prelude.{◌≡◌, ◌+◌, ◌*◌, true, map, IfOk};
ghost use Rattle.std.specs.List.{range_with_len};
ghost use Rattle.std.specs.Mem.Slots.{slots_items, slots_len, IsFull};
ghost use Rattle.shr_seats.specs.Standing.{IsWhole};
ghost use Rattle.shr_seats.specs.Shapes.{hierarchy_of};
ghost use Rattle.shr_charge.specs.Rule.{usage_in};
ghost use Rattle.shr_charge.specs.Seat.{IsFirstChargeOf, first_seated, first_standing, first_tree, first_uses};
ghost use Rattle.shr_charge.specs.Ends.{IsEndOf};

use crate::table::{Charge, ChargeSeat, FirstChargeSeat};
use crate::words::WORDS_A_GROUP;
use atomic_table::Closed;
use shr_base::ends::ChargeEnd;
use shr_base::journals::TreeEntry;
use shr_base::log::Log;
use shr_base::memory::Memory;
use std::alloc::Global;

// The usage word of each group.
fn usage_of(
    alloc: Global,
    closed: &Closed<Log<TreeEntry>, Global>,
    groups: usize,
) -> Result<Log<u64>, Memory>
    requires { (slots_len closed.now.words ≡ 8 * groups + 1) × IsFull closed.now.words }
    ensures { IfOk result (λ v. v.items ≡ map (usage_in (slots_items closed.now.words))
        (range_with_len 0 groups)) }
{
    let mut usage = Log::new(alloc);
    for group in 0..groups {
        usage.add(closed.word(WORDS_A_GROUP * group + 1))?;
    }
    Ok(usage)
}

impl<'a> ChargeSeat<'a> {
    /// Takes the first seat from its table, with what it did and saw.
    pub fn leave(self) -> FirstChargeSeat
        requires first { self.standing.first ≡ true }
        ensures first { IsFirstChargeOf self.entry.charge result }
        ensures seated { first_seated self.entry.charge result ≡ self.entry }
    {
        let ChargeSeat {
            charge: _,
            token,
            charges,
            uncharges,
        } = self;
        FirstChargeSeat {
            token,
            charges,
            uncharges,
        }
    }
}

impl Charge {
    /// Ends the table, and gives the journal of the tree and each group's usage word. By then all
    /// other seats were joined into the first one, whose view has each operation and each entry. On
    /// `Memory` the table is gone too.
    pub fn finish(self, first: FirstChargeSeat) -> Result<ChargeEnd, Memory>
        requires first { IsFirstChargeOf self first }
        requires whole { IsWhole (first_standing first) }
        ensures { IfOk result (IsEndOf (hierarchy_of self.shape) (first_uses first)
            (first_tree first)) }
    {
        let Charge {
            table,
            shape,
            alloc,
        } = self;
        let FirstChargeSeat {
            token,
            charges: _,
            uncharges: _,
        } = first;
        let mut closed = table.close_with(token);
        let usage = usage_of(alloc, &closed, shape.parents.len());
        let tree = closed.take(0);
        closed.free();
        let usage = usage?;
        Ok(ChargeEnd { tree, usage })
    }
}
