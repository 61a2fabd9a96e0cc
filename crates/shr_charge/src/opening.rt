// SPDX-License-Identifier: GPL-2.0-only
//! The table at the start.

ghost use Rattle.std.specs.Prelude.{◌≡◌, ◌≤◌, ◌+◌, ◌*◌, length, replicate, IfOk};
ghost use Rattle.shr_seats.specs.Shapes.{HasLimits};
ghost use Rattle.shr_charge.specs.Opening.{AreFirstGroupWords};
ghost use Rattle.shr_charge.specs.Seat.{IsFirstChargeOf, first_seated, opener_seated};

use crate::offlining::NOT_MADE;
use crate::table::{Charge, ChargeSeat, FirstChargeSeat};
use crate::words::WORDS_A_GROUP;
use atomic_table::{Refused, Table};
use shr_base::log::Log;
use shr_base::memory::Memory;
use shr_seats::shape::Shape;
use std::alloc::Global;

fn zeros(alloc: Global, count: usize) -> Result<Vec<u64>, Memory>
    ensures { IfOk result (λ v. v.items ≡ replicate count 0) }
{
    Ok(vec![in alloc; 0; count]?)
}

// The words of a new table.
fn first_words(alloc: Global, later: &[bool]) -> Result<Vec<u64>, Memory>
    requires { length later.now ≤ 256 }
    ensures { IfOk result (λ v. AreFirstGroupWords later.now v.items) }
{
    let mut words = zeros(alloc, WORDS_A_GROUP * later.len() + 1)?;
    for group in 0..later.len() {
        if later[group] {
            words[WORDS_A_GROUP * group + 2] = NOT_MADE;
        }
    }
    Ok(words)
}

impl Charge {
    /// A table for the groups of a shape, with nothing charged, all groups online that aren't
    /// later, and its first seat. On `Memory` nothing is kept.
    ///
    /// Linux: `page_counter_init` in include/linux/page_counter.h for each group.
    pub fn new(alloc: Global, shape: Shape) -> Result<(Charge, FirstChargeSeat), Memory>
        requires shape { HasLimits shape }
        ensures shape { IfOk result (λ t. t.0.shape ≡ shape) }
        ensures first { IfOk result (λ t. IsFirstChargeOf t.0 t.1) }
        ensures opener { IfOk result (λ t. first_seated t.0 t.1 ≡ opener_seated t.0) }
    {
        let words = first_words(alloc, shape.later.as_slice())?;
        let mut rooms = Vec::new(alloc);
        rooms.push(Log::new(alloc))?;
        match Table::new(alloc, &words, rooms, &shape) {
            Ok((table, token)) => Ok((
                Charge {
                    table,
                    shape,
                    alloc,
                },
                FirstChargeSeat {
                    token,
                    charges: 0,
                    uncharges: 0,
                },
            )),
            Err(Refused { slots: _ }) => Err(Memory),
        }
    }
}

impl FirstChargeSeat {
    /// The first seat at its table.
    pub fn at<'a>(self, charge: &'a Charge) -> ChargeSeat<'a>
        requires { IsFirstChargeOf charge.now self }
        ensures { result ≡ first_seated charge.now self }
    {
        let FirstChargeSeat {
            token,
            charges,
            uncharges,
        } = self;
        ChargeSeat {
            charge,
            token,
            charges,
            uncharges,
        }
    }
}
