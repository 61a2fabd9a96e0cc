// SPDX-License-Identifier: GPL-2.0-only
//! Seats for the workers, and their joining.

ghost use Rattle.std.specs.Prelude.{◌≡◌, ◌<◌, IfOk};
ghost use Rattle.shr_charge.specs.Seat.{standing_of};
ghost use Rattle.shr_core.specs.Seats.{view_of};
ghost use Rattle.shr_core.specs.Steps.{IsAtRest};
ghost use Rattle.shr_plain.specs.Seat.{plain_walks_of};
ghost use Rattle.shr_tables.specs.Firsts.{AreFirst, held_by};
ghost use Rattle.shr_tables.specs.Parted.{AreSplit, AreNew, AreJoined};

use crate::tables::CrewSeats;
use shr_base::journals::UseStep;
use shr_base::log::Log;
use shr_base::memory::Memory;
use shr_base::walks::{Carry, PlainWalk, WalkRecord};
use shr_walk::seats::{CacheSeat, Seats};
use std::alloc::Global;

/// What a worker noted: its walks, its carries, its operations on charges, and its walks of the
/// pools.
#[derive(Drop)]
pub struct Notes {
    pub walks: Log<WalkRecord>,
    pub carries: Log<Carry>,
    pub uses: Log<UseStep>,
    pub plain: Log<PlainWalk>,
}

impl<'a> CrewSeats<'a> {
    /// Seats of all tables for one worker more, split off the first ones. `Memory` comes for want
    /// of memory.
    pub fn split(&mut self, alloc: Global) -> Result<CrewSeats<'a>, Memory>
        requires first { AreFirst self.old }
        requires few_cores { (view_of self.old.seats.cache.core).standing.splits < 64 }
        requires few_charges { (standing_of self.old.seats.cache.charge).splits < 64 }
        ensures split { IfOk result (λ s. AreSplit self.old self.new) }
        ensures new { IfOk result (λ s. AreNew self.old s) }
    {
        let core = self.seats.cache.core.split()?;
        let charge = self.seats.cache.charge.split()?;
        let deferred = self.seats.deferred.split()?;
        let plain = self.plain.split()?;
        let seats = Seats {
            cache: CacheSeat {
                core,
                charge,
                uses: Log::new(alloc),
            },
            deferred,
            walks: Log::new(alloc),
            carries: Log::new(alloc),
        };
        Ok(CrewSeats { seats, plain })
    }

    /// Joins a worker's seats into the first ones, and gives what the worker noted.
    pub fn join(&mut self, other: CrewSeats<'a>) -> Notes
        requires first { AreFirst self.old }
        requires tables { held_by other ≡ held_by self.old }
        requires rest { IsAtRest (view_of other.seats.cache.core) }
        ensures joined { AreJoined self.old other.entry self.new }
        ensures walks { result.walks ≡ other.entry.seats.walks }
        ensures carries { result.carries ≡ other.entry.seats.carries }
        ensures uses { result.uses ≡ other.entry.seats.cache.uses }
        ensures plain_walks { result.plain ≡ plain_walks_of other.entry.plain }
    {
        let CrewSeats {
            seats,
            plain: mut other_plain,
        } = other;
        let Seats {
            cache,
            deferred,
            walks,
            carries,
        } = seats;
        let CacheSeat { core, charge, uses } = cache;
        let plain = other_plain.take_walks();
        self.seats.cache.core.join(core);
        self.seats.cache.charge.join(charge);
        self.seats.deferred.join(deferred);
        self.plain.join(other_plain);
        Notes {
            walks,
            carries,
            uses,
            plain,
        }
    }
}
