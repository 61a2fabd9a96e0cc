// SPDX-License-Identifier: GPL-2.0-only
//! What the workers of a run share, and the seats at it.

ghost use Rattle.std.specs.Prelude.{◌≡◌};
ghost use Rattle.shr_plain.specs.Seat.{first_plain_seated};
ghost use Rattle.shr_walk.specs.Sharing.{HaveLeft, seats_at};
ghost use Rattle.shr_tables.specs.Firsts.{AreFirst, AreFirstIn, HasLeft, held_in};

use shr_plain::{FirstPlainSeat, PlainSeat, Pools};
use shr_walk::seats::{FirstSeats, Seats, Shared};

/// The tables of a run: those of the caches with the script, and the pools of units.
#[derive(Drop)]
pub struct Tables {
    pub shared: Shared,
    pub pools: Pools,
}

/// Seats at all tables of a run: the first ones, or those of a worker.
#[derive(Drop)]
pub struct CrewSeats<'a> {
    pub seats: Seats<'a>,
    pub plain: PlainSeat<'a>,
}

/// The first seats of all tables of a run, while nobody sits at them: they come with the tables,
/// and the tables are ended with them.
#[derive(Drop)]
pub struct FirstCrew {
    pub seats: FirstSeats,
    pub plain: FirstPlainSeat,
}

impl FirstCrew {
    /// The first seats at their tables, with nothing noted.
    pub fn at<'a>(self, tables: &'a Tables) -> CrewSeats<'a>
        requires first { AreFirstIn (held_in tables.now) self }
        ensures caches { result.seats ≡ seats_at tables.now.shared self.seats }
        ensures plain { result.plain ≡ first_plain_seated tables.now.pools self.plain }
    {
        let FirstCrew { seats, plain } = self;
        CrewSeats {
            seats: seats.at(&tables.shared),
            plain: plain.at(&tables.pools),
        }
    }
}

impl<'a> CrewSeats<'a> {
    /// The first seats, to end the tables with. What was noted is dropped.
    pub fn leave(self) -> FirstCrew
        requires first { AreFirst self }
        ensures caches { HaveLeft self.entry.seats result.seats }
        ensures plain { HasLeft self.entry.plain result.plain }
    {
        let CrewSeats { seats, plain } = self;
        FirstCrew {
            seats: seats.leave(),
            plain: plain.leave(),
        }
    }
}
