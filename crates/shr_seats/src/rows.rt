// SPDX-License-Identifier: GPL-2.0-only
//! The places of a table, and the row of each.

ghost use Rattle.std.specs.Prelude.{◌≡◌, ◌<◌, ◌^◌};
ghost use Rattle.shr_seats.specs.Rows.{IsPlaceOf, row_count, row_of, place_of_row};

use shr_base::places::Place;

/// How many ids, nodes and groups a table has a place for.
#[derive(Clone, Copy, Debug, PartialEq, Eq)]
pub struct Sizes {
    pub ids: u16,
    pub nodes: u8,
    pub groups: u16,
}

impl Sizes {
    /// How many rows there are: one for each place.
    pub fn rows(self) -> usize
        ensures rows { result ≡ row_count self }
        ensures small { result < 2 ^ 40 }
    {
        self.ids as usize * self.nodes as usize * self.groups as usize
    }

    /// The row of a place: by id, node and group.
    pub fn row(self, place: Place) -> usize
        requires { IsPlaceOf self place }
        ensures row { result ≡ row_of self place }
        ensures low { result < row_count self }
        ensures small { result < 2 ^ 40 }
    {
        (place.id as usize * self.nodes as usize + place.node as usize) * self.groups as usize
            + place.group as usize
    }

    /// The place of a row.
    pub fn place(self, row: usize) -> Place
        requires { (0 < self.nodes) × (0 < self.groups) × (row < row_count self) }
        ensures { result ≡ place_of_row self row }
    {
        let line = row / self.groups as usize;
        Place {
            id: (line / self.nodes as usize) as u16,
            node: (line % self.nodes as usize) as u8,
            group: (row % self.groups as usize) as u16,
        }
    }
}
