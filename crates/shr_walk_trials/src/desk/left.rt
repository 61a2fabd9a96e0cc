// SPDX-License-Identifier: GPL-2.0-only
//! Places, and what is told of walks.

use shr_base::places::Place;
use shr_base::walks::Outcome;
use shr_walk::seats::Seats;

/// The place of id 0 of a group on node 0.
pub const fn place_of(group: u16) -> Place {
    Place {
        id: 0,
        node: 0,
        group,
    }
}

/// What a walk of a worker came to, by the number of the walk and that of its attempt.
pub fn outcome(seats: &Seats<'_>, walk: usize, attempt: usize) -> Option<Outcome> {
    let attempts = seats.walks.get(walk)?.attempts();
    Some(attempts.get(attempt)?.outcome())
}
