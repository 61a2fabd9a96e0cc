// SPDX-License-Identifier: GPL-2.0-only
//! The visits of one isolation.

ghost use Rattle.std.specs.Prelude.{◌≡◌, ◌≤◌};
ghost use Rattle.shr_model.specs.PlaceNumbers.{place_number};
ghost use Rattle.shr_core.specs.Seats.{IsPlaceOfShape, shape_of};
ghost use Rattle.shr_walk.specs.Keeping.{Keeps};
ghost use Rattle.shr_walk.specs.Listers.{listing_of};
ghost use Rattle.shr_walk.specs.Listing.{IsReady};
ghost use Rattle.shr_walk.specs.Sharing.{IsShared};
ghost use Rattle.shr_walk.specs.State.{state_of};
ghost use Rattle.shr_drop.specs.Visiting.{AreIsolated, IsSameElse, visitor_in};

use shr_base::replies::IsolateEnd;
use shr_walk::lister::{Lister, ListerScan};
use shr_walk::seats::Seats;
use std::sync::Wait;

/// What the visits of an isolation came to: how many there were, what they freed, and why no other was made.
#[derive(Clone, Copy, Debug, PartialEq, Eq)]
pub struct Visited {
    pub visits: u32,
    pub freed: u32,
    pub ending: IsolateEnd,
}

/// Visits the list up to `budget` times, each time from its head. The room of the list is taken for each visit and given
/// back after it.
pub(crate) fn visit_all<R: Wait>(lister: &Lister<R>, seats: &mut Seats<'_>, budget: u32) -> Visited
    requires shared { IsShared (listing_of lister.now).shared }
    requires place { let a = listing_of lister.now in IsPlaceOfShape (shape_of a.shared.core)
        a.place }
    requires ready { let a = listing_of lister.now in IsReady a.shared a.place seats.old.cache }
    requires budget { budget ≤ 20000 }
    ensures kept { let a = listing_of lister.now in Keeps a.shared (place_number a.place) a.walk
        a.by a.policy seats.old.cache seats.new.cache }
    ensures same { IsSameElse seats.old seats.new }
    ensures isolated { let a = listing_of lister.now in AreIsolated a.shared (visitor_in a) budget
        result.visits result.freed result.ending (state_of seats.old) (state_of seats.new) }
{
    let mut freed = 0;
    for visits in 0..budget {
        match lister.scan_list(&mut seats.cache, 1) {
            ListerScan::Scanned {
                objects,
                visits: met,
                stopped,
            } => {
                if met == 0 {
                    return Visited {
                        visits,
                        freed,
                        ending: IsolateEnd::Bare,
                    };
                }
                freed += objects;
                if stopped {
                    return Visited {
                        visits: visits + 1,
                        freed,
                        ending: IsolateEnd::Stop,
                    };
                }
            }
            ListerScan::Closed => {
                return Visited {
                    visits,
                    freed,
                    ending: IsolateEnd::Closed,
                };
            }
            ListerScan::Worn { spent } => {
                return Visited {
                    visits,
                    freed,
                    ending: IsolateEnd::Worn { spent },
                };
            }
            ListerScan::NoRoom => {
                return Visited {
                    visits,
                    freed,
                    ending: IsolateEnd::NoRoom,
                };
            }
        }
    }
    Visited {
        visits: budget,
        freed,
        ending: IsolateEnd::Spent,
    }
}
