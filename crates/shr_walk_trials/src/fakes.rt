// SPDX-License-Identifier: GPL-2.0-only
//! A shrinker whose list gets an object behind its first count, and whose scans find no memory.

ghost use Rattle.std.specs.Prelude.{◌≡◌, ◌<◌, ◌≤◌, [], Some};
ghost use Rattle.shr_model.specs.PlaceNumbers.{place_number};
ghost use Rattle.shr_seats.specs.Weights.{times};
ghost use Rattle.shr_core.specs.Seats.{IsPlaceOfShape, view_of, shape_of};
ghost use Rattle.shr_pass.specs.Answers.{CountFits, IfEmpty};
ghost use Rattle.shr_walk.specs.Listing.{count_kind, counts_at, IsReady};
ghost use Rattle.shr_walk.specs.Sharing.{IsShared};
ghost use Rattle.shr_walk_trials.specs.Fakes.{Stays, stays_refl, stays_trans};

use crate::desk::lists::BY;
use shr_base::objects::Object;
use shr_base::places::Place;
use shr_base::text::Text;
use shr_core::counts::Seen;
use shr_node::answers::NodeAnswer;
use shr_node::tenants::add;
use shr_pass::answers::{Count, ScanAnswer};
use shr_pass::shrinker::Shrinker;
use shr_walk::seats::{CacheSeat, Shared};
use std::sync::Wait;

/// The list of a place. Where `late` is true, an object is added to it behind the next count.
#[derive(Drop)]
pub(crate) struct Fake<'a, R: Wait> {
    pub(crate) rt: &'a R,
    pub(crate) shared: &'a Shared,
    pub(crate) place: Place,
    pub(crate) floor: u32,
    pub(crate) late: bool,
    pub(crate) calls: u64,
    pub(crate) last: Option<ScanAnswer>,
}

// The kind of a count.
fn kind_of(seen: Seen, floor: u32) -> Count
    ensures kind { result ≡ count_kind floor seen.len seen.version }
    ensures fits { seen.len ≤ 1048576 → CountFits result }
    ensures empty { IfEmpty result (seen.len ≡ 0) }
{
    if seen.len == 0 {
        Count::Empty {
            version: seen.version,
        }
    } else if seen.len <= floor {
        Count::Skip {
            len: seen.len,
            version: seen.version,
        }
    } else {
        Count::Many {
            len: seen.len,
            version: seen.version,
        }
    }
}

impl<'a, R: Wait> Fake<'a, R> {
    // Adds the late object, where there is one.
    fn add_late(&self, seat: &mut CacheSeat<'_>) -> Option<NodeAnswer<bool>>
        requires shared { IsShared self.now.shared.now }
        requires place { IsPlaceOfShape (shape_of self.now.shared.now.core) self.now.place }
        requires ready { IsReady self.now.shared.now self.now.place seat.old }
        ensures stays { Stays self.now.place seat.old seat.new }
        ensures seen { (view_of seat.new.core).traces.seen ≡ (view_of seat.old.core).traces.seen }
    {
        if !self.late {
            return None;
        }
        let object = Object {
            serial: BY,
            birth: self.place.group,
            key: Text::of(self.shared.core.alloc, b"late").ok()?,
            value: Text::of(self.shared.core.alloc, b"v").ok()?,
            marked: false,
            pinned: false,
        };
        let Place { id, node, group: _ } = self.place;
        Some(add(self.rt, &mut seat.core, id, node, object))
    }
}

impl<'a, R: Wait> Shrinker for Fake<'a, R> {
    type Seat = CacheSeat<'a>;

    ghost serves = { λ x. Some x.place };

    ghost owes = { λ x s. 0 < times (place_number x.place) (view_of s.core).marks.owed };

    ghost counts = { λ x s. counts_at (place_number x.place) x.floor s };

    ghost scans = { λ x s. [] };

    ghost ready = { λ x s. IsShared x.shared.now × IsPlaceOfShape (shape_of x.shared.now.core) x.place × IsReady x.shared.now x.place s };

    ghost kept = { λ x s t. Stays x.place s t };

    ghost calls = { λ x. x.calls };

    ghost closes = { λ x. 0 };

    ghost last = { λ x. x.last };

    ghost told = { λ x a s. Unit {0} };

    fn count(&mut self, seat: &mut CacheSeat<'a>) -> Count {
        let seen = seat.core.count(self.place);
        let _added = self.add_late(seat);
        self.late = false;
        kind_of(seen, self.floor)
    }

    fn scan(&mut self, _seat: &mut CacheSeat<'a>, _asked: u32) -> ScanAnswer {
        self.calls = self.calls.wrapping_add(1);
        self.last = Some(ScanAnswer::NoRoom);
        ScanAnswer::NoRoom
    }

    ghost kept_refl = { λ x s. stays_refl x.place s };

    ghost kept_trans = { λ x s t u a b. stays_trans x.place s t u a b };

    ghost ready_stays = { λ x s t a b. (a.0, a.1, b.ready _ _ a.2) };

    ghost told_stays = { λ x a s t b c. tt };
}
