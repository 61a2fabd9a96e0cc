// SPDX-License-Identifier: GPL-2.0-only
//! One pass.

ghost use Rattle.std.specs.Prelude.{◌≡◌, ◌+◌, ◌≤◌, [], ◌∷◌, ◌++◌, Some};
ghost use Rattle.shr_model.specs.Pass.{FollowsArithmetic};
ghost use Rattle.shr_seats.specs.Rows.{IsPlaceOf};
ghost use Rattle.shr_deferred.specs.Seat.{GainsMoves};
ghost use Rattle.shr_pass.specs.Answers.{CountFits};
ghost use Rattle.shr_pass.specs.Meanings.{SameMeaning, CountsTo};
ghost use Rattle.shr_pass.specs.Passes.{Scans, EndedBy, MatchPass, IfEmptyPass, CountedBetween, count_of, moves_by, asks_due, calls_of, closes_of};

use crate::answers::{Count, PassAnswer};
use crate::scanning::scan_due;
use crate::shrinker::Shrinker;
use shr_arith::formulas::{next_deferred, plan};
use shr_base::places::Place;
use shr_base::walks::PassRecord;
use shr_deferred::DeferredSeat;

/// How hard a pass presses on its objects.
///
/// Linux: the `priority` that `do_shrink_slab` of mm/shrinker.c is called with, and `seeks` and
/// `batch` of `struct shrinker`.
#[derive(Clone, Copy, Debug, PartialEq, Eq)]
pub struct Pressure {
    /// 12 for the mildest pass and 0 for the hardest.
    pub priority: u8,
    /// The cost of making an object again, 0 for none.
    pub seeks: u32,
    /// Objects per scan call, at most 20,000, and 0 for the default.
    pub batch: u32,
}

/// One pass over a place. It counts, and where the count is to be scanned takes over all that is
/// deferred there, scans what is due, and defers what is left.
///
/// It takes no memory of its own. After `Empty` and `Skip` the deferred word wasn't touched. Want of
/// memory and a counter that is used up end the scans as a stop does, and stand in the record.
///
/// Linux: `do_shrink_slab` in mm/shrinker.c, with `xchg_nr_deferred` and `add_nr_deferred`.
pub fn shrink_once<S: Shrinker>(
    dseat: &mut DeferredSeat<'_>,
    shrinker: &mut S,
    seat: &mut S::Seat,
    place: Place,
    pressure: Pressure,
) -> PassAnswer
    requires ready { S.ready shrinker.old seat.old }
    requires sizes { (pressure.priority ≤ 12) × (pressure.batch ≤ 20000) }
    requires place { IsPlaceOf dseat.old.deferred.sizes place }

    // The count, and the record by the published arithmetic.
    ensures counts { S.counts shrinker.new seat.new ≡ S.counts shrinker.old seat.old ++ count_of
        result ∷ [] }
    ensures fits { CountFits (count_of result) }
    ensures empty { IfEmptyPass result (S.owes shrinker.new seat.new → ⊥) }
    ensures record { MatchPass result (Unit {0}) (FollowsArithmetic pressure.priority
        pressure.seeks pressure.batch) }

    // It frees no more than it scanned, and so no more than twice a count.
    ensures bounded { MatchPass result (Unit {0}) (λ p. p.freed ≤ p.scanned) }
    ensures few { MatchPass result (Unit {0}) (λ p. p.freed ≤ 2097152) }

    // One take and one give of the record's amounts.
    ensures deferred { GainsMoves dseat.old dseat.new (moves_by place result) }

    // The scan calls, and the one that ended the pass.
    ensures scans { MatchPass result (S.scans shrinker.new seat.new ≡ S.scans shrinker.old
        seat.old) (λ p. Scans (λ a. S.told shrinker.old a seat.new) (S.scans shrinker.old seat.old)
        (S.scans shrinker.new seat.new) (asks_due pressure.priority pressure.seeks
        pressure.batch p) p.asks p.closed p.freed) }
    ensures calls { CountsTo (S.calls shrinker.new) (S.calls shrinker.old + calls_of result) }
    ensures closes { CountsTo (S.closes shrinker.new) (S.closes shrinker.old + closes_of result) }
    ensures ending { MatchPass result (S.last shrinker.new ≡ S.last shrinker.old)
        (λ p. EndedBy p.ending (λ a. (S.last shrinker.new ≡ Some a)
        × S.told shrinker.old a seat.new)) }

    // What the seat went through.
    ensures same { SameMeaning (S.serves shrinker.old) (S.serves shrinker.new)
        (S.owes shrinker.old) (S.owes shrinker.new) (S.ready shrinker.old) (S.ready shrinker.new)
        (S.kept shrinker.old) (S.kept shrinker.new) (S.told shrinker.old) (S.told shrinker.new)
        (S.counts shrinker.old) (S.counts shrinker.new) (S.scans shrinker.old)
        (S.scans shrinker.new) }
    ensures kept { S.kept shrinker.old seat.old seat.new }
    ensures between { MatchPass result (Unit {0}) (λ p. CountedBetween (S.kept shrinker.old)
        (S.counts shrinker.old) (S.scans shrinker.old) (S.counts shrinker.old seat.old ++ count_of
        result ∷ []) (S.scans shrinker.old seat.old) seat.old seat.new) }
{
    match shrinker.count(seat) {
        Count::Empty { version } => PassAnswer::Empty { version },
        Count::Skip { len, version } => PassAnswer::Skip { len, version },
        Count::Many { len, version } => {
            let nr = dseat.take(place);
            let plan = plan(len, nr, pressure.priority, pressure.seeks, pressure.batch);
            let tally = scan_due(shrinker, seat, &plan, len);
            let next = next_deferred(nr, plan.delta, tally.scanned, len);
            dseat.give(place, next);
            PassAnswer::Ran {
                pass: PassRecord {
                    len,
                    version,
                    nr,
                    asks: tally.asks,
                    closed: tally.closed,
                    scanned: tally.scanned,
                    freed: tally.freed,
                    next,
                    ending: tally.ending,
                },
            }
        }
    }
}
