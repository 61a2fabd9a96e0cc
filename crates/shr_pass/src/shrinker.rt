// SPDX-License-Identifier: GPL-2.0-only
//! What can be counted and scanned.

ghost use Rattle.std.specs.Prelude.{◌≡◌, ℕ, ◌+◌, List, [], ◌∷◌, ◌++◌, Option, Some};
ghost use Rattle.shr_base.specs.declared.places.Place.{Place};
ghost use Rattle.shr_pass.specs.declared.answers.Count.{Count};
ghost use Rattle.shr_pass.specs.declared.answers.ScanSeen.{ScanSeen};
ghost use Rattle.shr_pass.specs.declared.answers.ScanAnswer.{ScanAnswer};
ghost use Rattle.shr_pass.specs.Answers.{CountFits, FreesAtMost, IfEmpty, scans_with, closed_by};
ghost use Rattle.shr_pass.specs.Meanings.{SameMeaning, CountsTo};

use crate::answers::{Count, ScanAnswer};

/// A cache whose objects can be counted and freed, over a seat that its calls step with.
///
/// Linux: `struct shrinker` with its `count_objects` and `scan_objects`, in
/// include/linux/shrinker.h.
pub trait Shrinker {
    type Seat;

    // The place that it serves, if any, and whether a seat owes that place: a cleared bit that is
    // to be counted again.
    ghost serves: { Self → Option Place };

    ghost owes: { Self → Self.Seat → Type 0 };

    // Its counts, and its scans that were answered Freed, each in order.
    ghost counts: { Self → Self.Seat → List Count };

    ghost scans: { Self → Self.Seat → List ScanSeen };

    // A seat that its calls may step with.
    ghost ready: { Self → Self.Seat → Type 0 };

    // What stays of a seat, from an earlier state to a later one.
    ghost kept: { Self → Self.Seat → Self.Seat → Type 0 };

    // The number of its scan calls, that of those answered Closed, both modulo 2^64, and its last
    // answer.
    ghost calls: { Self → ℕ };

    ghost closes: { Self → ℕ };

    ghost last: { Self → Option ScanAnswer };

    // What an answer of a scan showed of the seat.
    ghost told: { Self → ScanAnswer → Self.Seat → Type 0 };

    /// Counts the objects that can be freed.
    fn count(&mut self, seat: &mut Self::Seat) -> Count
        requires { ready self.old seat.old }
        ensures fits { CountFits result }
        ensures counts { counts self.new seat.new ≡ counts self.old seat.old ++ result ∷ [] }
        ensures empty { IfEmpty result (owes self.new seat.new → ⊥) }
        ensures scans { scans self.new seat.new ≡ scans self.old seat.old }
        ensures calls { CountsTo (calls self.new) (calls self.old) }
        ensures closes { CountsTo (closes self.new) (closes self.old) }
        ensures last { last self.new ≡ last self.old }
        ensures same { SameMeaning (serves self.old) (serves self.new) (owes self.old)
            (owes self.new) (ready self.old) (ready self.new) (kept self.old) (kept self.new)
            (told self.old) (told self.new) (counts self.old) (counts self.new) (scans self.old)
            (scans self.new) }
        ensures kept { kept self.old seat.old seat.new };

    /// Frees up to `asked` objects, after a count that was neither Empty nor Skip.
    fn scan(&mut self, seat: &mut Self::Seat, asked: u32) -> ScanAnswer
        requires { ready self.old seat.old }
        ensures fits { FreesAtMost asked result }
        ensures scans { scans self.new seat.new ≡ scans_with (scans self.old seat.old) asked
            result }
        ensures counts { counts self.new seat.new ≡ counts self.old seat.old }
        ensures calls { CountsTo (calls self.new) (calls self.old + 1) }
        ensures closes { CountsTo (closes self.new) (closes self.old + closed_by result) }
        ensures last { last self.new ≡ Some result }
        ensures told { told self.old result seat.new }
        ensures same { SameMeaning (serves self.old) (serves self.new) (owes self.old)
            (owes self.new) (ready self.old) (ready self.new) (kept self.old) (kept self.new)
            (told self.old) (told self.new) (counts self.old) (counts self.new) (scans self.old)
            (scans self.new) }
        ensures kept { kept self.old seat.old seat.new };

    ghost kept_refl: { (x : Self) (s : Self.Seat) → kept x s s };

    ghost kept_trans: { (x : Self) (s t u : Self.Seat) → kept x s t → kept x t u → kept x s u };

    ghost ready_stays: { (x : Self) (s t : Self.Seat) → ready x s → kept x s t → ready x t };

    ghost told_stays: { (x : Self) (a : ScanAnswer) (s t : Self.Seat) → told x a s → kept x s t → told x a t };
}
