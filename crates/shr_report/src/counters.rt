// SPDX-License-Identifier: GPL-2.0-only
//! The words of a place, and of a counter that is used up.

ghost use Rattle.std.specs.Prelude.{◌≡◌, ◌≤◌, ◌+◌, ◌++◌, drop};
ghost use Rattle.shr_laws.specs.Lines.{spaced};
ghost use Rattle.shr_laws.specs.WellFormed.{IsNumbered};
ghost use Rattle.shr_laws.specs.Numbers.{IsSpentNumbered};
ghost use Rattle.shr_laws.specs.AnswerText.{place_words, spent_words};

use crate::piece::Piece;
use shr_base::places::Place;
use shr_base::replies::Spent;

/// A place.
#[inline(always)]
pub fn add_place(piece: &mut Piece, end: usize, place: Place) -> usize
    requires { (63 ≤ end) × (end ≤ 512) }
    ensures text { drop result piece.new ≡ spaced (place_words place) ++ drop end piece.old }
    ensures start { (end ≤ result + 63) × (result ≤ end) }
    ensures numbers { IsNumbered place }
{
    let start = piece.number(end, place.group as u64);
    let start = piece.number(start, place.node as u64);
    piece.number(start, place.id as u64)
}

/// Which counter is used up.
pub fn add_spent(piece: &mut Piece, end: usize, spent: &Spent) -> usize
    requires { (110 ≤ end) × (end ≤ 512) }
    ensures text { drop result piece.new ≡ spaced (spent_words spent.now) ++ drop end piece.old }
    ensures start { (end ≤ result + 110) × (result ≤ end) }
    ensures numbers { IsSpentNumbered spent.now }
{
    match *spent {
        Spent::Lookups { id, seen } => {
            let start = piece.number(end, seen as u64);
            let start = piece.number(start, id as u64);
            piece.word(start, b"lookups")
        }
        Spent::List {
            place,
            entries,
            items,
        } => {
            let start = piece.number(end, items as u64);
            let start = piece.number(start, entries as u64);
            let start = add_place(piece, start, place);
            piece.word(start, b"list")
        }
        Spent::Charges { charges, uncharges } => {
            let start = piece.number(end, uncharges as u64);
            let start = piece.number(start, charges as u64);
            piece.word(start, b"charges")
        }
    }
}
