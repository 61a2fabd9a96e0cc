// SPDX-License-Identifier: GPL-2.0-only
//! The lists of a report by their places.

ghost use Rattle.std.specs.Prelude.{◌≡◌, ℕ, ◌<◌, ◌≤◌, true, false, length, slice_get, Some, None, option_copied, IfSome, IfNone};
ghost use Rattle.std.specs.Bool.{Decides};
ghost use Rattle.shr_base.specs.declared.ends.PlaceEnd.{PlaceEnd};
ghost use Rattle.shr_model.specs.Places.{is_place};
ghost use Rattle.shr_laws.specs.Parts.{journals_of};
ghost use Rattle.shr_audit_case.specs.Places.{AreInOrder, IsFirst, IsIndexOf, comes_before, end_printed};

use shr_base::ends::PlaceEnd;
use shr_base::journals::Entry;
use shr_base::places::Place;
use shr_laws::report::Report;

// Whether a place stands before another: by id, then by node, then by group.
fn comes_before(p: Place, q: Place) -> bool
    ensures { result ≡ comes_before p q }
{
    p.id < q.id || (p.id == q.id && (p.node < q.node || (p.node == q.node && p.group < q.group)))
}

// Whether the two are one place.
fn is_place(p: Place, q: Place) -> bool
    ensures { result ≡ is_place p q }
{
    p.id == q.id && p.node == q.node && p.group == q.group
}

// The index of the first list that doesn't stand before a place.
fn index_from(ends: &[PlaceEnd], place: Place) -> usize
    requires { AreInOrder ends.now }
    ensures before { (n : ℕ) (x : PlaceEnd) → n < result → slice_get ends.now n ≡ Some x
        → comes_before x.place place ≡ true }
    ensures behind { (n : ℕ) (x : PlaceEnd) → result ≤ n → slice_get ends.now n ≡ Some x
        → comes_before x.place place ≡ false }
{
    ends.partition_point(|end| comes_before(end.place, place))
}

/// The index of the list that is printed for a place, the first one where there are more.
pub fn index_of(ends: &[PlaceEnd], place: Place) -> Option<usize>
    requires { AreInOrder ends.now }
    ensures some { IfSome result (λ k. IsIndexOf ends.now place k) }
    ensures none { IfNone result (end_printed ends.now place ≡ None) }
{
    let k = index_from(ends, place);
    if k < ends.len() && is_place(ends[k].place, place) {
        Some(k)
    } else {
        None
    }
}

/// Whether a list is the first one that is printed for its place.
pub fn is_first(ends: &[PlaceEnd], k: usize) -> bool
    requires order { AreInOrder ends.now }
    requires there { k < length ends.now }
    ensures { (end : PlaceEnd) → slice_get ends.now k ≡ Some end
        → Decides result (IsFirst ends.now k end.place) }
{
    k == 0 || comes_before(ends[k - 1].place, ends[k].place)
}

/// The list that is printed for a place.
pub fn end_at(report: &Report, place: Place) -> Option<&PlaceEnd>
    requires { AreInOrder report.now.places.items }
    ensures { option_copied result ≡ end_printed report.now.places.items place }
{
    let ends = report.places.as_slice();
    match index_of(ends, place) {
        Some(k) => Some(&ends[k]),
        None => None,
    }
}

/// The journal of a place; a place that isn't printed has the empty one.
pub fn journal_at(report: &Report, place: Place) -> &[Entry]
    requires { AreInOrder report.now.places.items }
    ensures { result.now ≡ journals_of report.now place }
{
    match end_at(report, place) {
        Some(end) => end.entries.as_slice(),
        None => &[],
    }
}
