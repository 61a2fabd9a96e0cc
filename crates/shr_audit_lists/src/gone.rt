// SPDX-License-Identifier: GPL-2.0-only
//! The serials of objects that journals freed, and of those that they leave.

ghost use Rattle.std.specs.Prelude.{◌≡◌, ◌++◌, length, map, IfOk, OnOk};
ghost use Rattle.shr_model.specs.Bag.{freed_at, freed_in, listed_in, serials_of};
ghost use Rattle.shr_model.specs.Families.{items_of};
ghost use Rattle.shr_laws.specs.Parts.{journals_of, places_of};
ghost use Rattle.shr_audit_case.specs.Lists.{IsReplayOf};
ghost use Rattle.shr_audit_lists.specs.Gone.{IsGone, freed_serial, left_serial};

use shr_audit_case::case::Case;
use shr_audit_case::tags::{FreedTag, Tag};
use shr_base::memory::Memory;
use shr_base::places::{Place, Serial};
use shr_laws::report::Report;
use std::alloc::Global;

/// The serials of the objects that were freed and then of those that are left, and how many of the
/// first there are.
#[derive(Drop)]
pub(crate) struct Gone {
    pub(crate) serials: Vec<Serial>,
    pub(crate) freed: usize,
}

// Notes the serials of freed objects.
fn note_tags(serials: &mut Vec<Serial>, tags: &[FreedTag]) -> Result<(), Memory>
    ensures { OnOk result (serials.new.items ≡ serials.old.items ++ map freed_serial tags.now) }
{
    for freed in tags {
        serials.push(freed.tag.serial)?;
    }
    Ok(())
}

// Notes the serials of objects that are left.
fn note_left(serials: &mut Vec<Serial>, tags: &[Tag]) -> Result<(), Memory>
    ensures { OnOk result (serials.new.items ≡ serials.old.items ++ map left_serial tags.now) }
{
    for tag in tags {
        serials.push(tag.serial)?;
    }
    Ok(())
}

// Notes those that the journal of a place freed.
fn note_freed_at(
    serials: &mut Vec<Serial>,
    report: &Report,
    case: &Case,
    place: Place,
) -> Result<(), Memory>
    requires { IsReplayOf report.now case.now }
    ensures { OnOk result (serials.new.items ≡ serials.old.items
        ++ serials_of (freed_at case.now.parents.items (journals_of report.now) place)) }
{
    note_tags(serials, case.freed(report, place))?;
    Ok(())
}

// Notes those that the journal of a place leaves.
fn note_left_at(
    serials: &mut Vec<Serial>,
    report: &Report,
    case: &Case,
    place: Place,
) -> Result<(), Memory>
    requires { IsReplayOf report.now case.now }
    ensures { OnOk result (serials.new.items ≡ serials.old.items
        ++ serials_of (items_of case.now.parents.items (journals_of report.now) place)) }
{
    note_left(serials, case.left(report, place))?;
    Ok(())
}

// Notes those that all journals freed.
fn note_all_freed(serials: &mut Vec<Serial>, report: &Report, case: &Case) -> Result<(), Memory>
    requires { IsReplayOf report.now case.now }
    ensures { OnOk result (serials.new.items ≡ serials.old.items
        ++ freed_in (places_of report.now) case.now.parents.items (journals_of report.now)) }
{
    for end in report.places.as_slice() {
        note_freed_at(serials, report, case, end.place)?;
    }
    Ok(())
}

// Notes those that all journals leave.
fn note_all_left(serials: &mut Vec<Serial>, report: &Report, case: &Case) -> Result<(), Memory>
    requires { IsReplayOf report.now case.now }
    ensures { OnOk result (serials.new.items ≡ serials.old.items
        ++ listed_in (places_of report.now) case.now.parents.items (journals_of report.now)) }
{
    for end in report.places.as_slice() {
        note_left_at(serials, report, case, end.place)?;
    }
    Ok(())
}

/// The serials of all objects that were freed, and of those that are left.
pub(crate) fn gone_serials(alloc: Global, report: &Report, case: &Case) -> Result<Gone, Memory>
    requires { IsReplayOf report.now case.now }
    ensures { IfOk result (λ g. IsGone case.now.parents.items report.now g) }
{
    let mut serials = Vec::new(alloc);
    note_all_freed(&mut serials, report, case)?;
    let freed = serials.len();
    note_all_left(&mut serials, report, case)?;
    Ok(Gone { serials, freed })
}
