// SPDX-License-Identifier: GPL-2.0-only
//! A script and its report, indexed once.

ghost use Rattle.std.specs.Prelude.{◌≡◌, ◌≤◌, List, [], length, map, take, option_copied, IfOk};
ghost use Rattle.std.specs.Bool.{Decides};
ghost use Rattle.shr_model.specs.Trees.{IsTree};
ghost use Rattle.shr_model.specs.Families.{items_at, items_of, lists_moved_at};
ghost use Rattle.shr_base.specs.declared.objects.Object.{Object};
ghost use Rattle.shr_base.specs.declared.journals.Entry.{Entry};
ghost use Rattle.shr_model.specs.Items.{AreOutcomes, items_from};
ghost use Rattle.shr_audit_case.specs.Journals.{IsReplayed, freed_tags, values_from};
ghost use Rattle.shr_audit_case.specs.Tags.{tag_of};
ghost use Rattle.shr_laws.specs.Parts.{journals_of, parents_of};
ghost use Rattle.shr_audit_case.specs.Places.{AreInOrder};
ghost use Rattle.shr_audit_case.specs.Lists.{IsCaseOf, IsReplayOf, TellsReplayed, items_printed_in};

use crate::journal::Replayed;
use crate::lists::replay_lists;
use crate::places::index_of;
use crate::serials::parents_of;
use crate::tags::{FreedTag, Tag};
use crate::values::FoundValue;
use shr_base::memory::Memory;
use shr_base::places::Place;
use shr_base::scripts::Script;
use shr_laws::report::Report;
use std::alloc::Global;

/// What is indexed once of a script and its report: the parents of the groups, the root first, and
/// for each list that is printed what its journal leaves.
#[derive(Drop)]
pub struct Case {
    pub parents: Vec<u16>,
    /// By the index of the list. For a list that isn't the first one of its place it tells nothing.
    pub replays: Vec<Replayed>,
}

// The number of objects after so many entries, or after the last.
fn count_in(told: &Replayed, entries: usize) -> usize
    ensures { (moved : List (List Object)) (es : List Entry) (printed : List Object)
        → IsReplayed moved es printed told.now
        → result ≡ length (items_from moved [] (take entries es)) }
{
    if entries < told.lens.len() {
        told.lens[entries]
    } else {
        told.left.len()
    }
}

impl Case {
    /// The case of a script and a report. It replays each journal once.
    pub fn of(alloc: Global, script: &Script, report: &Report) -> Result<Case, Memory>
        requires tree { IsTree (parents_of script.now) }
        requires few { length (parents_of script.now) ≤ 65536 }
        requires order { AreInOrder report.now.places.items }
        ensures { IfOk result (λ c. IsCaseOf script.now report.now c) }
    {
        let parents = parents_of(alloc, script)?;
        let replays = replay_lists(alloc, parents.as_slice(), report.places.as_slice())?;
        Ok(Case { parents, replays })
    }

    // What the journal of a place tells; nothing of a place that isn't printed.
    fn replay(&self, report: &Report, place: Place) -> Option<&Replayed>
        requires { IsReplayOf report.now self.now }
        ensures { TellsReplayed self.now.parents.items report.now.places.items place
            (option_copied result) }
    {
        match index_of(report.places.as_slice(), place) {
            Some(k) => Some(&self.replays[k]),
            None => None,
        }
    }

    /// The number of objects of a place after so many entries of its journal, or at its end where it
    /// has fewer.
    pub fn count_after(&self, report: &Report, place: Place, entries: usize) -> usize
        requires { IsReplayOf report.now self.now }
        ensures { result ≡ length (items_at self.now.parents.items
            (journals_of report.now) place entries) }
    {
        match self.replay(report, place) {
            Some(told) => count_in(told, entries),
            None => 0,
        }
    }

    /// The objects that the entries of a place freed, in order, each with the number of its entry.
    pub fn freed(&self, report: &Report, place: Place) -> &[FreedTag]
        requires { IsReplayOf report.now self.now }
        ensures { result.now ≡ freed_tags 0 (lists_moved_at self.now.parents.items
            (journals_of report.now) place) [] (journals_of report.now place) }
    {
        match self.replay(report, place) {
            Some(told) => told.freed.as_slice(),
            None => &[],
        }
    }

    /// The objects that the journal of a place leaves, from the head.
    pub fn left(&self, report: &Report, place: Place) -> &[Tag]
        requires { IsReplayOf report.now self.now }
        ensures { result.now ≡ map tag_of (items_of self.now.parents.items
            (journals_of report.now) place) }
    {
        match self.replay(report, place) {
            Some(told) => told.left.as_slice(),
            None => &[],
        }
    }

    /// The values of the objects that the Looks of a place found, in order, each with the number of
    /// its entry.
    pub fn values(&self, report: &Report, place: Place) -> &[FoundValue]
        requires { IsReplayOf report.now self.now }
        ensures { result.now ≡ values_from 0 (lists_moved_at self.now.parents.items
            (journals_of report.now) place) [] (journals_of report.now place) }
    {
        match self.replay(report, place) {
            Some(told) => told.values.as_slice(),
            None => &[],
        }
    }

    /// Whether the objects that are printed for a place are those that its journal leaves.
    pub fn items_are_left(&self, report: &Report, place: Place) -> bool
        requires { IsReplayOf report.now self.now }
        ensures { Decides result (items_printed_in report.now.places.items place
            ≡ items_of self.now.parents.items (journals_of report.now) place) }
    {
        match self.replay(report, place) {
            Some(told) => told.listed,
            None => true,
        }
    }

    /// Whether each entry of a place says of its outcome what is so.
    pub fn outcomes_are_so(&self, report: &Report, place: Place) -> bool
        requires { IsReplayOf report.now self.now }
        ensures { Decides result (AreOutcomes (lists_moved_at self.now.parents.items
            (journals_of report.now) place) [] (journals_of report.now place)) }
    {
        match self.replay(report, place) {
            Some(told) => told.right,
            None => true,
        }
    }
}
