// SPDX-License-Identifier: GPL-2.0-only
//! Entries of the journal of the tree, by their numbers.

ghost use Rattle.std.specs.Bool.{Decides};
ghost use Rattle.shr_base.specs.declared.journals.TreeEntry.TheVariants.{Begin, Done, Made};
ghost use Rattle.shr_laws.specs.Causes.{StandsInTree};

use shr_base::journals::TreeEntry;
use shr_laws::report::Report;

/// Whether an entry of the journal of the tree is the Begin of a group.
pub fn is_begin_of(report: &Report, entry: u32, group: u16) -> bool
    ensures { Decides result (StandsInTree report.now entry (Begin group)) }
{
    match report.tree.get(entry as usize) {
        Some(TreeEntry::Begin { group: g }) => *g == group,
        _ => false,
    }
}

/// Whether it is the Done of a group.
pub fn is_done_of(report: &Report, entry: u32, group: u16) -> bool
    ensures { Decides result (StandsInTree report.now entry (Done group)) }
{
    match report.tree.get(entry as usize) {
        Some(TreeEntry::Done { group: g }) => *g == group,
        _ => false,
    }
}

/// Whether it is the Made of a group.
pub fn is_made_of(report: &Report, entry: u32, group: u16) -> bool
    ensures { Decides result (StandsInTree report.now entry (Made group)) }
{
    match report.tree.get(entry as usize) {
        Some(TreeEntry::Made { group: g }) => *g == group,
        _ => false,
    }
}
