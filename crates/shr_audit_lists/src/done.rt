// SPDX-License-Identifier: GPL-2.0-only
//! The lists of groups that went offline.

ghost use Rattle.std.specs.Prelude.{◌≡◌, ℕ, ◌<◌, ◌≤◌, length, Contains};
ghost use Rattle.std.specs.Bool.{Decides};
ghost use Rattle.shr_base.specs.declared.journals.TreeEntry.TheVariants.{Done};
ghost use Rattle.shr_model.specs.Items.{is_closed, is_closing};
ghost use Rattle.shr_laws.specs.Parts.{parents_of};
ghost use Rattle.shr_audit_case.specs.Places.{AreInOrder};
ghost use Rattle.shr_audit_lists.specs.Fields.{AreDoneClosed, IsClosedAt};

use shr_audit_case::places::journal_at;
use shr_base::journals::{Entry, TreeEntry};
use shr_base::places::Place;
use shr_base::scripts::Script;
use shr_laws::report::Report;

/// Whether an entry closes its list.
pub(crate) fn is_closing(entry: &Entry) -> bool
    ensures { result ≡ is_closing entry.now }
{
    matches!(entry, Entry::Closed)
}

/// Whether a Closed stands in a journal.
pub(crate) fn is_closed(entries: &[Entry]) -> bool
    ensures { result ≡ is_closed entries.now }
{
    for entry in entries {
        if is_closing(entry) {
            return true;
        }
    }
    false
}

// Whether a group is done.
fn is_done(tree: &[TreeEntry], group: usize) -> bool
    ensures { Decides result (Contains tree.now (Done group)) }
{
    for entry in tree {
        if let TreeEntry::Done { group: done } = entry
            && *done as usize == group
        {
            return true;
        }
    }
    false
}

// Whether the list of an id and a group is closed on each node.
fn is_closed_on_nodes(report: &Report, nodes: u8, id: u16, group: u16) -> bool
    requires { AreInOrder report.now.places.items }
    ensures { Decides result ((node : ℕ) → node < nodes → IsClosedAt report.now id node group) }
{
    for node in 0..nodes {
        if !is_closed(journal_at(report, Place { id, node, group })) {
            return false;
        }
    }
    true
}

// Whether each list of a group is closed.
fn is_group_closed(report: &Report, ids: u16, nodes: u8, group: u16) -> bool
    requires { AreInOrder report.now.places.items }
    ensures { Decides result ((id : ℕ) → id < ids → (node : ℕ) → node < nodes
        → IsClosedAt report.now id node group) }
{
    for id in 0..ids {
        if !is_closed_on_nodes(report, nodes, id, group) {
            return false;
        }
    }
    true
}

/// Whether each list of a group that is done is closed.
pub fn are_done_closed(script: &Script, report: &Report) -> bool
    requires order { AreInOrder report.now.places.items }
    requires few { length (parents_of script.now) ≤ 65536 }
    ensures { Decides result (AreDoneClosed script.now report.now) }
{
    let tree = report.tree.as_slice();
    for group in 0..script.groups.len() + 1 {
        if is_done(tree, group)
            && !is_group_closed(report, script.ids, script.nodes, group as u16)
        {
            return false;
        }
    }
    true
}
