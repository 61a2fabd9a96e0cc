// SPDX-License-Identifier: GPL-2.0-only
//! The entries of the journal of the tree, and the answers that made them.

ghost use Rattle.std.specs.Prelude.{◌≡◌, ℕ, Some, true, slice_get, IfOk};
ghost use Rattle.std.specs.Bool.{Decides};
ghost use Rattle.shr_base.specs.declared.journals.TreeEntry.{TreeEntry};
ghost use Rattle.shr_audit_reasons.specs.Trees.{AreBeginsCaused, AreDonesCaused, AreMadesCaused, IsBeginCited, IsDoneNotedOnce, IsMadeNotedOnce, is_cited, is_once};

use crate::cites::{Cited, What, cited_at, note_answers};
use shr_audit_formed::tables::tree_fits;
use shr_base::journals::TreeEntry;
use shr_base::memory::Memory;
use shr_base::scripts::Script;
use shr_laws::report::Report;
use std::alloc::Global;

fn is_once(cited: Cited) -> bool
    ensures { result ≡ is_once cited }
{
    match cited {
        Cited::Once { .. } => true,
        _ => false,
    }
}

/// Whether an answer says so.
pub(crate) fn is_cited(cited: Cited) -> bool
    ensures { result ≡ is_cited cited }
{
    match cited {
        Cited::Never => false,
        _ => true,
    }
}

// Whether an entry, if it is a Done, is cited once.
fn is_done_once(table: &[Cited], n: usize, entry: &TreeEntry) -> bool
    ensures { Decides result (IsDoneNotedOnce table.now n entry.now) }
{
    match entry {
        TreeEntry::Done { .. } => is_once(cited_at(table, n)),
        _ => true,
    }
}

// The same of a Made.
fn is_made_once(table: &[Cited], n: usize, entry: &TreeEntry) -> bool
    ensures { Decides result (IsMadeNotedOnce table.now n entry.now) }
{
    match entry {
        TreeEntry::Made { .. } => is_once(cited_at(table, n)),
        _ => true,
    }
}

// Whether the group of an entry, if it is a Begin, is cited.
fn is_begin_cited(table: &[Cited], entry: &TreeEntry) -> bool
    ensures { Decides result (IsBeginCited table.now entry.now) }
{
    match entry {
        TreeEntry::Begin { group } => is_cited(cited_at(table, *group as usize)),
        _ => true,
    }
}

// Whether each Done is.
fn are_dones_once(table: &[Cited], tree: &[TreeEntry]) -> bool
    ensures { Decides result ((n : ℕ) (e : TreeEntry) → slice_get tree.now n ≡ Some e
        → IsDoneNotedOnce table.now n e) }
{
    for n in 0..tree.len() {
        if !is_done_once(table, n, &tree[n]) {
            return false;
        }
    }
    true
}

// Whether each Made is.
fn are_mades_once(table: &[Cited], tree: &[TreeEntry]) -> bool
    ensures { Decides result ((n : ℕ) (e : TreeEntry) → slice_get tree.now n ≡ Some e
        → IsMadeNotedOnce table.now n e) }
{
    for n in 0..tree.len() {
        if !is_made_once(table, n, &tree[n]) {
            return false;
        }
    }
    true
}

// Whether the group of each Begin is.
fn are_begins_cited(table: &[Cited], tree: &[TreeEntry]) -> bool
    ensures { Decides result ((n : ℕ) (e : TreeEntry) → slice_get tree.now n ≡ Some e
        → IsBeginCited table.now e) }
{
    for n in 0..tree.len() {
        if !is_begin_cited(table, &tree[n]) {
            return false;
        }
    }
    true
}

/// Whether each Done is cited by one answer as its own.
pub fn are_dones_caused(alloc: Global, script: &Script, report: &Report) -> Result<bool, Memory>
    ensures { IfOk result (λ b. Decides b (AreDonesCaused report.now)) }
{
    let table = note_answers(alloc, script, report, What::Done, report.tree.len())?;
    let all = are_dones_once(table.as_slice(), report.tree.as_slice());
    Ok(all)
}

/// Whether each Made is.
pub fn are_mades_caused(alloc: Global, script: &Script, report: &Report) -> Result<bool, Memory>
    ensures { IfOk result (λ b. Decides b (AreMadesCaused report.now)) }
{
    let table = note_answers(alloc, script, report, What::Made, report.tree.len())?;
    let all = are_mades_once(table.as_slice(), report.tree.as_slice());
    Ok(all)
}

/// Whether each Begin is of an `offline` that may have begun.
pub fn are_begins_caused(alloc: Global, script: &Script, report: &Report) -> Result<bool, Memory>
    ensures { IfOk result (λ b. Decides b (AreBeginsCaused script.now report.now)) }
{
    tree_fits(report.tree.as_slice());
    let table = note_answers(alloc, script, report, What::Begun, 65536)?;
    let all = are_begins_cited(table.as_slice(), report.tree.as_slice());
    Ok(all)
}
