// SPDX-License-Identifier: GPL-2.0-only
//! The groups of which entries of the journal of the tree are the Begin or the Done.

ghost use Rattle.std.specs.Prelude.{◌≡◌, ℕ, ◌||◌, ◌∷◌, [], option_to_list};
ghost use Rattle.std.specs.List.{list_any};
ghost use Rattle.shr_model.specs.TreeJournal.{is_begin, is_done};
ghost use Rattle.shr_laws.specs.Freshness.{is_begin_at};
ghost use Rattle.shr_audit_fresh.specs.Firsts.{is_group, shows_in};

use shr_base::journals::TreeEntry;
use shr_laws::report::Report;

// The group of which an entry is the Begin.
fn begun(entry: &TreeEntry) -> Option<u16>
    ensures { (group : ℕ) → is_group group result ≡ is_begin group entry.now }
{
    match entry {
        TreeEntry::Begin { group } => Some(*group),
        TreeEntry::Done { .. } => None,
        TreeEntry::Made { .. } => None,
    }
}

// The group of which an entry is the Begin or the Done.
fn ended(entry: &TreeEntry) -> Option<u16>
    ensures { (group : ℕ) → is_group group result
        ≡ (is_begin group entry.now || is_done group entry.now) }
{
    match entry {
        TreeEntry::Begin { group } => Some(*group),
        TreeEntry::Done { group } => Some(*group),
        TreeEntry::Made { .. } => None,
    }
}

// The group of which the entry with this number is the Begin.
fn begin_of(report: &Report, n: u32) -> Option<u16>
    ensures { (group : ℕ) → is_group group result
        ≡ list_any (is_begin_at report.now group) (n ∷ []) }
{
    match report.tree.get(n as usize) {
        Some(entry) => begun(entry),
        None => None,
    }
}

// The group of which it is the Begin or the Done.
fn offline_of(report: &Report, n: u32) -> Option<u16>
    ensures { (group : ℕ) → is_group group result ≡ shows_in report.now group (n ∷ []) }
{
    match report.tree.get(n as usize) {
        Some(entry) => ended(entry),
        None => None,
    }
}

/// The group of which the entry with this number is the Begin, if there is a number.
pub(crate) fn begin_at(report: &Report, number: Option<u32>) -> Option<u16>
    ensures { (group : ℕ) → is_group group result
        ≡ list_any (is_begin_at report.now group) (option_to_list number) }
{
    match number {
        Some(n) => begin_of(report, n),
        None => None,
    }
}

/// The group of which it is the Begin or the Done.
pub(crate) fn offline_at(report: &Report, number: Option<u32>) -> Option<u16>
    ensures { (group : ℕ) → is_group group result
        ≡ shows_in report.now group (option_to_list number) }
{
    match number {
        Some(n) => offline_of(report, n),
        None => None,
    }
}
