// SPDX-License-Identifier: GPL-2.0-only
//! Entries of journals, from the words of their lines.

ghost use Rattle.std.specs.Prelude.{◌≡◌, [], IfSome, IfNone};
ghost use Rattle.shr_report.specs.ReadLines.{read_pool, read_tree};
ghost use Rattle.shr_laws.specs.WellFormed.{IsPoolNumbered, IsTreeNumbered};
ghost use Rattle.shr_words.specs.WordReading.{words_left};

use crate::words::{number_8, number_16, number_32, word};
use shr_base::journals::{PoolEntry, TreeEntry};

/// An entry of the journal of registrations, from the words behind the first of its line. None: its
/// numbers don't have the ranges of their types. Its own number, the first of these words, is for the
/// printed text to tell.
pub fn pool_entry(rest: Option<&[u8]>) -> Option<PoolEntry>
    ensures some { IfSome result (λ e. e ≡ read_pool [] (words_left rest.entry)) }
    ensures none { IfNone result (IsPoolNumbered (read_pool [] (words_left rest.entry)) → ⊥) }
{
    let (_, rest) = word(rest);
    let (what, rest) = word(rest);
    let (first, rest) = word(rest);
    if what == b"registered".as_slice() {
        let (second, rest) = word(rest);
        let (third, _) = word(rest);
        return Some(PoolEntry::Registered {
            decl: number_8(first)?,
            id: number_16(second)?,
            from: number_32(third)?,
        });
    }
    if what == b"unregistered".as_slice() {
        let (second, rest) = word(rest);
        let (third, _) = word(rest);
        return Some(PoolEntry::Unregistered {
            decl: number_8(first)?,
            id: number_16(second)?,
            to: number_32(third)?,
        });
    }
    Some(PoolEntry::Idle {
        id: number_16(first)?,
    })
}

/// An entry of the journal of the tree, from the words behind the first of its line. None: its group
/// doesn't have 16 bits.
pub fn tree_entry(rest: Option<&[u8]>) -> Option<TreeEntry>
    ensures some { IfSome result (λ e. e ≡ read_tree [] (words_left rest.entry)) }
    ensures none { IfNone result (IsTreeNumbered (read_tree [] (words_left rest.entry)) → ⊥) }
{
    let (_, rest) = word(rest);
    let (what, rest) = word(rest);
    let (group, _) = word(rest);
    let group = number_16(group)?;
    if what == b"begin".as_slice() {
        return Some(TreeEntry::Begin { group });
    }
    if what == b"done".as_slice() {
        return Some(TreeEntry::Done { group });
    }
    Some(TreeEntry::Made { group })
}
