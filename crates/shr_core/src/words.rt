// SPDX-License-Identifier: GPL-2.0-only
//! Where each word lies, and what one of a thing is in it.
ghost use Rattle.std.specs.Prelude.{◌≡◌, ◌==◌, ◌+◌, ◌*◌, ◌%◌, ◌<◌, ◌^◌};
ghost use Rattle.shr_core.specs.Layout.{place_bit};

/// Each row has four words: the count word of its place, the lock word of its room, a bit word, and
/// the lookup word of an id. A row may lack some of these; their words stay 0. So do four more: if
/// the table begins in the first half of a line of a processor's cache, no two rows share a line.
pub(crate) const KINDS: usize = 8;

/// So many numbers of places an id has, whatever the core's sizes: those of 4 nodes.
pub(crate) const PLACES_AN_ID: usize = 1024;

/// So many numbers of places a node of an id has: those of 256 groups.
pub(crate) const PLACES_A_NODE: usize = 256;

/// So many ids have their bits in one word.
pub(crate) const IDS_A_WORD: usize = 64;

/// One entry in a count word. Its items are the low bits.
pub(crate) const ONE_VERSION: u64 = 1 << 32;

/// One reference in a lookup word.
pub(crate) const ONE_REFERENCE: u64 = 1;

/// One lookup in a lookup word.
pub(crate) const ONE_LOOKUP: u64 = 1 << 8;

/// One phase in a lookup word.
pub(crate) const ONE_PHASE: u64 = 1 << 40;

/// The step from one declaration to the next in a lookup word.
pub(crate) const ONE_DECL: u64 = 1 << 56;

/// The count word of a row.
pub(crate) fn count_word(row: usize) -> usize
    requires { row < 2 ^ 60 }
    ensures { result ≡ 8 * row }
{
    KINDS * row
}

/// The lock word of a row.
pub(crate) fn lock_word(row: usize) -> usize
    requires { row < 2 ^ 60 }
    ensures { result ≡ 8 * row + 1 }
{
    KINDS * row + 1
}

/// The bit word of a row.
pub(crate) fn bit_word(row: usize) -> usize
    requires { row < 2 ^ 60 }
    ensures { result ≡ 8 * row + 2 }
{
    KINDS * row + 2
}

/// The lookup word of an id.
pub(crate) fn lookup_word(id: u16) -> usize
    ensures { result ≡ 8 * id + 3 }
{
    KINDS * id as usize + 3
}

/// Whether a word is a lookup word.
pub(crate) fn is_lookup(word: usize) -> bool
    ensures { result ≡ (word % 8 == 3) }
{
    word % KINDS == 3
}

/// Which bit of its bit word a place has.
pub(crate) fn own_bit(place: usize) -> usize
    ensures { result ≡ place_bit place }
{
    place / PLACES_AN_ID % IDS_A_WORD
}
