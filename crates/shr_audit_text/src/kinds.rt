// SPDX-License-Identifier: GPL-2.0-only
//! The kinds of a report's lines, by their first words.

ghost use Rattle.std.specs.Prelude.{◌≡◌};
ghost use Rattle.shr_audit_text.specs.Said.{line_kind, plain_kind_of, within_kind_of, is_entry, is_unit};

/// A kind of lines whose values take no memory.
#[derive(Clone, Copy, Debug, PartialEq, Eq)]
pub enum PlainKind {
    Version,
    Sizes,
    Tree,
    Found,
    Isolation,
    Walk,
    Map,
    Try,
    Carry,
    Plain,
    Pass,
    List,
    Units,
    Bit,
    Deferred,
    PoolDeferred,
    Use,
    Lookups,
    Totals,
    End,
}

/// What a line says, by its first word.
#[derive(Clone, Copy, Debug, PartialEq, Eq)]
pub enum Kind {
    Group,
    Cache,
    /// A pool of units, or an entry of the journal of registrations: both begin with `pool`.
    Pool,
    Reply,
    Entry,
    Item,
    /// An entry of a pool's journal.
    Unit,
    Plain(PlainKind),
}

// Whether a line is an entry of a list's journal.
#[tactic(auto, unfolding(crate::specs::Said::is_entry))]
fn is_entry(word: &[u8]) -> bool
    ensures { result ≡ is_entry word.now }
{
    word == b"add".as_slice()
        || word == b"look".as_slice()
        || word == b"drop".as_slice()
        || word == b"pin".as_slice()
        || word == b"unpin".as_slice()
        || word == b"scan".as_slice()
        || word == b"moved".as_slice()
        || word == b"closed".as_slice()
        || word == b"drained".as_slice()
}

// Whether a line is an entry of a pool's journal.
#[tactic(auto, unfolding(crate::specs::Said::is_unit))]
fn is_unit(word: &[u8]) -> bool
    ensures { result ≡ is_unit word.now }
{
    word == b"release".as_slice() || word == b"grab".as_slice() || word == b"reclaim".as_slice()
}

// The kinds of other lines.
#[tactic(auto, unfolding(crate::specs::Said::within_kind_of))]
fn within_kind_of(word: &[u8]) -> Option<Kind>
    ensures { result ≡ within_kind_of word.now }
{
    if is_entry(word) {
        Some(Kind::Entry)
    } else if word == b"item".as_slice() {
        Some(Kind::Item)
    } else if word == b"reply".as_slice() {
        Some(Kind::Reply)
    } else if word == b"group".as_slice() {
        Some(Kind::Group)
    } else if word == b"cache".as_slice() {
        Some(Kind::Cache)
    } else if word == b"pool".as_slice() {
        Some(Kind::Pool)
    } else if is_unit(word) {
        Some(Kind::Unit)
    } else {
        None
    }
}

// The kinds of lines whose values take no memory.
#[tactic(auto, unfolding(crate::specs::Said::plain_kind_of))]
fn plain_kind_of(word: &[u8]) -> Option<PlainKind>
    ensures { result ≡ plain_kind_of word.now }
{
    if word == b"report".as_slice() {
        Some(PlainKind::Version)
    } else if word == b"size".as_slice() {
        Some(PlainKind::Sizes)
    } else if word == b"tree".as_slice() {
        Some(PlainKind::Tree)
    } else if word == b"find".as_slice() {
        Some(PlainKind::Found)
    } else if word == b"isolation".as_slice() {
        Some(PlainKind::Isolation)
    } else if word == b"walk".as_slice() {
        Some(PlainKind::Walk)
    } else if word == b"map".as_slice() {
        Some(PlainKind::Map)
    } else if word == b"try".as_slice() {
        Some(PlainKind::Try)
    } else if word == b"carry".as_slice() {
        Some(PlainKind::Carry)
    } else if word == b"plain".as_slice() {
        Some(PlainKind::Plain)
    } else if word == b"pass".as_slice() {
        Some(PlainKind::Pass)
    } else if word == b"list".as_slice() {
        Some(PlainKind::List)
    } else if word == b"units".as_slice() {
        Some(PlainKind::Units)
    } else if word == b"bit".as_slice() {
        Some(PlainKind::Bit)
    } else if word == b"deferred".as_slice() {
        Some(PlainKind::Deferred)
    } else if word == b"pooldeferred".as_slice() {
        Some(PlainKind::PoolDeferred)
    } else if word == b"use".as_slice() {
        Some(PlainKind::Use)
    } else if word == b"lookups".as_slice() {
        Some(PlainKind::Lookups)
    } else if word == b"total".as_slice() {
        Some(PlainKind::Totals)
    } else if word == b"end".as_slice() {
        Some(PlainKind::End)
    } else {
        None
    }
}

/// The kind of a line that begins with this word. None: no line does.
pub fn kind_of(word: &[u8]) -> Option<Kind>
    ensures { result ≡ line_kind word.now }
{
    match plain_kind_of(word) {
        Some(kind) => Some(Kind::Plain(kind)),
        None => within_kind_of(word),
    }
}
