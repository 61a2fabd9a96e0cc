// SPDX-License-Identifier: GPL-2.0-only
//! What a line of a report says.

ghost use Rattle.std.specs.Prelude.{[], IfOk};
ghost use Rattle.shr_audit_text.specs.Reads.{IsReadAs};
ghost use Rattle.shr_audit_text.specs.Said.{plain_said, pool_said, read_line, said_of, IsSaidNumbered, IsReadOf};
ghost use Rattle.shr_words.specs.WordReading.{words_left};

use crate::entries::{entry, item};
use crate::kinds::{Kind, PlainKind, kind_of};
use crate::lines::{pool_entry, tree_entry};
use crate::pools::{
    IsolationHead, PlainHead, UnitsHead, isolation_head, plain_entry, plain_head, pool_amount,
    pool_pass, units_head,
};
use crate::replies::reply;
use crate::spent::place;
use crate::tables::{amount, bit, found, lookups, use_step};
use crate::walks::{Head, attempt, seen, walk_head};
use crate::words::{is_over, number, number_8, number_16, word};
use shr_base::attempts::Attempt;
use shr_base::ends::{MapEnd, PlaceAmount};
use shr_base::journals::{Entry, PlainEntry, PoolEntry, TreeEntry, UseStep};
use shr_base::memory::Memory;
use shr_base::objects::Object;
use shr_base::places::Place;
use shr_base::replies::{Found, Reply};
use shr_base::text::Text;
use shr_base::walks::{MapSeen, PlainTry};
use std::alloc::Global;

/// What one line says. A number that says only where the line stands is for the printed text to tell.
#[derive(Drop)]
pub enum Said {
    Version { version: u8 },
    Sizes { nodes: u8, ids: u16 },
    Group { path: Text },
    Cache { name: Text },
    /// A pool of units.
    PoolName { name: Text },
    /// An entry of the journal of registrations.
    Pool { entry: PoolEntry },
    Tree { entry: TreeEntry },
    Reply { worker: u16, reply: Reply },
    Found { found: Found },
    Isolation { head: IsolationHead },
    Walk { head: Head },
    Map { map: MapSeen },
    Try { attempt: Attempt },
    Carry { amount: PlaceAmount },
    Plain { head: PlainHead },
    Pass { came: PlainTry },
    List { place: Place },
    Entry { entry: Entry },
    Item { item: Object },
    Units { head: UnitsHead },
    /// An entry of a pool's journal.
    Unit { entry: PlainEntry },
    Bit { map: MapEnd },
    Deferred { amount: PlaceAmount },
    PoolDeferred { amount: PlaceAmount },
    Use { step: UseStep },
    Lookups { lookups: u32 },
    Totals { added: u64, freed: u64, listed: u64 },
    End,
}

// The version that a report's first line says.
fn version_said(rest: Option<&[u8]>) -> Option<Said>
    ensures { IsReadAs result (plain_said PlainKind.Version 0 (words_left rest.entry))
        (IsSaidNumbered (plain_said PlainKind.Version 0 (words_left rest.entry))) }
{
    let (version, _) = word(rest);
    Some(Said::Version {
        version: number_8(version)?,
    })
}

// The numbers of nodes and ids.
fn sizes_said(rest: Option<&[u8]>) -> Option<Said>
    ensures { IsReadAs result (plain_said PlainKind.Sizes 0 (words_left rest.entry))
        (IsSaidNumbered (plain_said PlainKind.Sizes 0 (words_left rest.entry))) }
{
    let (nodes, rest) = word(rest);
    let (ids, _) = word(rest);
    Some(Said::Sizes {
        nodes: number_8(nodes)?,
        ids: number_16(ids)?,
    })
}

// The totals.
fn totals_said(rest: Option<&[u8]>) -> Option<Said>
    ensures { IsReadAs result (plain_said PlainKind.Totals 0 (words_left rest.entry))
        (IsSaidNumbered (plain_said PlainKind.Totals 0 (words_left rest.entry))) }
{
    let (added, rest) = word(rest);
    let (freed, rest) = word(rest);
    let (listed, _) = word(rest);
    Some(Said::Totals {
        added: number(added)?,
        freed: number(freed)?,
        listed: number(listed)?,
    })
}

// What a line of a kind says that takes no memory.
fn plain_said(kind: PlainKind, version: u8, rest: Option<&[u8]>) -> Option<Said>
    ensures { IsReadAs result (plain_said kind version (words_left rest.entry)) (IsSaidNumbered
        (plain_said kind version (words_left rest.entry))) }
{
    Some(match kind {
        PlainKind::Version => return version_said(rest),
        PlainKind::Sizes => return sizes_said(rest),
        PlainKind::Totals => return totals_said(rest),
        PlainKind::End => Said::End,
        PlainKind::Tree => Said::Tree {
            entry: tree_entry(rest)?,
        },
        PlainKind::Found => Said::Found {
            found: found(rest)?,
        },
        PlainKind::Isolation => Said::Isolation {
            head: isolation_head(rest)?,
        },
        PlainKind::Walk => Said::Walk {
            head: walk_head(rest)?,
        },
        PlainKind::Map => Said::Map { map: seen(rest)? },
        PlainKind::Try => Said::Try {
            attempt: attempt(rest)?,
        },
        PlainKind::Carry => Said::Carry {
            amount: amount(rest)?,
        },
        PlainKind::Plain => Said::Plain {
            head: plain_head(rest)?,
        },
        PlainKind::Pass => Said::Pass {
            came: pool_pass(rest)?,
        },
        PlainKind::List => Said::List {
            place: place(rest)?,
        },
        PlainKind::Units => Said::Units {
            head: units_head(rest)?,
        },
        PlainKind::Bit => Said::Bit {
            map: bit(version, rest)?,
        },
        PlainKind::Deferred => Said::Deferred {
            amount: amount(rest)?,
        },
        PlainKind::PoolDeferred => Said::PoolDeferred {
            amount: pool_amount(rest)?,
        },
        PlainKind::Use => Said::Use {
            step: use_step(rest)?,
        },
        PlainKind::Lookups => Said::Lookups {
            lookups: lookups(rest)?,
        },
    })
}

// An answer of a worker.
fn reply_said(alloc: Global, rest: Option<&[u8]>) -> Result<Option<Said>, Memory>
    ensures { let said = said_of Kind.Reply 0 [] (words_left rest.entry) in IfOk result
        (λ found. IsReadAs found said (IsSaidNumbered said)) }
{
    let (worker, rest) = word(rest);
    let (_, rest) = word(rest);
    let Some(worker) = number_16(worker) else {
        return Ok(None);
    };
    let Some(reply) = reply(alloc, rest)? else {
        return Ok(None);
    };
    Ok(Some(Said::Reply { worker, reply }))
}

// A pool of units, or a registration.
fn pool_said(alloc: Global, rest: Option<&[u8]>) -> Result<Option<Said>, Memory>
    ensures { let said = pool_said (words_left rest.entry) in IfOk result
        (λ found. IsReadAs found said (IsSaidNumbered said)) }
{
    let (_, behind) = word(rest);
    let (name, behind) = word(behind);
    if is_over(behind) {
        return Ok(Some(Said::PoolName {
            name: Text::of(alloc, name)?,
        }));
    }
    match pool_entry(rest) {
        Some(entry) => Ok(Some(Said::Pool { entry })),
        None => Ok(None),
    }
}

// An entry of a list.
fn list_said(alloc: Global, first: &[u8], rest: Option<&[u8]>) -> Result<Option<Said>, Memory>
    ensures { let said = said_of Kind.Entry 0 first.now (words_left rest.entry) in IfOk result
        (λ found. IsReadAs found said (IsSaidNumbered said)) }
{
    match entry(alloc, first, rest)? {
        Some(entry) => Ok(Some(Said::Entry { entry })),
        None => Ok(None),
    }
}

// An object.
fn item_said(alloc: Global, rest: Option<&[u8]>) -> Result<Option<Said>, Memory>
    ensures { let said = said_of Kind.Item 0 [] (words_left rest.entry) in IfOk result
        (λ found. IsReadAs found said (IsSaidNumbered said)) }
{
    match item(alloc, rest)? {
        Some(item) => Ok(Some(Said::Item { item })),
        None => Ok(None),
    }
}

/// What a line says in a report of this version. None: its first word is no line's, or its numbers
/// don't have the ranges of their types. Want of memory alone is an error.
pub fn read_line(alloc: Global, version: u8, line: &[u8]) -> Result<Option<Said>, Memory>
    ensures { IfOk result (λ found. IsReadOf found (read_line version line.now)) }
{
    let (first, rest) = word(Some(line));
    let Some(kind) = kind_of(first) else {
        return Ok(None);
    };
    match kind {
        Kind::Plain(kind) => Ok(plain_said(kind, version, rest)),
        Kind::Reply => reply_said(alloc, rest),
        Kind::Group => {
            let (_, rest) = word(rest);
            let (path, _) = word(rest);
            Ok(Some(Said::Group {
                path: Text::of(alloc, path)?,
            }))
        }
        Kind::Cache => {
            let (_, rest) = word(rest);
            let (name, _) = word(rest);
            Ok(Some(Said::Cache {
                name: Text::of(alloc, name)?,
            }))
        }
        Kind::Pool => pool_said(alloc, rest),
        Kind::Entry => list_said(alloc, first, rest),
        Kind::Item => item_said(alloc, rest),
        Kind::Unit => match plain_entry(first, rest) {
            Some(entry) => Ok(Some(Said::Unit { entry })),
            None => Ok(None),
        },
    }
}
