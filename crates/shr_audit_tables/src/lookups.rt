// SPDX-License-Identifier: GPL-2.0-only
//! The law on lookups: registrations follow each other as they may, and each lookup met what its
//! number says.

ghost use Rattle.std.specs.Prelude.{◌≡◌, ◌++◌, [], ◌∷◌, cond, IfOk, IfSome, IfNone, OnOk};
ghost use Rattle.std.specs.Bool.{Decides};
ghost use Rattle.shr_base.specs.declared.journals.PoolEntry.TheVariants.{Registered};
ghost use Rattle.shr_laws.specs.WellFormed.{IsWellFormed};
ghost use Rattle.shr_audit_tables.specs.Lookups.{IsPoolLawful, OpensWith, on_from};
ghost use Rattle.shr_audit_tables.specs.Registrations.{AreStatesOf};

use crate::registrations::{IdState, are_last_reached, replay_pool};
use shr_base::journals::PoolEntry;
use shr_base::memory::Memory;
use shr_base::scripts::{CacheDecl, Script};
use shr_laws::report::Report;
use std::alloc::Global;

// Adds the number of a declaration, if it is `on`.
fn push_on(on: &mut Vec<usize>, decl: usize, is_on: bool) -> Result<(), Memory>
    ensures { OnOk result (on.new.items ≡ on.old.items ++ cond is_on (decl ∷ []) []) }
{
    if is_on {
        on.push(decl)?;
    }
    Ok(())
}

// The numbers of the declarations that are `on`, in order.
fn decls_on(alloc: Global, caches: &[CacheDecl]) -> Result<Vec<usize>, Memory>
    ensures { IfOk result (λ on. on.items ≡ on_from 0 caches.now) }
{
    let mut on = Vec::new(alloc);
    for decl in 0..caches.len() {
        push_on(&mut on, decl, caches[decl].on)?;
    }
    Ok(on)
}

// Whether an entry registers this declaration with this id from the first lookup on.
fn is_opening(entry: PoolEntry, decl: usize, n: usize) -> bool
    ensures { Decides result (entry ≡ Registered decl n 0) }
{
    match entry {
        PoolEntry::Registered {
            decl: named,
            id,
            from,
        } => named as usize == decl && id as usize == n && from == 0,
        _ => false,
    }
}

// Whether a journal begins with the registrations of these declarations.
fn opens(on: &[usize], pool: &[PoolEntry]) -> bool
    ensures { Decides result (OpensWith on.now pool.now) }
{
    for n in 0..on.len() {
        if n >= pool.len() {
            return false;
        }
        if !is_opening(pool[n], on[n], n) {
            return false;
        }
    }
    true
}

/// What the journal of registrations says of each id, or `None` if it isn't one, doesn't begin with
/// the caches that are `on`, or begins the registration that an id is in above the id's lookups.
pub fn lawful_pool(
    alloc: Global,
    script: &Script,
    report: &Report,
) -> Result<Option<Vec<IdState>>, Memory>
    requires { IsWellFormed report.now }
    ensures some { IfOk result (λ found. IfSome found (λ states. IsPoolLawful script.now report.now
        × AreStatesOf script.now.ids report.now.pool.items states.items)) }
    ensures none { IfOk result (λ found. IfNone found (IsPoolLawful script.now report.now → ⊥)) }
{
    let pool = report.pool.as_slice();
    if report.lookups.len() != script.ids as usize {
        return Ok(None);
    }
    let on = decls_on(alloc, script.caches.as_slice())?;
    if !opens(on.as_slice(), pool) {
        return Ok(None);
    }
    let Some(states) = replay_pool(alloc, script.ids, script.caches.len(), pool)? else {
        return Ok(None);
    };
    if !are_last_reached(states.as_slice(), report.lookups.as_slice()) {
        return Ok(None);
    }
    Ok(Some(states))
}
