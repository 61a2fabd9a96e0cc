// SPDX-License-Identifier: GPL-2.0-only
//! Whether what replies say of declarations is so.

ghost use Rattle.std.specs.Prelude.{◌≡◌, ◌≤◌, ◌&&◌, not, true, length, take, IsPermutation, IfOk};
ghost use Rattle.std.specs.Bool.{Decides};
ghost use Rattle.std.specs.List.Sorted.{IsNonDecreasingBy};
ghost use Rattle.shr_audit_formed.specs.Each.{EachItem};
ghost use Rattle.shr_audit_rows.specs.declared.asked.Asked.{Asked};
ghost use Rattle.shr_audit_rows.specs.Asked.{IsAskedSo, IsSaid, IsAskedRight};
ghost use Rattle.shr_audit_rows.specs.Pooled.{Stands};

use crate::asked::{Asked, Said, asked_of};
use crate::pooled::Pooled;
use shr_base::memory::Memory;
use shr_base::scripts::Script;
use shr_laws::report::Report;
use std::alloc::Global;

// Whether neither of two is so.
fn is_neither(a: bool, b: bool) -> bool
    ensures { result ≡ (not a && not b) }
{
    !a && !b
}

// Whether what is said of a declaration is so, after so many entries.
fn is_said(pooled: &Pooled, script: &Script, report: &Report, asked: Asked, decl: u8) -> bool
    requires known { asked.entry ≤ length report.now.pool.items }
    requires stands { Stands (take asked.entry report.now.pool.items) pooled.now.phases.items
        pooled.now.decls.items }
    ensures { Decides result (IsSaid script.now report.now asked.said decl asked.entry) }
{
    let live = pooled.is_live(script.ids, decl);
    let free = pooled.has_free(script.ids);
    match asked.said {
        Said::Uncached => !live,
        Said::Cached => live,
        Said::Full => is_neither(live, free),
    }
}

// The same, if there is a declaration. The entries are gone on with until then.
fn is_so(pooled: &mut Pooled, script: &Script, report: &Report, asked: Asked) -> bool
    requires stands { Stands (take pooled.old.next report.now.pool.items) pooled.old.phases.items
        pooled.old.decls.items }
    requires low { pooled.old.next ≤ asked.entry }
    ensures so { Decides result (IsAskedRight script.now report.now asked) }
    ensures stands { result ≡ true → Stands (take asked.entry report.now.pool.items)
        pooled.new.phases.items pooled.new.decls.items }
    ensures next { result ≡ true → pooled.new.next ≡ asked.entry }
{
    let until = asked.entry as usize;
    if until > report.pool.len() {
        return false;
    }
    pooled.advance(report.pool.as_slice(), until);
    match asked.decl {
        Some(decl) => is_said(pooled, script, report, asked, decl),
        None => false,
    }
}

// Whether all of these are so, in the order of their entries.
fn are_so(alloc: Global, script: &Script, report: &Report, asked: &[Asked]) -> Result<bool, Memory>
    requires { IsNonDecreasingBy (λ (a : Asked). a.entry) asked.now }
    ensures { IfOk result (λ b. Decides b (EachItem (IsAskedRight script.now report.now)
        asked.now)) }
{
    let mut pooled = Pooled::start(alloc)?;
    for n in 0..asked.len() {
        if !is_so(&mut pooled, script, report, asked[n]) {
            return Ok(false);
        }
    }
    Ok(true)
}

// These in the order of their entries.
fn sorted(asked: Vec<Asked>) -> Result<Vec<Asked>, Memory>
    ensures same { IfOk result (λ v. IsPermutation asked.items v.items) }
    ensures order { IfOk result (λ v. IsNonDecreasingBy (λ (a : Asked). a.entry) v.items) }
{
    let mut asked = asked;
    asked.sort_by_key(|a| a.entry)?;
    Ok(asked)
}

/// Whether what each reply says of a declaration is so: that it is live, or isn't, or that no id can
/// be registered, after so many entries of the journal of registrations. It goes through these once,
/// and through the ids for each such reply.
pub fn are_declarations_so(alloc: Global, script: &Script, report: &Report) -> Result<bool, Memory>
    ensures { IfOk result (λ b. Decides b (IsAskedSo script.now report.now)) }
{
    let asked = asked_of(alloc, script, report)?;
    let asked = sorted(asked)?;
    let all = are_so(alloc, script, report, asked.as_slice())?;
    Ok(all)
}
