// SPDX-License-Identifier: GPL-2.0-only
//! The passes of pools, with their Reclaim entries.

ghost use Rattle.std.specs.Prelude.{◌≡◌, ℕ, length, map, sum_by};
ghost use Rattle.std.specs.Bool.{Decides};
ghost use Rattle.shr_base.specs.declared.places.Place.{Place};
ghost use Rattle.shr_audit_formed.specs.Each.{EachItem};
ghost use Rattle.shr_model.specs.Pass.{FollowsArithmetic};
ghost use Rattle.shr_laws.specs.declared.report.Report.{Report};
ghost use Rattle.shr_laws.specs.Pools.{IsPlainEnding, IsPlainPass};
ghost use Rattle.shr_laws.specs.UnitParts.{units_journal};
ghost use Rattle.shr_audit_pools.specs.Passes.{AreReclaimsOf, IsReclaimAfter, reclaim_freed};
ghost use Rattle.shr_audit_pools.specs.Stock.{made_of_reclaim};

use crate::stock::Reclaimed;
use shr_audit_passes::passes::{asks_due, follows};
use shr_base::scripts::PoolDecl;
use shr_base::walks::{Ending, PassRecord};

// Whether a Reclaim asked for so many units, and stands at this number or behind it.
fn is_reclaim_of(size: u64, version: u32, reclaimed: &Reclaimed) -> bool
    ensures { Decides result (IsReclaimAfter size version reclaimed.now) }
{
    reclaimed.asked as u64 == size && version as usize <= reclaimed.number
}

// Whether each of these did.
fn are_alike(size: u64, version: u32, reclaims: &[Reclaimed]) -> bool
    ensures { Decides result (EachItem (IsReclaimAfter size version) reclaims.now) }
{
    for reclaimed in reclaims {
        if !is_reclaim_of(size, version, reclaimed) {
            return false;
        }
    }
    true
}

// Whether these Reclaims freed so much.
fn have_freed(reclaims: &[Reclaimed], told: u64) -> bool
    ensures { Decides result (sum_by reclaim_freed reclaims.now ≡ told) }
{
    let mut left = told;
    for reclaimed in reclaims {
        if reclaimed.freed as u64 > left {
            return false;
        }
        left -= reclaimed.freed as u64;
    }
    left == 0
}

// Whether these are the Reclaims of a pass, which follows the arithmetic.
fn are_reclaims_of(decl: &PoolDecl, priority: u8, pass: &PassRecord, reclaims: &[Reclaimed]) -> bool
    requires { FollowsArithmetic priority decl.now.seeks decl.now.batch pass.now }
    ensures { Decides result (AreReclaimsOf decl.now priority pass.now
        (map made_of_reclaim reclaims.now)) }
{
    let due = asks_due(priority, decl.seeks, decl.batch, pass);
    if reclaims.len() != pass.asks as usize {
        return false;
    }
    if !are_alike(due.size, pass.version, reclaims) {
        return false;
    }
    let freed = have_freed(reclaims, pass.freed);
    freed
}

// Whether a pass at a place with so many entries may end so.
fn is_plain_ending(entries: usize, ending: Ending) -> bool
    ensures { (r : Report) (place : Place) → entries ≡ length (units_journal r place)
        → Decides result (IsPlainEnding r place ending) }
{
    match ending {
        Ending::Through => true,
        Ending::Stop => false,
        Ending::NoRoom => true,
        Ending::Worn { .. } => entries == 0x8000_0000,
    }
}

/// Whether a pass of a pool, at a place with so many entries, follows the arithmetic and has these
/// Reclaims.
pub(crate) fn is_plain_pass(
    entries: usize,
    decl: &PoolDecl,
    priority: u8,
    pass: &PassRecord,
    reclaims: &[Reclaimed],
) -> bool
    ensures { (r : Report) (place : Place) → entries ≡ length (units_journal r place)
        → Decides result (IsPlainPass r place decl.now priority pass.now
        (map made_of_reclaim reclaims.now)) }
{
    if !follows(priority, decl.seeks, decl.batch, pass) {
        return false;
    }
    if pass.closed != 0 {
        return false;
    }
    if !is_plain_ending(entries, pass.ending) {
        return false;
    }
    let reclaimed = are_reclaims_of(decl, priority, pass, reclaims);
    reclaimed
}
