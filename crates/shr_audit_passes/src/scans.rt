// SPDX-License-Identifier: GPL-2.0-only
//! The Scan entries of a pass.

ghost use Rattle.std.specs.Prelude.{◌≡◌, ◌≤◌, map, sum_by};
ghost use Rattle.std.specs.Bool.{Decides};
ghost use Rattle.shr_base.specs.declared.objects.Policy.{Policy};
ghost use Rattle.shr_audit_formed.specs.Each.{EachItem};
ghost use Rattle.shr_laws.specs.LawfulWalk.{AreScansOf};
ghost use Rattle.shr_audit_passes.specs.Scans.{IsScanAfter, freed_of_scan, made_of_scan};

use crate::passes::asks_due;
use shr_base::objects::Policy;
use shr_base::places::Place;
use shr_base::scripts::CacheDecl;
use shr_base::walks::PassRecord;

/// A Scan entry, with the place and the number where it stands.
#[derive(Clone, Copy, Debug, PartialEq, Eq)]
pub struct ScanSeen {
    pub worker: u16,
    pub walk: u64,
    pub place: Place,
    pub number: usize,
    pub asked: u32,
    pub policy: Policy,
    pub freed: u32,
}

// Whether a scan asked for so many objects by this policy, and stands at this number or behind it.
fn is_scan_of(size: u64, policy: Policy, version: u32, scan: &ScanSeen) -> bool
    ensures { Decides result (IsScanAfter size policy version scan.now) }
{
    scan.asked as u64 == size && scan.policy == policy && version as usize <= scan.number
}

// Whether each of these did.
fn are_alike(size: u64, policy: Policy, version: u32, scans: &[ScanSeen]) -> bool
    ensures { Decides result (EachItem (IsScanAfter size policy version) scans.now) }
{
    for scan in scans {
        if !is_scan_of(size, policy, version, scan) {
            return false;
        }
    }
    true
}

// Whether these scans freed so much.
fn scans_free(scans: &[ScanSeen], told: u64) -> bool
    ensures { Decides result (sum_by freed_of_scan scans.now ≡ told) }
{
    let mut left = told;
    for scan in scans {
        if scan.freed as u64 > left {
            return false;
        }
        left -= scan.freed as u64;
    }
    left == 0
}

/// Whether these are the Scan entries of a pass: the first of its asks, those that found the list
/// closed left out.
pub fn are_scans_of(priority: u8, decl: &CacheDecl, pass: &PassRecord, scans: &[ScanSeen]) -> bool
    ensures { Decides result (AreScansOf priority decl.now pass.now (map made_of_scan scans.now)) }
{
    let due = asks_due(priority, decl.seeks, decl.batch, pass);
    let made = pass.asks.saturating_sub(pass.closed);
    if scans.len() != made as usize {
        return false;
    }
    if made as u64 > due.count {
        return false;
    }
    if !are_alike(due.size, decl.policy, pass.version, scans) {
        return false;
    }
    let freed = scans_free(scans, pass.freed);
    freed
}
