// SPDX-License-Identifier: GPL-2.0-only
//! Whether an isolation is lawful with the scans that it made.

ghost use Rattle.std.specs.Prelude.{◌≡◌, ◌++◌, ◌∷◌, [], map, replicate, sum_by};
ghost use Rattle.std.specs.Bool.{Decides};
ghost use Rattle.shr_model.specs.Isolations.{IsLawfulIsolation, met_one, mets_of};
ghost use Rattle.shr_audit_formed.specs.Each.{EachItem};
ghost use Rattle.shr_audit_isolations.specs.Gathered.{seen_of};
ghost use Rattle.shr_audit_isolations.specs.Lawful.{IsAskedAlike, IsBounded, isolation_freed, met, met_by};

use crate::gathered::IsolationScan;
use shr_base::objects::Policy;
use shr_base::replies::IsolateEnd;
use shr_base::walks::Isolation;

// Whether a scan was asked for one object, by this policy.
fn is_asked_alike(policy: Policy, scan: &IsolationScan) -> bool
    ensures { Decides result (IsAskedAlike policy scan.now) }
{
    scan.asked == 1 && scan.policy == policy
}

// Whether each of these was.
fn are_asked_alike(policy: Policy, scans: &[IsolationScan]) -> bool
    ensures { Decides result (EachItem (IsAskedAlike policy) scans.now) }
{
    for scan in scans {
        if !is_asked_alike(policy, scan) {
            return false;
        }
    }
    true
}

// Whether a scan met so many objects, and stopped or didn't.
fn has_met(visits: u32, stopped: bool, scan: &IsolationScan) -> bool
    ensures { Decides result (met_by scan.now ≡ met visits stopped) }
{
    scan.visits == visits && scan.stopped == stopped
}

// Whether each of these met one object and didn't stop.
fn are_ones(scans: &[IsolationScan]) -> bool
    ensures { Decides result (EachItem (λ x. met_by x ≡ met_one) scans.now) }
{
    for scan in scans {
        if !has_met(1, false, scan) {
            return false;
        }
    }
    true
}

// Whether so many of these did, and there is no other.
fn are_so_many(ones: usize, scans: &[IsolationScan]) -> bool
    ensures { Decides result (map met_by scans.now ≡ replicate ones met_one) }
{
    scans.len() == ones && are_ones(scans)
}

// Whether there is one other, the last, which met this.
fn end_with(ones: usize, visits: u32, stopped: bool, scans: &[IsolationScan]) -> bool
    ensures { Decides result (map met_by scans.now
        ≡ replicate ones met_one ++ met visits stopped ∷ []) }
{
    match scans.split_last() {
        Some((last, front)) => are_so_many(ones, front) && has_met(visits, stopped, last),
        None => false,
    }
}

// Whether scans met what those of an isolation of so many visits that ended so did.
fn have_met(visits: u32, ending: IsolateEnd, scans: &[IsolationScan]) -> bool
    ensures { Decides result (map met_by scans.now ≡ mets_of visits ending) }
{
    match ending {
        IsolateEnd::Bare => end_with(visits as usize, 0, false, scans),
        IsolateEnd::Stop => end_with((visits as usize).saturating_sub(1), 1, true, scans),
        _ => are_so_many(visits as usize, scans),
    }
}

// Whether these scans freed so much.
fn have_freed(freed: u32, scans: &[IsolationScan]) -> bool
    ensures { Decides result (sum_by isolation_freed scans.now ≡ freed) }
{
    let mut left = freed;
    for scan in scans {
        if scan.freed > left {
            return false;
        }
        left -= scan.freed;
    }
    left == 0
}

// Whether an isolation made no more visits than its budget, and as many as its end says.
fn is_bounded(isolation: &Isolation) -> bool
    ensures { Decides result (IsBounded isolation.now) }
{
    match isolation.ending {
        IsolateEnd::Stop => 0 < isolation.visits && isolation.visits <= isolation.budget,
        IsolateEnd::Spent => isolation.visits == isolation.budget,
        _ => isolation.visits <= isolation.budget,
    }
}

/// Whether an isolation of a list with this policy made these scans, and is lawful with them.
pub fn is_lawful(policy: Policy, scans: &[IsolationScan], isolation: &Isolation) -> bool
    ensures { Decides result (IsLawfulIsolation policy (map seen_of scans.now) isolation.now) }
{
    if !is_bounded(isolation) {
        return false;
    }
    if !are_asked_alike(policy, scans) {
        return false;
    }
    if !have_met(isolation.visits, isolation.ending, scans) {
        return false;
    }
    have_freed(isolation.freed, scans)
}
