// SPDX-License-Identifier: GPL-2.0-only
//! What each command did in each group: whether it took back what it had to, and put on no more
//! than it may.

ghost use Rattle.std.specs.Prelude.{◌≡◌, true, [], Some, None, option_copied, option_map, ◌<◌, ◌≤◌, ◌^◌, slice_get, length, IfOk};
ghost use Rattle.std.specs.Bool.{Decides};
ghost use Rattle.std.specs.BTreeMap.{get};
ghost use Rattle.std.specs.Ordering.{nat_cmp};
ghost use Rattle.shr_model.specs.Charges.{is_refused};
ghost use Rattle.shr_audit_charges.specs.declared.own.Own.{Own};
ghost use Rattle.shr_audit_charges.specs.Own.{AreOwnRight, IsKeyed, MayStandBefore, few_ups, limit_in, own_key, own_with};

use crate::climb::own_key;
use shr_base::journals::UseStep;
use shr_base::memory::Memory;
use std::alloc::Global;
use std::collections::BTreeMap;

/// The operations of a command in a group, from one of them on: whether the first goes up, and how
/// many do.
#[derive(Clone, Copy, Debug, PartialEq, Eq)]
pub struct Own {
    pub up: bool,
    pub ups: u8,
}

/// The limit of a group, if it has one.
pub fn limit_at(limits: &[Option<u32>], group: usize) -> Option<u32>
    ensures { result ≡ limit_in limits.now group }
{
    if group < limits.len() {
        limits[group]
    } else {
        None
    }
}

// Whether an operation goes up and didn't find the usage below the limit.
fn is_refused(limit: Option<u32>, step: UseStep) -> bool
    ensures { result ≡ is_refused limit step }
{
    match limit {
        Some(limit) => step.up && step.found >= limit as i64,
        None => false,
    }
}

// Whether an operation of a command in a group may stand before the others that it has there.
fn may_stand(limit: Option<u32>, step: UseStep, next: Option<Own>) -> bool
    ensures { Decides result (MayStandBefore limit step next) }
{
    match next {
        Some(next) => !step.up || (!next.up && next.ups < 14),
        None => !is_refused(limit, step),
    }
}

// The operations of a command in a group with one before them.
fn own_with(step: UseStep, next: Option<Own>) -> Own
    requires room { step.up ≡ true → few_ups next < 14 }
    requires few { few_ups next ≤ 14 }
    ensures { result ≡ own_with step next }
{
    let ups = match next {
        Some(next) => next.ups,
        None => 0,
    };
    Own {
        up: step.up,
        ups: if step.up { ups + 1 } else { ups },
    }
}

// What stands behind for a command and a group.
fn next_in(later: &BTreeMap<u64, Own>, key: u64) -> Option<Own>
    ensures { result ≡ get nat_cmp later.now key }
{
    later.get(&key).copied()
}

/// Whether each command did in each group as it may: an operation that goes up and doesn't find the
/// usage below the group's limit has a next one there that goes down, no two in a row go up, and no
/// more than 14 do. It goes through the operations from the last to the first, and keeps what
/// stands behind for each command and group.
pub fn are_own_right(
    alloc: Global,
    limits: &[Option<u32>],
    uses: &[UseStep],
) -> Result<bool, Memory>
    ensures { IfOk result (λ b. Decides b (AreOwnRight limits.now uses.now)) }
{
    let mut later: BTreeMap<u64, Own> = BTreeMap::new(alloc);
    let mut left = uses.len();
    while left > 0 {
        left -= 1;
        let step = uses[left];
        let key = own_key(step.group, step.by.worker, step.by.command);
        let next = next_in(&later, key);
        let limit = limit_at(limits, step.group as usize);
        if !may_stand(limit, step, next) {
            return Ok(false);
        }
        let own = own_with(step, next);
        later.insert(key, own)?;
    }
    Ok(true)
}
