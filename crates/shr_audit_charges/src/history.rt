// SPDX-License-Identifier: GPL-2.0-only
//! The operations of each group: whether they are its charge history, and what they come to.

ghost use Rattle.std.specs.Prelude.{◌≡◌, ℕ, ◌+◌, ◌-◌, ◌<◌, ◌^◌, Some, slice_get, length, IfOk, IfSome, IfNone};
ghost use Rattle.std.specs.Bool.{Decides};
ghost use Rattle.shr_audit_charges.specs.declared.history.Usage.{Usage};
ghost use Rattle.shr_audit_charges.specs.History.{AreCharged, AreNone, AreUsagesOf, FoundSo, IsNextOfGroup, with_use, usage_with};

use shr_base::journals::UseStep;
use shr_base::memory::Memory;
use std::alloc::Global;

/// What operations of a group come to: so many went up, so many down.
#[derive(Clone, Copy, Debug, PartialEq, Eq)]
pub struct Usage {
    pub ups: u64,
    pub downs: u64,
}

// Whether an operation found what those that went up and down leave.
fn found_so(found: i64, usage: Usage) -> bool
    ensures { Decides result (FoundSo found usage) }
{
    found as i128 == usage.ups as i128 - usage.downs as i128
}

// Whether an operation is the next one of its group, which is there.
fn may_follow(usages: &[Usage], step: UseStep) -> bool
    requires { (group : ℕ) (x : Usage) → slice_get usages.now group ≡ Some x
        → x.ups + x.downs < 2 ^ 64 - 1 }
    ensures { Decides result (IsNextOfGroup usages.now step) }
{
    if step.group as usize >= usages.len() {
        return false;
    }
    let usage = usages[step.group as usize];
    step.operation as u64 == usage.ups + usage.downs && found_so(step.found, usage)
}

// What one operation more comes to.
fn usage_with(usage: Usage, up: bool) -> Usage
    requires { usage.ups + usage.downs < 2 ^ 64 - 1 }
    ensures { result ≡ usage_with usage up }
{
    if up {
        Usage {
            ups: usage.ups + 1,
            downs: usage.downs,
        }
    } else {
        Usage {
            ups: usage.ups,
            downs: usage.downs + 1,
        }
    }
}

// What the operations of each group come to after one more.
fn note_step(usages: &mut Vec<Usage>, step: UseStep)
    requires { (group : ℕ) (x : Usage) → slice_get usages.old.items group ≡ Some x
        → x.ups + x.downs < 2 ^ 64 - 1 }
    ensures { usages.new.items ≡ with_use usages.old.items step }
{
    let group = step.group as usize;
    if group < usages.len() {
        let usage = usages[group];
        usages[group] = usage_with(usage, step.up);
    }
}

// So many groups without operations.
fn first_usages(alloc: Global, groups: usize) -> Result<Vec<Usage>, Memory>
    ensures { IfOk result (λ usages. AreNone groups usages.items) }
{
    let mut usages = Vec::new(alloc);
    for _ in 0..groups {
        usages.push(Usage { ups: 0, downs: 0 })?;
    }
    Ok(usages)
}

/// What the operations of each of so many groups come to, or `None` if one of them is of no such
/// group, or isn't the next of its group: numbered from 0, each once, and each finding the ups less
/// the downs before it.
pub fn replay_uses(
    alloc: Global,
    groups: usize,
    uses: &[UseStep],
) -> Result<Option<Vec<Usage>>, Memory>
    ensures some { IfOk result (λ found. IfSome found (λ usages.
        AreCharged groups uses.now × AreUsagesOf groups uses.now usages.items)) }
    ensures none { IfOk result (λ found. IfNone found (AreCharged groups uses.now → ⊥)) }
{
    let mut usages = first_usages(alloc, groups)?;
    for i in 0..uses.len() {
        if !may_follow(usages.as_slice(), uses[i]) {
            return Ok(None);
        }
        note_step(&mut usages, uses[i]);
    }
    Ok(Some(usages))
}
