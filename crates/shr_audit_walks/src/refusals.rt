// SPDX-License-Identifier: GPL-2.0-only
//! The charges that groups refused, by the commands that made them.

ghost use Rattle.std.specs.Prelude.{◌≡◌, ◌<◌, ◌≤◌, ◌^◌, ◌++◌, [], ◌∷◌, ℕ, length, slice_get, Some, IfOk, OnOk};
ghost use Rattle.shr_audit_walks.specs.declared.refusals.Refusal.{Refusal};
ghost use Rattle.shr_model.specs.Charges.{is_refused};
ghost use Rattle.shr_laws.specs.Parts.{limit_of};
ghost use Rattle.shr_audit_walks.specs.Refusals.{AreRefusals, StandByKey, refusals_in, refusals_with, refusal_key};

use shr_base::journals::UseStep;
use shr_base::memory::Memory;
use shr_base::places::Serial;
use shr_base::scripts::Script;
use std::alloc::Global;

/// A charge that a group refused: the command by one number, and the group.
#[derive(Clone, Copy, Debug, PartialEq, Eq)]
pub struct Refusal {
    pub key: u64,
    pub group: u16,
}

// The numbers of a worker and of its command as one.
fn serial_key(by: Serial) -> u64
    ensures key { result ≡ refusal_key by }
    ensures command { by.command < 2 ^ 32 }
{
    0x1_0000_0000 * by.worker as u64 + by.command as u64
}

// The limit of a group, where it has one.
fn limit_of(script: &Script, group: u16) -> Option<u32>
    ensures { result ≡ limit_of script.now group }
{
    if group == 0 {
        return None;
    }
    match script.groups.get(group as usize - 1) {
        Some(group) => group.limit,
        None => None,
    }
}

// Whether an operation goes up and didn't find the usage of its group below the limit.
fn is_refused(script: &Script, step: UseStep) -> bool
    ensures { result ≡ is_refused (limit_of script.now step.group) step }
{
    match limit_of(script, step.group) {
        Some(limit) => step.up && step.found >= limit as i64,
        None => false,
    }
}

// Notes an operation, if it was refused.
fn note_step(refusals: &mut Vec<Refusal>, script: &Script, step: UseStep) -> Result<(), Memory>
    ensures { OnOk result (refusals.new.items
        ≡ refusals.old.items ++ refusals_in script.now (step ∷ [])) }
{
    if is_refused(script, step) {
        refusals.push(Refusal {
            key: serial_key(step.by),
            group: step.group,
        })?;
    }
    Ok(())
}

// The refused charges, in the order of the operations.
fn refusals_in(alloc: Global, script: &Script, uses: &[UseStep]) -> Result<Vec<Refusal>, Memory>
    ensures { IfOk result (λ refusals. refusals.items ≡ refusals_in script.now uses.now) }
{
    let mut refusals = Vec::new(alloc);
    for step in uses {
        note_step(&mut refusals, script, *step)?;
    }
    Ok(refusals)
}

/// The refused charges, in the order of their commands.
pub fn refusals_of(alloc: Global, script: &Script, uses: &[UseStep]) -> Result<Vec<Refusal>, Memory>
    ensures order { IfOk result (λ refusals. StandByKey refusals.items) }
    ensures same { IfOk result (λ refusals. AreRefusals script.now uses.now refusals.items) }
{
    let mut refusals = refusals_in(alloc, script, uses)?;
    refusals.sort_by_key(|refusal| refusal.key)?;
    Ok(refusals)
}

// The refused charges from the first one on that isn't of a lower key.
fn first_of(refusals: &[Refusal], key: u64) -> usize
    requires { StandByKey refusals.now }
    ensures within { result ≤ length refusals.now }
    ensures before { (n : ℕ) (x : Refusal) → n < result → slice_get refusals.now n ≡ Some x
        → x.key < key }
    ensures behind { (n : ℕ) (x : Refusal) → result ≤ n → slice_get refusals.now n ≡ Some x
        → key ≤ x.key }
{
    refusals.partition_point(|refusal| refusal.key < key)
}

// The index behind the last one that isn't of a higher key.
fn behind_of(refusals: &[Refusal], key: u64) -> usize
    requires { StandByKey refusals.now }
    ensures within { result ≤ length refusals.now }
    ensures before { (n : ℕ) (x : Refusal) → n < result → slice_get refusals.now n ≡ Some x
        → x.key ≤ key }
    ensures behind { (n : ℕ) (x : Refusal) → result ≤ n → slice_get refusals.now n ≡ Some x
        → key < x.key }
{
    refusals.partition_point(|refusal| refusal.key <= key)
}

/// Those of a command.
pub fn refusals_by(refusals: &[Refusal], by: Serial) -> &[Refusal]
    requires { StandByKey refusals.now }
    ensures { result.now ≡ refusals_with (refusal_key by) refusals.now }
{
    let key = serial_key(by);
    let low = first_of(refusals, key);
    let high = behind_of(refusals, key);
    if low < high {
        &refusals[low..high]
    } else {
        &[]
    }
}
