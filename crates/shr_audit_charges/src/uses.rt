// SPDX-License-Identifier: GPL-2.0-only
//! The keys of operations: of their groups alone, or with their commands.

ghost use Rattle.std.specs.Prelude.{◌≡◌, ◌++◌, flat_map, OnOk};
ghost use Rattle.shr_audit_charges.specs.Uses.{down_keys, up_keys, use_key};

use crate::climb::own_key;
use shr_base::journals::UseStep;
use shr_base::memory::Memory;

// The group of an operation, alone or with its command, by one number.
fn use_key(step: UseStep, own: bool) -> u64
    ensures { result ≡ use_key own step }
{
    if own {
        own_key(step.group, step.by.worker, step.by.command)
    } else {
        own_key(step.group, 0, 0)
    }
}

// Adds the key of an operation that goes up.
fn note_up(keys: &mut Vec<u64>, step: UseStep, own: bool) -> Result<(), Memory>
    ensures { OnOk result (keys.new.items ≡ keys.old.items ++ up_keys own step) }
{
    if step.up {
        keys.push(use_key(step, own))?;
    }
    Ok(())
}

// Adds the key of an operation that goes down.
fn note_down(keys: &mut Vec<u64>, step: UseStep, own: bool) -> Result<(), Memory>
    ensures { OnOk result (keys.new.items ≡ keys.old.items ++ down_keys own step) }
{
    if !step.up {
        keys.push(use_key(step, own))?;
    }
    Ok(())
}

/// Adds a key for each operation that goes up: of its group, and if `own` of its command too.
pub fn note_ups(keys: &mut Vec<u64>, uses: &[UseStep], own: bool) -> Result<(), Memory>
    ensures { OnOk result (keys.new.items ≡ keys.old.items ++ flat_map (up_keys own) uses.now) }
{
    for step in uses {
        note_up(keys, *step, own)?;
    }
    Ok(())
}

/// The same of each operation that goes down.
pub fn note_downs(keys: &mut Vec<u64>, uses: &[UseStep], own: bool) -> Result<(), Memory>
    ensures { OnOk result (keys.new.items ≡ keys.old.items ++ flat_map (down_keys own) uses.now) }
{
    for step in uses {
        note_down(keys, *step, own)?;
    }
    Ok(())
}
