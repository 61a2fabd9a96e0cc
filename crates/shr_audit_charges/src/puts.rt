// SPDX-License-Identifier: GPL-2.0-only
//! Operations that go up: whether each is of a put.

ghost use Rattle.std.specs.Bool.{Decides};
ghost use Rattle.shr_audit_charges.specs.Puts.{AreUpsOfPuts, IsUpOfPut};

use shr_audit_case::serials::command_at;
use shr_base::journals::UseStep;
use shr_base::scripts::{Command, Script};

// Whether an operation that goes up is of a put.
fn is_up_of_put(script: &Script, step: UseStep) -> bool
    ensures { Decides result (IsUpOfPut script.now step) }
{
    if !step.up {
        return true;
    }
    let Some(command) = command_at(script, step.by) else {
        return false;
    };
    match command {
        Command::Put { .. } => true,
        _ => false,
    }
}

/// Whether each operation that goes up is of a put.
pub fn are_ups_of_puts(script: &Script, uses: &[UseStep]) -> bool
    ensures { Decides result (AreUpsOfPuts script.now uses.now) }
{
    for step in uses {
        if !is_up_of_put(script, *step) {
            return false;
        }
    }
    true
}
