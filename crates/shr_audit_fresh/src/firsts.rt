// SPDX-License-Identifier: GPL-2.0-only
//! The groups of which something was shown, each with the least command that showed it.

ghost use Rattle.std.specs.Prelude.{◌≡◌, ℕ, nat_eq, OnOk};
ghost use Rattle.std.specs.HashMap.{get};
ghost use Rattle.shr_audit_fresh.specs.Firsts.{HasNoFirsts, NotesFirst, first_with};

use shr_base::memory::Memory;
use std::alloc::Global;
use std::collections::HashMap;

/// A table of no groups.
pub(crate) fn no_firsts(alloc: Global) -> HashMap<u16, usize>
    ensures { HasNoFirsts result }
{
    HashMap::new(alloc)
}

// The lower of two commands, if there are two.
fn first_with(first: Option<usize>, command: usize) -> usize
    ensures { result ≡ first_with first command }
{
    match first {
        Some(first) => { if first < command { first } else { command } }
        None => command,
    }
}

/// The least command that showed something of a group.
pub(crate) fn first_of(firsts: &HashMap<u16, usize>, group: u16) -> Option<usize>
    ensures { result ≡ get nat_eq firsts.now group }
{
    firsts.get(&group).copied()
}

/// Notes a command, if it shows something of a group.
pub(crate) fn note(
    firsts: &mut HashMap<u16, usize>,
    group: Option<u16>,
    command: usize,
) -> Result<(), Memory>
    ensures { OnOk result (NotesFirst group command firsts.old firsts.new) }
{
    let Some(group) = group else {
        return Ok(());
    };
    let first = first_with(first_of(firsts, group), command);
    firsts.insert(group, first)?;
    Ok(())
}
