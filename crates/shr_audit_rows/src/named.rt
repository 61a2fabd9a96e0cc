// SPDX-License-Identifier: GPL-2.0-only
//! The group and the declaration that a command names.

ghost use Rattle.std.specs.Prelude.{◌≡◌};
ghost use Rattle.shr_model.specs.Commands.{decl_named, group_named};
ghost use Rattle.shr_model.specs.Groups.{parent_of};
ghost use Rattle.shr_laws.specs.Parts.{parents_of};
ghost use Rattle.shr_laws.specs.ReplyTable.{group_met};

use shr_base::scripts::{Command, Script};

/// The group that a command names.
pub fn group_named(command: &Command) -> Option<u16>
    ensures { result ≡ group_named command.now }
{
    match command {
        Command::Put { at, .. } => Some(at.group),
        Command::On { at, .. } => Some(at.group),
        Command::Shrink { group, .. } => Some(*group),
        Command::Offline { group } => Some(*group),
        Command::MkGroup { group } => Some(*group),
        Command::Isolate { at, .. } => Some(at.group),
        _ => None,
    }
}

/// The declaration that it names.
pub fn decl_named(command: &Command) -> Option<u8>
    ensures { result ≡ decl_named command.now }
{
    match command {
        Command::Put { at, .. } => Some(at.decl),
        Command::On { at, .. } => Some(at.decl),
        Command::Register { decl } => Some(*decl),
        Command::Unregister { decl } => Some(*decl),
        Command::Isolate { at, .. } => Some(at.decl),
        _ => None,
    }
}

// The parent of a group, the root for one that isn't there.
fn parent_of(script: &Script, group: u16) -> u16
    ensures { result ≡ parent_of (parents_of script.now) group }
{
    if group == 0 {
        return 0;
    }
    match script.groups.get(group as usize - 1) {
        Some(decl) => decl.parent,
        None => 0,
    }
}

/// The group that an answer to a command calls offline or not made.
pub fn group_met(script: &Script, command: &Command) -> Option<u16>
    ensures { result ≡ group_met script.now command.now }
{
    match command {
        Command::MkGroup { group } => Some(parent_of(script, *group)),
        other => group_named(other),
    }
}
