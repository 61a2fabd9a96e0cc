// SPDX-License-Identifier: GPL-2.0-only
//! Whether an entry is one that a reply may cite.

ghost use Rattle.std.specs.Prelude.{◌≡◌};
ghost use Rattle.std.specs.Bool.{Decides};
ghost use Rattle.shr_base.specs.declared.journals.Entry.TheVariants.{Add, Drop, Look, Pin};
ghost use Rattle.shr_laws.specs.Parts.{serial_of};

use shr_base::journals::{DropKind, Entry};
use shr_base::places::{Serial, Target};
use shr_base::text::Text;

/// A tenant's command by its numbers: its worker and its own, where it finds its object, and the id
/// of the cache that was found.
#[derive(Clone, Copy, Debug, PartialEq, Eq)]
pub struct Tenant {
    pub worker: usize,
    pub command: usize,
    pub target: Target,
    pub id: u16,
}

/// The tenant's command with this number, at this target.
pub fn tenant_of(worker: usize, command: usize, target: Target, id: u16) -> Tenant
    ensures { result ≡ record {
      worker = worker;
      command = command;
      target = target;
      id = id;
    } }
{
    Tenant {
        worker,
        command,
        target,
        id,
    }
}

// Whether this is that command.
fn is_own(by: Serial, tenant: Tenant) -> bool
    ensures { Decides result (by ≡ serial_of tenant.worker tenant.command) }
{
    by.worker as usize == tenant.worker && by.command as usize == tenant.command
}

/// Whether an entry is the Add of this command, with this outcome.
pub fn is_add(entry: &Entry, tenant: Tenant, key: &Text, value: &Text, added: bool) -> bool
    ensures { Decides result (entry.now ≡ Add
        (serial_of tenant.worker tenant.command) tenant.target.group added key.now value.now) }
{
    match entry {
        Entry::Add {
            by,
            birth,
            added: outcome,
            key: name,
            value: content,
        } => {
            is_own(*by, tenant)
                && *birth == tenant.target.group
                && *outcome == added
                && name.same(key)
                && content.same(value)
        }
        _ => false,
    }
}

/// Whether an entry is the Look of this command, with this outcome.
pub fn is_look(entry: &Entry, tenant: Tenant, key: &Text, hit: bool) -> bool
    ensures { Decides result (entry.now ≡ Look
        (serial_of tenant.worker tenant.command) tenant.target.group key.now hit) }
{
    match entry {
        Entry::Look {
            by,
            birth,
            key: name,
            hit: outcome,
        } => is_own(*by, tenant)
            && *birth == tenant.target.group
            && name.same(key)
            && *outcome == hit,
        _ => false,
    }
}

/// Whether an entry is the Drop of this command, with this outcome.
pub fn is_drop(entry: &Entry, tenant: Tenant, key: &Text, kind: DropKind) -> bool
    ensures { Decides result (entry.now ≡ Drop
        (serial_of tenant.worker tenant.command) tenant.target.group key.now kind) }
{
    match entry {
        Entry::Drop {
            by,
            birth,
            key: name,
            kind: outcome,
        } => is_own(*by, tenant)
            && *birth == tenant.target.group
            && name.same(key)
            && *outcome == kind,
        _ => false,
    }
}

/// Whether an entry is the Pin of this command, with this outcome.
pub fn is_pin(entry: &Entry, tenant: Tenant, key: &Text, pinned: bool, hit: bool) -> bool
    ensures { Decides result (entry.now ≡ Pin
        (serial_of tenant.worker tenant.command) tenant.target.group key.now pinned hit) }
{
    match entry {
        Entry::Pin {
            by,
            birth,
            key: name,
            pinned: pin,
            hit: outcome,
        } => {
            is_own(*by, tenant)
                && *birth == tenant.target.group
                && name.same(key)
                && *pin == pinned
                && *outcome == hit
        }
        _ => false,
    }
}
