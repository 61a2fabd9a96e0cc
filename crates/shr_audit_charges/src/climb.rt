// SPDX-License-Identifier: GPL-2.0-only
//! The groups at or above another, each with a command by one number.

ghost use Rattle.std.specs.Prelude.{◌≡◌, ◌++◌, ◌<◌, length, OnOk};
ghost use Rattle.shr_model.specs.Trees.{IsTree};
ghost use Rattle.shr_audit_charges.specs.Own.{IsKeyed, own_key};
ghost use Rattle.shr_audit_charges.specs.Paths.{path_keys, start_of};

use shr_base::memory::Memory;
use shr_base::places::Serial;

/// A command in a group, by one number.
pub fn own_key(group: u16, worker: u16, command: u32) -> u64
    ensures key { result ≡ own_key group worker command }
    ensures keyed { IsKeyed group worker command }
{
    0x1_0000_0000_0000 * group as u64 + 0x1_0000_0000 * worker as u64 + command as u64
}

// The group itself, or the root if it isn't there.
fn start_of(parents: &[u16], group: u16) -> u16
    ensures { result ≡ start_of parents.now group }
{
    if (group as usize) < parents.len() {
        group
    } else {
        0
    }
}

/// Adds a command in each group that is at or above another.
pub fn note_path(keys: &mut Vec<u64>, parents: &[u16], birth: u16, by: Serial) -> Result<(), Memory>
    requires { IsTree parents.now }
    ensures { OnOk result (keys.new.items ≡ keys.old.items ++ path_keys parents.now by birth) }
{
    let mut group = start_of(parents, birth);
    while group > 0 {
        let key = own_key(group, by.worker, by.command);
        keys.push(key)?;
        group = parents[group as usize];
    }
    let root = own_key(0, by.worker, by.command);
    keys.push(root)?;
    Ok(())
}
