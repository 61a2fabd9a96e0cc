// SPDX-License-Identifier: GPL-2.0-only
//! The phase of each id at the end.

ghost use Rattle.std.specs.Prelude.{◌≡◌, ◌+◌, ◌%◌, ◌<◌, List, [], ◌∷◌, ◌++◌, length, IfOk};
ghost use Rattle.shr_base.specs.declared.journals.PoolEntry.{PoolEntry};
ghost use Rattle.shr_model.specs.Pool.{id_of};
ghost use Rattle.shr_audit_lists.specs.Set.{ArePhases};

use shr_base::journals::PoolEntry;
use shr_base::memory::Memory;
use std::alloc::Global;

// The id that an entry speaks of.
fn id_of(entry: &PoolEntry) -> u16
    ensures id { result ≡ id_of entry.now }
    ensures small { result < 65536 }
{
    match entry {
        PoolEntry::Registered { id, .. } => *id,
        PoolEntry::Unregistered { id, .. } => *id,
        PoolEntry::Idle { id } => *id,
    }
}

// The phase after one entry more, modulo 3.
fn next_phase(phase: u8) -> u8
    ensures { result ≡ (phase + 1) % 3 }
{
    ((phase as u16 + 1) % 3) as u8
}

// Each id is idle.
fn all_idle(alloc: Global) -> Result<Vec<u8>, Memory>
    ensures { IfOk result (λ phases. ArePhases [] phases.items) }
{
    let mut phases = Vec::new(alloc);
    for _id in 0..65536usize {
        phases.push(0)?;
    }
    Ok(phases)
}

// Notes an entry more.
fn note_entry(phases: &mut Vec<u8>, entry: &PoolEntry)
    requires { length phases.old.items ≡ 65536 }
    ensures many { length phases.new.items ≡ 65536 }
    ensures noted { (pool : List PoolEntry) → ArePhases pool phases.old.items
        → ArePhases (pool ++ entry.now ∷ []) phases.new.items }
{
    let id = id_of(entry);
    let phase = next_phase(phases[id as usize]);
    phases[id as usize] = phase;
}

/// The phase of each id behind the journal of registrations, modulo 3.
pub(crate) fn phases_of(alloc: Global, pool: &[PoolEntry]) -> Result<Vec<u8>, Memory>
    ensures { IfOk result (λ phases. ArePhases pool.now phases.items) }
{
    let mut phases = all_idle(alloc)?;
    for entry in pool {
        note_entry(&mut phases, entry);
    }
    Ok(phases)
}
