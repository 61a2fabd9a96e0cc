// SPDX-License-Identifier: GPL-2.0-only
//! The script that bytes spell.

ghost use Rattle.std.specs.Prelude.{◌≡◌, map, IfOk, IfErr};
ghost use Rattle.shr_script.specs.Read.{IsCause};
ghost use Rattle.shr_audit.specs.Script.{IsScriptOf, tight_script, tight_worker};

use shr_base::log::Log;
use shr_base::memory::Memory;
use shr_base::scripts::{Script, WorkerScript};
use shr_script::read::{ReadError, read_script};
use std::alloc::Global;

// The workers with lists that have no room to spare.
fn tight_workers(alloc: Global, workers: Vec<WorkerScript>) -> Result<Vec<WorkerScript>, Memory>
    ensures { IfOk result (λ tight. tight.items ≡ map tight_worker workers.items) }
{
    let mut tight = Vec::new(alloc);
    for worker in workers {
        tight.push(WorkerScript {
            commands: Log::from_vec(worker.commands.into_vec()),
        })?;
    }
    Ok(tight)
}

// The script with lists that have no room to spare.
fn tight_script(alloc: Global, script: Script) -> Result<Script, Memory>
    ensures { IfOk result (λ tight. tight ≡ tight_script script) }
{
    Ok(Script {
        version: script.version,
        nodes: script.nodes,
        ids: script.ids,
        groups: Log::from_vec(script.groups.into_vec()),
        caches: Log::from_vec(script.caches.into_vec()),
        pools: Log::from_vec(script.pools.into_vec()),
        workers: Log::from_vec(tight_workers(alloc, script.workers.into_vec())?),
        sweep: script.sweep,
    })
}

/// The script that these bytes spell, or their first bad line and what is wrong with it. Only want of
/// memory is answered otherwise. The lists of the script have no room to spare.
pub fn script_of(alloc: Global, bytes: &[u8]) -> Result<Script, ReadError>
    ensures found { IfOk result (λ s. IsScriptOf bytes.now s) }
    ensures fault { IfErr result (λ e. IsCause e bytes.now) }
{
    let script = read_script(alloc, bytes)?;
    let tight = tight_script(alloc, script)?;
    Ok(tight)
}
