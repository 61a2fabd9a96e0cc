// SPDX-License-Identifier: GPL-2.0-only
//! Making a script by a number.

ghost use Rattle.std.specs.Prelude.{◌≡◌, true, ◌*◌, ◌+◌, ◌<◌, ◌≤◌, ◌++◌, map, decimal, IfOk};
ghost use Rattle.std.specs.List.{range_with_len};
ghost use Rattle.shr_script.specs.Content.{content_of, IsValid};
ghost use Rattle.shr_gen.specs.Generated.{MayBeGenerated, generated, drawn_after, usual_command, generated_command, commands_from, group_at, three_caches};

use crate::drawing::Draws;
use shr_base::log::Log;
use shr_base::memory::Memory;
use shr_base::objects::Policy;
use shr_base::places::Target;
use shr_base::scripts::{Act, CacheDecl, Command, GroupDecl, Script, WorkerScript};
use shr_base::text::Text;
use std::alloc::Global;

// A short word and a number behind it.
fn numbered(alloc: Global, word: &str, number: u32) -> Result<Text, Memory>
    ensures { IfOk result (λ t. t ≡ word.now ++ decimal number) }
{
    let text = format!(in alloc; "{word}{number}")?;
    Text::of(alloc, text.as_bytes())
}

fn group_at(alloc: Global, worker: u16) -> Result<GroupDecl, Memory>
    ensures { IfOk result (λ g. g ≡ group_at worker) }
{
    Ok(GroupDecl {
        path: numbered(alloc, "/g", worker as u32)?,
        parent: 0,
        limit: None,
        later: false,
    })
}

// The declaration of a cache of the default cost.
fn cache(
    alloc: Global,
    name: &str,
    policy: Policy,
    batch: u32,
    fs: bool,
) -> Result<CacheDecl, Memory>
    ensures { IfOk result (λ c. c ≡ record {
      name = name.now;
      policy = policy;
      seeks = 2;
      batch = batch;
      floor = 0;
      fs = fs;
      on = true;
    }) }
{
    Ok(CacheDecl {
        name: Text::of(alloc, name.as_bytes())?,
        policy,
        seeks: 2,
        batch,
        floor: 0,
        fs,
        on: true,
    })
}

fn caches(alloc: Global) -> Result<Log<CacheDecl>, Memory>
    ensures { IfOk result (λ l. l.items ≡ three_caches) }
{
    let mut caches = Log::new(alloc);
    caches.add(cache(alloc, "c0", Policy::Plain, 0, false)?)?;
    caches.add(cache(alloc, "c1", Policy::Clock, 0, false)?)?;
    caches.add(cache(alloc, "c2", Policy::Plain, 16, true)?)?;
    Ok(caches)
}

fn groups(alloc: Global, workers: u16) -> Result<Log<GroupDecl>, Memory>
    ensures { IfOk result (λ l. l.items ≡ map group_at (range_with_len 0 workers)) }
{
    let mut groups = Log::new(alloc);
    for worker in 0..workers {
        groups.add(group_at(alloc, worker)?)?;
    }
    Ok(groups)
}

// What most commands are, by their number and by what was drawn.
fn usual_command(alloc: Global, worker: u16, number: u32, drawn: u64) -> Result<Command, Memory>
    requires { worker < 63 }
    ensures { IfOk result (λ c. c ≡ usual_command worker number drawn) }
{
    let at = Target {
        group: worker + 1,
        node: (drawn % 2) as u8,
        decl: (drawn / 2 % 3) as u8,
    };
    let priority = (drawn / 8 % 13) as u8;
    Ok(match number % 8 {
        0..=4 => Command::Put {
            at,
            key: numbered(alloc, "k", number)?,
            value: numbered(alloc, "v", number)?,
        },
        5 => Command::On {
            at,
            key: numbered(alloc, "k", number - 1)?,
            act: Act::Get,
        },
        6 => Command::Shrink {
            group: at.group,
            node: at.node,
            priority,
            nofs: false,
        },
        _ => Command::Balance {
            node: at.node,
            priority,
            nofs: false,
        },
    })
}

// A command of a worker with so many commands.
fn command_at(
    alloc: Global,
    worker: u16,
    commands: u32,
    number: u32,
    drawn: u64,
) -> Result<Command, Memory>
    requires worker { worker < 63 }
    requires number { number < commands }
    ensures { IfOk result (λ c. c ≡ generated_command worker commands number drawn) }
{
    if worker % 2 == 1 && number + 1 == commands {
        Ok(Command::Offline { group: worker + 1 })
    } else {
        usual_command(alloc, worker, number, drawn)
    }
}

fn commands_of(
    alloc: Global,
    draws: &mut Draws,
    worker: u16,
    commands: u32,
) -> Result<WorkerScript, Memory>
    requires { worker < 63 }
    ensures made { IfOk result (λ w. w.commands.items ≡ commands_from draws.old.state worker
        commands) }
    ensures drawn { IfOk result (λ w. draws.new.state ≡ drawn_after draws.old.state commands) }
{
    let mut made = Log::new(alloc);
    for number in 0..commands {
        let drawn = draws.next();
        made.add(command_at(alloc, worker, commands, number, drawn)?)?;
    }
    Ok(WorkerScript { commands: made })
}

fn workers_of(
    alloc: Global,
    seed: u64,
    workers: u16,
    commands: u32,
) -> Result<Log<WorkerScript>, Memory>
    requires { workers ≤ 63 }
    ensures { IfOk result (λ l. map (λ w. w.commands.items) l.items
        ≡ map (λ w. commands_from (drawn_after seed (w * commands)) w commands)
        (range_with_len 0 workers)) }
{
    let mut draws = Draws { state: seed };
    let mut made = Log::new(alloc);
    for worker in 0..workers {
        made.add(commands_of(alloc, &mut draws, worker, commands)?)?;
    }
    Ok(made)
}

/// The script of a seed: two nodes, four ids, three caches, and a group for each of the workers,
/// who have so many commands each. It is the same for the same three numbers, and valid. `Memory`
/// comes for want of memory.
pub fn generate(alloc: Global, seed: u64, workers: u16, commands: u32) -> Result<Script, Memory>
    requires { MayBeGenerated workers commands }
    ensures script { IfOk result (λ s. content_of s ≡ generated seed workers commands) }
    ensures valid { IfOk result (λ s. IsValid (content_of s)) }
{
    Ok(Script {
        version: 1,
        nodes: 2,
        ids: 4,
        groups: groups(alloc, workers)?,
        caches: caches(alloc)?,
        pools: Log::new(alloc),
        workers: workers_of(alloc, seed, workers, commands)?,
        sweep: None,
    })
}
