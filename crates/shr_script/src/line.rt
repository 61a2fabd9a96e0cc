// SPDX-License-Identifier: GPL-2.0-only
//! A line behind its first word: what it says and adds.

ghost use Rattle.std.specs.Prelude.{◌≡◌, ◌++◌, OnOk, IfSome, codes, true};
ghost use Rattle.shr_model.specs.Pieces.{pieces};
ghost use Rattle.shr_words.specs.WordReading.{words_left};
ghost use Rattle.shr_script.specs.Said.{said_state};
ghost use Rattle.shr_script.specs.Drafted.{DoesAsRead, Ends, drafted, completed, command_kept, kind_step, plain_step, line_step, part_step};
ghost use Rattle.shr_script.specs.declared.kind.Kind.TheVariants.{Header, Size, Group, Cache, Pool, Worker, Work, Sweep as Sweeping, End};
ghost use Rattle.shr_script.specs.declared.kind.Verb.TheVariants.{Put};
ghost use Rattle.shr_script.specs.Script.{is_end_read};

use crate::commands::{command_in, put_command};
use crate::draft::Draft;
use crate::kind::{Kind, Phase, Verb, kind_at};
use crate::rules::{cache_rule, command_rule, group_rule, pool_rule};
use crate::said::Said;
use crate::stopped::Stopped;
use crate::words::{cache_words, group_words, pool_words, size_words, sweep_words, version_word};
use shr_base::log::Log;
use shr_base::memory::Memory;
use shr_base::scripts::{CacheDecl, Code, Command, GroupDecl, PoolDecl, Sweep, WorkerScript};
use shr_base::text::Text;
use shr_words::paths::parent_path;
use shr_words::word::{end, word};
use std::alloc::Global;

#[tactic(auto, unfolding(crate::specs::Drafted::kind_step))]
fn header_line(said: &mut Said, draft: &mut Draft, rest: Option<&[u8]>) -> Result<(), Stopped>
    ensures { DoesAsRead (said_state said.new, drafted draft.new) result
        (kind_step (said_state said.old) (drafted draft.old) Header (words_left rest.entry)) }
{
    said.version = version_word(said, rest)?;
    said.phase = Phase::Sizes;
    Ok(())
}

#[tactic(auto, unfolding(crate::specs::Drafted::kind_step))]
fn size_line(said: &mut Said, draft: &mut Draft, rest: Option<&[u8]>) -> Result<(), Stopped>
    ensures { DoesAsRead (said_state said.new, drafted draft.new) result
        (kind_step (said_state said.old) (drafted draft.old) Size (words_left rest.entry)) }
{
    let (nodes, ids) = size_words(said, rest)?;
    said.phase = Phase::Groups;
    said.nodes = nodes;
    said.ids = ids;
    Ok(())
}

#[tactic(auto, unfolding(crate::specs::Drafted::kind_step))]
fn group_line<'a>(
    alloc: Global,
    said: &mut Said<'a>,
    draft: &mut Draft,
    later: bool,
    rest: Option<&'a [u8]>,
) -> Result<(), Stopped>
    ensures { DoesAsRead (said_state said.new, drafted draft.new) result
        (kind_step (said_state said.old) (drafted draft.old) (Group later)
        (words_left rest.entry)) }
{
    let (path, limit) = group_words(said, later, rest)?;
    group_rule(said, later, path)?;
    let parent = said.groups.place(parent_path(path)).unwrap_or(0);
    said.groups.declare(path)?;
    said.later.add(later)?;
    draft.groups.add(GroupDecl {
        path: Text::of(alloc, path)?,
        parent,
        limit,
        later,
    })?;
    Ok(())
}

#[tactic(auto, unfolding(crate::specs::Drafted::kind_step), using(shr_words::proofs::ClassLaws::policy_again, shr_words::proofs::ClassLaws::flag_again))]
fn cache_line<'a>(
    alloc: Global,
    said: &mut Said<'a>,
    draft: &mut Draft,
    rest: Option<&'a [u8]>,
) -> Result<(), Stopped>
    ensures { DoesAsRead (said_state said.new, drafted draft.new) result
        (kind_step (said_state said.old) (drafted draft.old) Cache (words_left rest.entry)) }
{
    let (name, policy, seeks, batch, floor, fs, on) = cache_words(said, rest)?;
    cache_rule(said, name, on)?;
    said.phase = Phase::Caches;
    said.caches.declare(name)?;
    said.on += on as u32;
    draft.caches.add(CacheDecl {
        name: Text::of(alloc, name)?,
        policy,
        seeks,
        batch,
        floor,
        fs,
        on,
    })?;
    Ok(())
}

#[tactic(auto, unfolding(crate::specs::Drafted::kind_step), using(shr_words::proofs::ClassLaws::flag_again))]
fn pool_line<'a>(
    alloc: Global,
    said: &mut Said<'a>,
    draft: &mut Draft,
    rest: Option<&'a [u8]>,
) -> Result<(), Stopped>
    ensures { DoesAsRead (said_state said.new, drafted draft.new) result
        (kind_step (said_state said.old) (drafted draft.old) Pool (words_left rest.entry)) }
{
    let (name, seeks, batch, floor, flat) = pool_words(said, rest)?;
    pool_rule(said, name)?;
    said.phase = Phase::Pools;
    said.pools.declare(name)?;
    draft.pools.add(PoolDecl {
        name: Text::of(alloc, name)?,
        seeks,
        batch,
        floor,
        flat,
    })?;
    Ok(())
}

// The same commands. Where they take less than half of the room that was made for them, they get a
// room of their size.
fn trimmed(mut commands: Vec<Command>) -> Log<Command>
    ensures { result.items ≡ commands.items }
{
    if commands.len() < commands.capacity() / 2 {
        commands.shrink_to_fit();
    }
    Log::from_vec(commands)
}

// The commands of the last worker are complete.
fn complete(alloc: Global, phase: Phase, draft: &mut Draft) -> Result<(), Memory>
    ensures { OnOk result (drafted draft.new ≡ completed phase (drafted draft.old)) }
{
    let commands = trimmed(std::mem::replace(&mut draft.commands, Vec::new(alloc)));
    if let Phase::Workers = phase {
        draft.complete.add(WorkerScript { commands })?;
    }
    Ok(())
}

#[tactic(auto, unfolding(crate::specs::Drafted::kind_step))]
fn worker_line(
    alloc: Global,
    said: &mut Said,
    draft: &mut Draft,
    rest: Option<&[u8]>,
) -> Result<(), Stopped>
    ensures { DoesAsRead (said_state said.new, drafted draft.new) result
        (kind_step (said_state said.old) (drafted draft.old) Worker (words_left rest.entry)) }
{
    end(rest)?;
    if said.workers >= 64 {
        return Err(Stopped::Bad(Code::TooMany));
    }
    complete(alloc, said.phase, draft)?;
    // Without this room the list grows as commands come.
    let likely = draft.likely.saturating_sub(said.commands as usize);
    let _ = draft.commands.reserve(likely);
    said.phase = Phase::Workers;
    said.workers += 1;
    Ok(())
}

// A command more of the last worker, where there is room for it.
#[inline(always)]
fn keep(said: &mut Said, draft: &mut Draft, command: Command) -> Result<(), Stopped>
    ensures { DoesAsRead (said_state said.new, drafted draft.new) result
        (command_kept (said_state said.old) (drafted draft.old) command) }
{
    command_rule(said)?;
    if draft.commands.push(command).is_err() {
        return Err(Stopped::Memory);
    }
    said.commands += 1;
    Ok(())
}

// A put of the last worker. Most commands are puts, and what the others take stays out of the way.
#[tactic(auto, unfolding(crate::specs::Drafted::kind_step, crate::specs::Drafted::command_step))]
#[inline(never)]
fn put_line(
    alloc: Global,
    said: &mut Said,
    draft: &mut Draft,
    rest: Option<&[u8]>,
) -> Result<(), Stopped>
    ensures { DoesAsRead (said_state said.new, drafted draft.new) result
        (kind_step (said_state said.old) (drafted draft.old) (Work Put) (words_left rest.entry)) }
{
    let command = put_command(alloc, said, rest)?;
    keep(said, draft, command)
}

// A command of the last worker.
#[tactic(auto, unfolding(crate::specs::Drafted::kind_step, crate::specs::Drafted::command_step))]
fn command_line(
    alloc: Global,
    said: &mut Said,
    draft: &mut Draft,
    verb: Verb,
    rest: Option<&[u8]>,
) -> Result<(), Stopped>
    ensures { DoesAsRead (said_state said.new, drafted draft.new) result
        (kind_step (said_state said.old) (drafted draft.old) (Work verb) (words_left rest.entry)) }
{
    let command = command_in(alloc, said, verb, rest)?;
    keep(said, draft, command)
}

#[tactic(auto, unfolding(crate::specs::Drafted::kind_step), using(shr_words::proofs::ClassLaws::flag_again))]
fn sweep_line(
    alloc: Global,
    said: &mut Said,
    draft: &mut Draft,
    rest: Option<&[u8]>,
) -> Result<(), Stopped>
    ensures { DoesAsRead (said_state said.new, drafted draft.new) result
        (kind_step (said_state said.old) (drafted draft.old) Sweeping (words_left rest.entry)) }
{
    let (priority, nofs) = sweep_words(said, rest)?;
    complete(alloc, said.phase, draft)?;
    draft.sweep = Some(Sweep { priority, nofs });
    said.phase = Phase::Swept;
    Ok(())
}

#[tactic(auto, unfolding(crate::specs::Drafted::kind_step))]
fn end_line(
    alloc: Global,
    said: &mut Said,
    draft: &mut Draft,
    rest: Option<&[u8]>,
) -> Result<(), Stopped>
    ensures { DoesAsRead (said_state said.new, drafted draft.new) result
        (kind_step (said_state said.old) (drafted draft.old) End (words_left rest.entry)) }
{
    end(rest)?;
    complete(alloc, said.phase, draft)?;
    said.phase = Phase::Done;
    Ok(())
}

// The words of a line that begins with `put `.
#[inline(always)]
fn behind_put(rest: Option<&[u8]>) -> Option<&[u8]>
    ensures { IfSome result (λ r. words_left rest.entry ≡ pieces 32 (codes "put " ++ r.now)) }
{
    match rest {
        Some(bytes) => bytes.strip_prefix(b"put ".as_slice()),
        None => None,
    }
}

#[tactic(auto, unfolding(crate::specs::Drafted::plain_step))]
fn plain_line<'a>(
    alloc: Global,
    said: &mut Said<'a>,
    draft: &mut Draft,
    rest: Option<&'a [u8]>,
) -> Result<(), Stopped>
    ensures { DoesAsRead (said_state said.new, drafted draft.new) result
        (plain_step (said_state said.old) (drafted draft.old) (words_left rest.entry)) }
{
    // Most lines are puts of a worker.
    if let Phase::Workers = said.phase {
        if let Some(words) = behind_put(rest) {
            return put_line(alloc, said, draft, Some(words));
        }
    }
    let (first, rest) = word(rest)?;
    match kind_at(said.version, said.phase, first)? {
        Kind::Header => header_line(said, draft, rest),
        Kind::Size => size_line(said, draft, rest),
        Kind::Group { later } => group_line(alloc, said, draft, later, rest),
        Kind::Cache => cache_line(alloc, said, draft, rest),
        Kind::Pool => pool_line(alloc, said, draft, rest),
        Kind::Worker => worker_line(alloc, said, draft, rest),
        Kind::Work(verb) => command_line(alloc, said, draft, verb, rest),
        Kind::Sweep => sweep_line(alloc, said, draft, rest),
        Kind::End => end_line(alloc, said, draft, rest),
    }
}

/// A line, without its line feed.
#[tactic(auto, unfolding(crate::specs::Drafted::line_step, shr_model::specs::PieceParts::left))]
fn line<'a>(
    alloc: Global,
    said: &mut Said<'a>,
    draft: &mut Draft,
    bytes: &'a [u8],
) -> Result<(), Stopped>
    ensures { DoesAsRead (said_state said.new, drafted draft.new) result
        (line_step (said_state said.old) (drafted draft.old) (pieces 32 bytes.now)) }
{
    let phase = said.phase;
    match plain_line(alloc, said, draft, Some(bytes)) {
        Ok(()) => Ok(()),
        Err(Stopped::Memory) => Err(Stopped::Memory),
        Err(Stopped::Bad(code)) => match phase {
            Phase::Start => Err(Stopped::Bad(Code::BadHeader)),
            _ => Err(Stopped::Bad(code)),
        },
    }
}

fn is_done(phase: Phase) -> bool
    ensures { result ≡ is_end_read phase }
{
    matches!(phase, Phase::Done)
}

/// A part between line feeds, and whether the script is complete with it. The last part has no line
/// feed.
#[tactic(auto, unfolding(crate::specs::Drafted::part_step))]
pub fn part<'a>(
    alloc: Global,
    said: &mut Said<'a>,
    draft: &mut Draft,
    bytes: &'a [u8],
    last: bool,
) -> Result<bool, Stopped>
    ensures { Ends (said_state said.new, drafted draft.new) result (part_step (said_state said.old)
        (drafted draft.old) bytes.now last) }
{
    if is_done(said.phase) {
        return if last && bytes.is_empty() {
            Ok(true)
        } else {
            Err(Stopped::Bad(Code::Trailing))
        };
    }
    if last {
        return Err(Stopped::Bad(Code::NoEnd));
    }
    line(alloc, said, draft, bytes)?;
    Ok(false)
}
