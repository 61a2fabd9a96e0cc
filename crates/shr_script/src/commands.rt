// SPDX-License-Identifier: GPL-2.0-only
//! The command that a line says behind its first word.

ghost use Rattle.shr_words.specs.WordReading.{words_left};
ghost use Rattle.shr_script.specs.Said.{said_state};
ghost use Rattle.shr_script.specs.Drafted.{AnswersAsRead, command_said};
ghost use Rattle.shr_script.specs.declared.kind.Verb.TheVariants.{Put, On, Shrink, Balance, Isolate, Release, Grab};

use crate::kind::Verb;
use crate::said::Said;
use crate::stopped::Stopped;
use crate::words::{
    balance_words, cache_word, grab_words, group_word, isolate_words, key_words, later_group_word,
    put_words, release_words, shrink_words,
};
use shr_base::scripts::{Act, Command};
use shr_base::text::Text;
use std::alloc::Global;

/// Of `put`.
#[tactic(auto, unfolding(crate::specs::Drafted::command_said))]
#[inline(always)]
pub fn put_command(alloc: Global, said: &Said, rest: Option<&[u8]>) -> Result<Command, Stopped>
    ensures { AnswersAsRead result (command_said (said_state said.now) Put
        (words_left rest.entry)) }
{
    let (at, key, value) = put_words(said, rest)?;
    let key = Text::of(alloc, key)?;
    let value = Text::of(alloc, value)?;
    Ok(Command::Put { at, key, value })
}

// Of `get`, `del`, `pin` or `unpin`.
#[tactic(auto, unfolding(crate::specs::Drafted::command_said))]
fn key_command(
    alloc: Global,
    said: &Said,
    act: Act,
    rest: Option<&[u8]>,
) -> Result<Command, Stopped>
    ensures { AnswersAsRead result (command_said (said_state said.now) (On act)
        (words_left rest.entry)) }
{
    let (at, key) = key_words(said, rest)?;
    let key = Text::of(alloc, key)?;
    Ok(Command::On { at, key, act })
}

// Of `shrink`.
#[tactic(auto, unfolding(crate::specs::Drafted::command_said), using(shr_words::proofs::ClassLaws::flag_again))]
fn shrink_command(said: &Said, rest: Option<&[u8]>) -> Result<Command, Stopped>
    ensures { AnswersAsRead result (command_said (said_state said.now) Shrink
        (words_left rest.entry)) }
{
    let (group, node, priority, nofs) = shrink_words(said, rest)?;
    Ok(Command::Shrink {
        group,
        node,
        priority,
        nofs,
    })
}

// Of `balance`.
#[tactic(auto, unfolding(crate::specs::Drafted::command_said), using(shr_words::proofs::ClassLaws::flag_again))]
fn balance_command(said: &Said, rest: Option<&[u8]>) -> Result<Command, Stopped>
    ensures { AnswersAsRead result (command_said (said_state said.now) Balance
        (words_left rest.entry)) }
{
    let (node, priority, nofs) = balance_words(said, rest)?;
    Ok(Command::Balance {
        node,
        priority,
        nofs,
    })
}

// Of `isolate`.
#[tactic(auto, unfolding(crate::specs::Drafted::command_said))]
fn isolate_command(said: &Said, rest: Option<&[u8]>) -> Result<Command, Stopped>
    ensures { AnswersAsRead result (command_said (said_state said.now) Isolate
        (words_left rest.entry)) }
{
    let (at, budget) = isolate_words(said, rest)?;
    Ok(Command::Isolate { at, budget })
}

// Of `release`.
#[tactic(auto, unfolding(crate::specs::Drafted::command_said))]
fn release_command(said: &Said, rest: Option<&[u8]>) -> Result<Command, Stopped>
    ensures { AnswersAsRead result (command_said (said_state said.now) Release
        (words_left rest.entry)) }
{
    let (node, pool, units) = release_words(said, rest)?;
    Ok(Command::Release { node, pool, units })
}

// Of `grab`.
#[tactic(auto, unfolding(crate::specs::Drafted::command_said))]
fn grab_command(said: &Said, rest: Option<&[u8]>) -> Result<Command, Stopped>
    ensures { AnswersAsRead result (command_said (said_state said.now) Grab
        (words_left rest.entry)) }
{
    let (node, pool) = grab_words(said, rest)?;
    Ok(Command::Grab { node, pool })
}

/// The command that the words behind its verb say.
#[tactic(auto, unfolding(crate::specs::Drafted::command_said))]
pub fn command_in(
    alloc: Global,
    said: &Said,
    verb: Verb,
    rest: Option<&[u8]>,
) -> Result<Command, Stopped>
    ensures { AnswersAsRead result (command_said (said_state said.now) verb
        (words_left rest.entry)) }
{
    match verb {
        Verb::Put => put_command(alloc, said, rest),
        Verb::On(act) => key_command(alloc, said, act, rest),
        Verb::Shrink => shrink_command(said, rest),
        Verb::Balance => balance_command(said, rest),
        Verb::Offline => {
            let group = group_word(said, rest)?;
            Ok(Command::Offline { group })
        }
        Verb::MkGroup => {
            let group = later_group_word(said, rest)?;
            Ok(Command::MkGroup { group })
        }
        Verb::Register => {
            let decl = cache_word(said, rest)?;
            Ok(Command::Register { decl })
        }
        Verb::Unregister => {
            let decl = cache_word(said, rest)?;
            Ok(Command::Unregister { decl })
        }
        Verb::Isolate => isolate_command(said, rest),
        Verb::Release => release_command(said, rest),
        Verb::Grab => grab_command(said, rest),
    }
}
