// SPDX-License-Identifier: GPL-2.0-only
//! A tenant's calls on cache 0 and node 0, made where there is such a group.

use shr_base::places::Target;
use shr_base::replies::{Answered, Reply, Spent};
use shr_base::text::Text;
use shr_cache::{dels, gets, pins, puts};
use shr_walk::worker::Worker;
use std::sync::Wait;

/// What a tenant is asked to do.
#[derive(Clone, Copy)]
pub(crate) enum Command {
    Put,
    Get,
    Del,
    Pin,
    Unpin,
}

/// What is answered where no object is found or made: a word, and the entry of a journal or the
/// charges of the worker.
pub(crate) type Heard = (&'static str, u32);

// What an answer says.
fn heard(answer: Option<Answered>) -> Heard {
    let Some(answered) = answer else {
        return ("nothing", 0);
    };
    match answered.reply {
        Reply::Miss { at } => ("miss", at.entry),
        Reply::Offline { entry } => ("offline", entry),
        Reply::Worn {
            spent: Spent::Charges { charges, .. },
        } => ("worn", charges),
        _ => ("another", 0),
    }
}

/// One call. The value of an object that is put is "v".
pub(crate) fn ask<R: Wait>(
    worker: &mut Worker<'_, R>,
    asked: Command,
    group: u16,
    key: &[u8],
) -> Option<Answered> {
    let alloc = worker.shared.core.alloc;
    let shape = worker.shared.core.shape();
    if shape.nodes == 0 || shape.decls == 0 || group as usize >= shape.parents.len() {
        return None;
    }
    let key = Text::of(alloc, key).ok()?;
    let value = Text::of(alloc, b"v").ok()?;
    let target = Target {
        group,
        node: 0,
        decl: 0,
    };
    match asked {
        Command::Put => Some(puts::put(worker, target, key, value)),
        Command::Get => Some(gets::get(worker, target, &key)),
        Command::Del => Some(dels::del(worker, target, &key)),
        Command::Pin => Some(pins::set_pin(worker, target, &key, true)),
        Command::Unpin => Some(pins::set_pin(worker, target, &key, false)),
    }
}

/// Gives the commands of these rows on a group, and tells the first that heard something else.
pub(crate) fn first_unlike<R: Wait>(
    worker: &mut Worker<'_, R>,
    group: u16,
    rows: &[(Command, Heard)],
) -> Option<usize> {
    for (i, (command, told)) in rows.iter().enumerate() {
        if heard(ask(worker, *command, group, b"k")) != *told {
            return Some(i);
        }
    }
    None
}
