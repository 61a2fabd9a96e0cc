// SPDX-License-Identifier: GPL-2.0-only
//! One entry of a journal, replayed on a queue.

ghost use Rattle.std.specs.Prelude.{◌≡◌, ℕ, IfOk, OnOk, [], option_copied};
ghost use Rattle.shr_model.specs.Items.{drop_kind_of};
ghost use Rattle.shr_base.specs.declared.journals.Entry.TheVariants.{Add, Look, Drop, Pin, Scan, MovedIn, Closed, Drained};
ghost use Rattle.shr_audit_case.specs.Replay.{Replays, left_given};

use crate::tags::Tag;
use shr_base::journals::{DropKind, Entry};
use shr_base::log::Log;
use shr_base::memory::Memory;
use shr_base::objects::{Object, Policy};
use shr_base::places::Serial;
use shr_base::text::Text;
use shr_list::queue::Queue;
use std::alloc::Global;

/// What an entry freed, the value that it met if it is a Look, and whether its outcome is so.
#[derive(Drop)]
pub struct Told {
    pub freed: Log<Object>,
    pub value: Option<Text>,
    pub right: bool,
}

fn add(
    alloc: Global,
    queue: &mut Queue,
    tag: Tag,
    key: &Text,
    value: &Text,
    added: bool,
) -> Result<Told, Memory>
    ensures { IfOk result (λ t. Replays [] queue.old.items queue.new.items
        (Add tag.serial tag.birth added key.now value.now) t) }
{
    let object = Object {
        serial: tag.serial,
        birth: tag.birth,
        key: key.copy()?,
        value: value.copy()?,
        marked: false,
        pinned: false,
    };
    let Ok(pushed) = queue.push(object) else {
        return Err(Memory);
    };
    Ok(Told {
        freed: Log::new(alloc),
        value: None,
        right: added == pushed,
    })
}

fn look(
    alloc: Global,
    queue: &mut Queue,
    by: Serial,
    birth: u16,
    key: &Text,
    hit: bool,
) -> Result<Told, Memory>
    ensures { IfOk result (λ t. Replays [] queue.old.items queue.new.items
        (Look by birth key.now hit) t) }
{
    let held = queue.holds(birth, key);
    let value = queue.look(birth, key)?;
    Ok(Told {
        freed: Log::new(alloc),
        value,
        right: hit == held,
    })
}

fn pin(alloc: Global, queue: &mut Queue, tag: Tag, key: &Text, pinned: bool, hit: bool) -> Told
    ensures { Replays [] queue.old.items queue.new.items
        (Pin tag.serial tag.birth key.now pinned hit) result }
{
    let held = queue.holds(tag.birth, key);
    queue.set_pin(tag.birth, key, pinned);
    Told {
        freed: Log::new(alloc),
        value: None,
        right: hit == held,
    }
}

fn scan(
    queue: &mut Queue,
    asked: u32,
    policy: Policy,
    visits: u32,
    freed: u32,
    stopped: bool,
) -> Result<Told, Memory>
    ensures { IfOk result (λ t. (worker walk : ℕ) → Replays [] queue.old.items queue.new.items
        (Scan worker walk asked policy visits freed stopped) t) }
{
    let met = queue.scan(policy, asked)?;
    let right = visits == met.visits && freed as usize == met.freed.len() && stopped == met.stopped;
    Ok(Told {
        freed: met.freed,
        value: None,
        right,
    })
}

fn drained(queue: &mut Queue, by: Serial, objects: u32) -> Result<Told, Memory>
    ensures { IfOk result (λ t. Replays [] queue.old.items queue.new.items
        (Drained by objects) t) }
{
    let freed = queue.take_all()?;
    let right = objects as usize == freed.len();
    Ok(Told {
        freed,
        value: None,
        right,
    })
}

// What a drop does with the object that it names.
fn kind_of(object: Option<&Object>) -> DropKind
    ensures { result ≡ drop_kind_of (option_copied object.entry) }
{
    match object {
        None => DropKind::Miss,
        Some(object) if object.pinned => DropKind::Pinned,
        Some(_) => DropKind::Dropped,
    }
}

fn drop_key(
    alloc: Global,
    queue: &mut Queue,
    by: Serial,
    birth: u16,
    key: &Text,
    kind: DropKind,
) -> Result<Told, Memory>
    ensures { IfOk result (λ t. Replays [] queue.old.items queue.new.items
        (Drop by birth key.now kind) t) }
{
    let met = kind_of(queue.get(birth, key));
    let right = kind == met;
    let mut freed = Log::new(alloc);
    if met == DropKind::Dropped {
        freed.reserve(1)?;
        if let (_, Some(object)) = queue.take(birth, key) {
            freed.push(object);
        }
    }
    Ok(Told {
        freed,
        value: None,
        right,
    })
}

fn moved(
    alloc: Global,
    queue: &mut Queue,
    given: &mut Queue,
    child: u16,
    objects: u32,
) -> Result<Told, Memory>
    ensures replayed { IfOk result (λ t. Replays given.old.items queue.old.items queue.new.items
        (MovedIn child objects) t) }
    ensures given { OnOk result (given.new.items ≡ []) }
{
    let right = objects as usize == given.len();
    queue.put_before(given)?;
    Ok(Told {
        freed: Log::new(alloc),
        value: None,
        right,
    })
}

fn closed(alloc: Global, queue: &mut Queue) -> Told
    ensures { Replays [] queue.old.items queue.new.items Closed result }
{
    *queue = Queue::new(alloc);
    Told {
        freed: Log::new(alloc),
        value: None,
        right: true,
    }
}

/// Replays an entry on the objects of a list. `given` is what an entry that moves a child's list in
/// finds there, and such an entry empties it.
///
/// After Memory the objects may be those before the entry or after it.
pub fn replay_entry(
    alloc: Global,
    queue: &mut Queue,
    given: &mut Queue,
    entry: &Entry,
) -> Result<Told, Memory>
    ensures replayed { IfOk result
        (λ t. Replays given.old.items queue.old.items queue.new.items entry.now t) }
    ensures given { OnOk result (given.new.items ≡ left_given given.old.items entry.now) }
{
    match entry {
        Entry::Add {
            by,
            birth,
            added,
            key,
            value,
        } => {
            let tag = Tag {
                serial: *by,
                birth: *birth,
            };
            let told = add(alloc, queue, tag, key, value, *added)?;
            Ok(told)
        }
        Entry::Look {
            by,
            birth,
            key,
            hit,
        } => {
            let told = look(alloc, queue, *by, *birth, key, *hit)?;
            Ok(told)
        }
        Entry::Drop {
            by,
            birth,
            key,
            kind,
        } => {
            let told = drop_key(alloc, queue, *by, *birth, key, *kind)?;
            Ok(told)
        }
        Entry::Pin {
            by,
            birth,
            key,
            pinned,
            hit,
        } => {
            let tag = Tag {
                serial: *by,
                birth: *birth,
            };
            Ok(pin(alloc, queue, tag, key, *pinned, *hit))
        }
        Entry::Scan {
            asked,
            policy,
            visits,
            freed,
            stopped,
            ..
        } => {
            let told = scan(queue, *asked, *policy, *visits, *freed, *stopped)?;
            Ok(told)
        }
        Entry::MovedIn { child, objects } => {
            let told = moved(alloc, queue, given, *child, *objects)?;
            Ok(told)
        }
        Entry::Closed => Ok(closed(alloc, queue)),
        Entry::Drained { by, objects } => {
            let told = drained(queue, *by, *objects)?;
            Ok(told)
        }
    }
}
