// SPDX-License-Identifier: GPL-2.0-only
//! Objects by the command that added them and by their birth group.

ghost use Rattle.std.specs.Prelude.{◌≡◌, ◌++◌, map, OnOk, IfOk};
ghost use Rattle.shr_audit_case.specs.Tags.{tag_of, freed_tag};

use shr_base::log::Log;
use shr_base::memory::Memory;
use shr_base::objects::Object;
use shr_base::places::Serial;
use shr_list::queue::Queue;
use std::alloc::Global;

/// An object by the command that added it, and the group that it was born in.
#[derive(Clone, Copy, Debug, PartialEq, Eq)]
pub struct Tag {
    pub serial: Serial,
    pub birth: u16,
}

/// An object that was freed, and the number of the entry that freed it, counted from 0 in its
/// journal.
#[derive(Clone, Copy, Debug, PartialEq, Eq)]
pub struct FreedTag {
    pub entry: usize,
    pub tag: Tag,
}

fn tag_of(object: &Object) -> Tag
    ensures { result ≡ tag_of object.now }
{
    Tag {
        serial: object.serial,
        birth: object.birth,
    }
}

/// Notes the objects that an entry freed.
pub(crate) fn note_freed(
    tags: &mut Vec<FreedTag>,
    entry: usize,
    freed: &[Object],
) -> Result<(), Memory>
    ensures { OnOk result (tags.new.items ≡ tags.old.items ++ map (freed_tag entry) freed.now) }
{
    for object in freed {
        tags.push(FreedTag {
            entry,
            tag: tag_of(object),
        })?;
    }
    Ok(())
}

/// The objects of a queue from the head.
pub(crate) fn tags_in(alloc: Global, queue: &Queue) -> Result<Vec<Tag>, Memory>
    ensures { IfOk result (λ tags. tags.items ≡ map tag_of queue.now.items) }
{
    let mut tags = Vec::new(alloc);
    let mut at = queue.head();
    for _object in 0..queue.len() {
        let Some(node) = at else {
            return Ok(tags);
        };
        tags.push(tag_of(queue.object(node)))?;
        at = queue.next(node);
    }
    Ok(tags)
}
