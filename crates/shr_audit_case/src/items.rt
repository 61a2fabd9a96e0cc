// SPDX-License-Identifier: GPL-2.0-only
//! The objects that are printed, against those that a list has.

ghost use Rattle.std.specs.Prelude.{◌≡◌};
ghost use Rattle.std.specs.Bool.{Decides};

use shr_base::items::Items;
use shr_base::objects::Object;
use shr_list::queue::Queue;

// Whether two objects are the same in each field.
fn is_object(a: &Object, b: &Object) -> bool
    ensures { Decides result (a.now ≡ b.now) }
{
    let keys = a.key.same(&b.key);
    let values = a.value.same(&b.value);
    a.serial == b.serial
        && a.birth == b.birth
        && a.marked == b.marked
        && a.pinned == b.pinned
        && keys
        && values
}

/// Whether the objects that are printed are those of a list, from the head.
pub(crate) fn are_items(printed: &Items, queue: &Queue) -> bool
    ensures { Decides result (printed.now.items ≡ queue.now.items) }
{
    let mut walk = printed.walk();
    let mut at = queue.head();
    'objects: while let Some(object) = walk.next() {
        let Some(node) = at else {
            return false;
        };
        let same = is_object(object, queue.object(node));
        if !same {
            return false;
        }
        at = queue.next(node);
    }
    at.is_none()
}
